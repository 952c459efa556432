//! How a text that is put together from names, numbers, words, signs and blanks is taken apart into its tokens. Each
//! function does nothing: what it ensures is the law.
#![tactic(auto)]

ghost use Rattle.sp_scanned.specs.Laws.{FromTheBeginning, UpToTheEnd, TokensAreTaken, BlanksArePassed, LineEndsArePassed, NamesAreTokens, NumbersAreTokens};

/// The tokens of a text are those from its beginning on up to its end.
pub fn texts_are_scanned()
    ensures beginning { FromTheBeginning }
    ensures end { UpToTheEnd }
{}

/// A token at the front of a text is the first one, and blanks and line ends are none.
pub fn tokens_are_taken()
    ensures token { TokensAreTaken }
    ensures blank { BlanksArePassed }
    ensures line_end { LineEndsArePassed }
{}

/// A name is one token, and so is a number.
pub fn words_are_tokens()
    ensures name { NamesAreTokens }
    ensures number { NumbersAreTokens }
{}
