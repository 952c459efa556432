//! Where a text is refused, told of texts. Each function does nothing: what it ensures is the law.
#![tactic(auto)]

ghost use Rattle.sp_refused_texts.specs.Laws.{RefusedTexts, PassedTexts};

/// The rules refuse a text exactly where what stands before a token goes on to a text in the grammar, and with the token no text
/// that begins so is in it.
pub fn refused_texts()
    ensures { RefusedTexts }
{}

/// Where a text is refused for a limit, what stands before the token that passes it goes on to a text in the grammar.
pub fn passed_texts()
    ensures { PassedTexts }
{}
