//! The words that the counters of a loop take, one tuple after another, as an odometer does.
ghost use Rattle.std.specs.Prelude.{◌≡◌, ◌<◌, ◌∷◌, map, true, length, All};
ghost use Rattle.sp_words.specs.Interface.{IsCount};
ghost use Rattle.sp_words.specs.Types.{int_type};
ghost use Rattle.sp_words.specs.Words.{IsWord};
ghost use Rattle.sp_tree.specs.Elements.{counter_words, index_value, length_between};
ghost use Rattle.sp_seq.specs.Looping.{word_at, values, current, tuples_left, left_if, have_words, IsStart, IsDigit};

use crate::slice::{int_value, length_of};

/// The words `from`, `from + by`, .. of a counter, of which there are `count`, and the place of the one that stands.
#[derive(Clone, Copy)]
pub(crate) struct Digit {
    pub(crate) from: u64,
    pub(crate) by: u64,
    pub(crate) count: u64,
    pub(crate) at: u64,
}

/// No word.
pub(crate) const NO_DIGIT: Digit = Digit {
    from: 0,
    by: 0,
    count: 0,
    at: 0,
};

/// How many words of `Int` there are from one up to the other.
fn words_between(from: u64, until: u64) -> u64
    requires from { IsWord int_type from }
    requires until { IsWord int_type until }
    ensures { result ≡ length_between (index_value from) (index_value until) }
{
    length_of(int_value(from), int_value(until))
}

/// The words from one bound up to the other, at the first of them.
pub(crate) fn first_digit(from: u64, until: u64, by: u32) -> Digit
    requires from { IsWord int_type from }
    requires until { IsWord int_type until }
    requires by { IsCount by }
    ensures words { values result ≡ counter_words from until by }
    ensures start { IsStart result }
{
    let by = u64::from(by);
    let len = words_between(from, until);
    Digit {
        from,
        by,
        count: (len + (by - 1)) / by,
        at: 0,
    }
}

/// The word that stands.
pub(crate) fn word_of(digit: &Digit) -> u64
    requires { IsDigit digit.now }
    ensures value { result ≡ word_at digit.now digit.now.at }
    ensures is_word { IsWord int_type result }
{
    (digit.from + digit.at * digit.by) % (1 << 32)
}

/// Whether each counter has a word.
pub(crate) fn have_words(digits: &[Digit]) -> bool
    ensures { result ≡ have_words digits.now }
{
    match digits {
        [] => true,
        [first, rest @ ..] => first.count > 0 && have_words(rest),
    }
}

/// The next tuple of words, if there is one: the last counter takes its next word, or begins anew and the one before it
/// takes its own.
pub(crate) fn advance(digits: &mut [Digit]) -> bool
    requires { All IsDigit digits.old }
    ensures left { tuples_left digits.old ≡ current digits.old ∷ left_if result digits.new }
    ensures digits { All IsDigit digits.new }
{
    let mut k = digits.len();
    'carry: while k > 0 {
        k -= 1;
        let digit = &mut digits[k];
        if digit.at + 1 < digit.count {
            digit.at += 1;
            return true;
        }
        digit.at = 0;
    }
    false
}
