//! Runs of bytes.

ghost use Rattle.std.specs.Prelude.{◌≡◌, ◌≤◌, ◌<◌, length, slice_index, true};
ghost use Rattle.sp_reader.specs.Classes as spec;

/// What the bytes of a run have in common.
#[derive(Clone, Copy, Debug)]
pub enum Class {
    Digit,
    Hex,
    Word,
    /// Of a comment up to the end of its line.
    Line,
    /// Of a number up to its point.
    Whole,
}

fn is_in(class: Class, b: u8) -> bool
    ensures { result ≡ spec.is_in class b }
{
    match class {
        Class::Digit => b.is_ascii_digit(),
        Class::Hex => b.is_ascii_hexdigit(),
        Class::Word => b.is_ascii_alphanumeric() || b == b'_',
        Class::Line => b != b'\n',
        Class::Whole => b != b'.',
    }
}

/// The first place from `at` on whose byte isn't of the class.
pub fn past(class: Class, text: &[u8], at: usize) -> usize
    requires { at ≤ length text.now }
    ensures value { result ≡ spec.past class text.now at }
    ensures within { (at ≤ result) × (result ≤ length text.now) }
    ensures moves { at < length text.now → spec.is_in class (slice_index text.now at) ≡ true → at < result }
{
    let mut end = at;
    while end < text.len() && is_in(class, text[end]) {
        end += 1;
    }
    end
}
