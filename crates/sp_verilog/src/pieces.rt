//! Pieces of a line of Verilog text.

ghost use Rattle.std.specs.Prelude.{◌≡◌, ◌≤◌, ◌^◌, Some};
ghost use Rattle.sp_verilog.specs.Pieces.{range, sized, sign, less, negated, top_ones};

use sp_netlist::NetId;
use sp_words::Ty;
use std::fmt;

/// The bits of a word of this width, `[W-1:0]`.
#[derive(Clone, Copy)]
pub struct Range(pub u8);

impl fmt::Display for Range {
    ghost output = { λ bits. Some (range bits.0) };

    #[tactic(auto, unfolding(crate::specs::Pieces::range))]
    fn fmt<W: fmt::Write>(&self, f: &mut fmt::Formatter<W>) -> fmt::Result {
        let top = self.0.saturating_sub(1);
        write!(f, "[{top}:0]")
    }
}

/// A word with its width.
#[derive(Clone, Copy)]
pub struct Sized {
    pub width: u8,
    pub word: u64,
}

impl fmt::Display for Sized {
    ghost output = { λ it. Some (sized it.width it.word) };

    #[tactic(auto, unfolding(crate::specs::Pieces::sized))]
    fn fmt<W: fmt::Write>(&self, f: &mut fmt::Formatter<W>) -> fmt::Result {
        let width = self.width;
        let word = self.word;
        write!(f, "{width}'d{word}")
    }
}

/// The sign bit of a net of a type: 0 where the type has no sign.
#[derive(Clone, Copy)]
pub struct Sign(pub Ty, pub NetId);

impl fmt::Display for Sign {
    ghost output = { λ it. Some (sign it.0 it.1) };

    #[tactic(auto, unfolding(crate::specs::Pieces::sign))]
    fn fmt<W: fmt::Write>(&self, f: &mut fmt::Formatter<W>) -> fmt::Result {
        let net = self.1;
        let top = self.0.width() - 1;
        if self.0.signed() {
            write!(f, "n{net}[{top}]")
        } else {
            write!(f, "1'd0")
        }
    }
}

/// Whether the first net's word of a type stands for a smaller number than the second's.
#[derive(Clone, Copy)]
pub struct Less(pub Ty, pub NetId, pub NetId);

impl fmt::Display for Less {
    ghost output = { λ it. Some (less it.0 it.1 it.2) };

    #[tactic(auto, unfolding(crate::specs::Pieces::less))]
    fn fmt<W: fmt::Write>(&self, f: &mut fmt::Formatter<W>) -> fmt::Result {
        let width = self.0.width();
        let bias = Sized {
            width,
            word: 1 << (width - 1),
        };
        let a = self.1;
        let b = self.2;
        if self.0.signed() {
            write!(f, "(n{a} ^ {bias}) < (n{b} ^ {bias})")
        } else {
            write!(f, "n{a} < n{b}")
        }
    }
}

/// The power of two, at most the one that is one past the greatest word of 64 bits.
fn power(exponent: u8) -> u128
    requires { exponent ≤ 64 }
    ensures { result ≡ 2 ^ exponent }
{
    1 << exponent
}

/// The number of that width whose highest bits, so many, are 1, and whose other bits are 0.
pub fn top_ones(width: u8, places: u8) -> u64
    requires has_bits { 1 ≤ width }
    requires in_a_word { width ≤ 64 }
    ensures { result ≡ top_ones width places }
{
    (power(width) - power(width - places.min(width))) as u64
}
