//! The lines of products, quotients, remainders and casts.

ghost use Rattle.std.specs.Prelude.{◌≡◌, ◌≤◌, ◌+◌, ◌-◌, ◌*◌, ◌++◌, ◌∷◌, [], OnOk, codes, decimal, string_bytes};
ghost use Rattle.sp_words.specs.Types.{width_of, frac_of};
ghost use Rattle.sp_verilog.specs.Computed.{is_negative, extended, product, magnitudes, quotient, remainder, widened, is_zero, low_part, point_moved, cast_lines};
ghost use Rattle.sp_verilog.specs.Pieces.{assign, wire_head, wire, choose, negated, net_name, part_name, sign, sized};
ghost use Rattle.sp_verilog.specs.Text.{indented, lines_text};

use crate::NoMemory;
use crate::pieces::{Range, Sign, Sized};
use sp_netlist::NetId;
use sp_words::Ty;
use std::fmt::Write;

#[tactic(auto, unfolding(crate::specs::Pieces::wire_head))]
fn push_wire_head(text: &mut String, bits: Range, net: NetId, part: &str) -> Result<(), NoMemory>
    ensures { OnOk result (string_bytes text.new ≡ string_bytes text.old ++ (codes "  " ++ wire_head bits.0 (part_name net part.now))) }
{
    write!(text, "  wire {bits} n{net}_{part} = ")
}

/// An operand at twice its width, under a name of its own.
#[tactic(auto, unfolding(crate::specs::Pieces::wire))]
fn push_extended(
    text: &mut String,
    ty: Ty,
    net: NetId,
    part: &str,
    a: NetId,
) -> Result<(), NoMemory>
    ensures { OnOk result (string_bytes text.new ≡ string_bytes text.old ++ indented (wire (2 * width_of ty) (part_name net part.now) (extended ty a))) }
{
    let width = ty.width();
    let bits = Range(2 * width);
    let first = Sign(ty, a);
    push_wire_head(text, bits, net, part)?;
    writeln!(text, "{{{{{width}{{{first}}}}}, n{a}}};")
}

/// The product of both operands at twice their width.
#[tactic(auto, unfolding(crate::specs::Pieces::wire))]
fn push_wide_product(text: &mut String, width: u8, net: NetId) -> Result<(), NoMemory>
    requires { width ≤ 64 }
    ensures { OnOk result (string_bytes text.new ≡ string_bytes text.old ++ indented (wire (2 * width) (part_name net (codes "p")) (part_name net (codes "a") ++ (codes " * " ++ part_name net (codes "b"))))) }
{
    let bits = Range(2 * width);
    push_wire_head(text, bits, net, "p")?;
    writeln!(text, "n{net}_a * n{net}_b;")
}

/// The bits of the product from the point on.
#[tactic(auto, unfolding(crate::specs::Pieces::assign))]
fn push_rounded_product(text: &mut String, ty: Ty, net: NetId) -> Result<(), NoMemory>
    ensures { OnOk result (string_bytes text.new ≡ string_bytes text.old ++ indented (assign (net_name net) (part_name net (codes "p") ++ (codes "[" ++ (decimal (frac_of ty + width_of ty - 1) ++ (codes ":" ++ (decimal (frac_of ty) ++ codes "]"))))))) }
{
    let low = ty.frac();
    let high = low + ty.width() - 1;
    write!(text, "  assign n{net} = n{net}_p")?;
    writeln!(text, "[{high}:{low}];")
}

/// The exact product, and its bits from the point on.
pub fn push_product(
    text: &mut String,
    ty: Ty,
    net: NetId,
    a: NetId,
    b: NetId,
) -> Result<(), NoMemory>
    ensures { OnOk result (string_bytes text.new ≡ string_bytes text.old ++ lines_text (product ty net a b)) }
{
    push_extended(text, ty, net, "a", a)?;
    push_extended(text, ty, net, "b", b)?;
    push_wide_product(text, ty.width(), net)?;
    push_rounded_product(text, ty, net)
}

/// A net turned round in two's complement.
#[tactic(auto, unfolding(crate::specs::Pieces::negated))]
fn push_negated(text: &mut String, width: u8, a: NetId) -> Result<(), NoMemory>
    ensures { OnOk result (string_bytes text.new ≡ string_bytes text.old ++ negated width (net_name a)) }
{
    let one = Sized { width, word: 1 };
    write!(text, "~n{a} + {one}")
}

/// A part of a net turned round in two's complement.
#[tactic(auto, unfolding(crate::specs::Pieces::negated))]
fn push_negated_part(text: &mut String, width: u8, net: NetId, part: &str) -> Result<(), NoMemory>
    ensures { OnOk result (string_bytes text.new ≡ string_bytes text.old ++ negated width (part_name net part.now)) }
{
    let one = Sized { width, word: 1 };
    write!(text, "~n{net}_{part} + {one}")
}

/// The absolute value of an operand.
#[tactic(auto, unfolding(crate::specs::Pieces::choose))]
fn push_absolute(text: &mut String, ty: Ty, a: NetId) -> Result<(), NoMemory>
    ensures { OnOk result (string_bytes text.new ≡ string_bytes text.old ++ choose (sign ty a) (negated (width_of ty) (net_name a)) (net_name a)) }
{
    let first = Sign(ty, a);
    write!(text, "{first} ? ")?;
    push_negated(text, ty.width(), a)?;
    write!(text, " : n{a}")
}

/// The absolute value of an operand, under a name of its own.
#[tactic(auto, unfolding(crate::specs::Pieces::wire))]
fn push_magnitude(
    text: &mut String,
    ty: Ty,
    net: NetId,
    part: &str,
    a: NetId,
) -> Result<(), NoMemory>
    ensures { OnOk result (string_bytes text.new ≡ string_bytes text.old ++ indented (wire (width_of ty) (part_name net part.now) (choose (sign ty a) (negated (width_of ty) (net_name a)) (net_name a)))) }
{
    push_wire_head(text, Range(ty.width()), net, part)?;
    push_absolute(text, ty, a)?;
    text.push_str(";\n")
}

/// The absolute values of both operands.
fn push_magnitudes(
    text: &mut String,
    ty: Ty,
    net: NetId,
    a: NetId,
    b: NetId,
) -> Result<(), NoMemory>
    ensures { OnOk result (string_bytes text.new ≡ string_bytes text.old ++ lines_text (magnitudes ty net a b)) }
{
    push_magnitude(text, ty, net, "a", a)?;
    push_magnitude(text, ty, net, "b", b)
}

/// A part of a net at twice its width.
#[tactic(auto, unfolding(crate::specs::Computed::widened))]
fn push_widened(text: &mut String, width: u8, net: NetId, part: &str) -> Result<(), NoMemory>
    ensures { OnOk result (string_bytes text.new ≡ string_bytes text.old ++ widened width (part_name net part.now)) }
{
    let zero = Sized { width, word: 0 };
    write!(text, "{{{zero}, n{net}_{part}}}")
}

/// Whether a net is 0.
#[tactic(auto, unfolding(crate::specs::Computed::is_zero))]
fn push_zero_test(text: &mut String, width: u8, net: NetId) -> Result<(), NoMemory>
    ensures { OnOk result (string_bytes text.new ≡ string_bytes text.old ++ is_zero width net) }
{
    let zero = Sized { width, word: 0 };
    write!(text, "(n{net} == {zero})")
}

/// The first absolute value with its fraction bits doubled.
#[tactic(auto, unfolding(crate::specs::Pieces::wire))]
fn push_dividend(text: &mut String, ty: Ty, net: NetId) -> Result<(), NoMemory>
    ensures { OnOk result (string_bytes text.new ≡ string_bytes text.old ++ indented (wire (2 * width_of ty) (part_name net (codes "x")) (widened (width_of ty) (part_name net (codes "a")) ++ (codes " << 7'd" ++ decimal (frac_of ty))))) }
{
    let width = ty.width();
    let frac = ty.frac();
    push_wire_head(text, Range(2 * width), net, "x")?;
    push_widened(text, width, net, "a")?;
    writeln!(text, " << 7'd{frac};")
}

/// The quotient of the absolute values where the second isn't 0.
#[tactic(auto, unfolding(crate::specs::Pieces::choose))]
fn push_wide_choice(text: &mut String, width: u8, net: NetId, b: NetId) -> Result<(), NoMemory>
    requires { width ≤ 64 }
    ensures { OnOk result (string_bytes text.new ≡ string_bytes text.old ++ choose (is_zero width b) (sized (2 * width) 0) (part_name net (codes "x") ++ (codes " / " ++ widened width (part_name net (codes "b"))))) }
{
    let zero = Sized {
        width: 2 * width,
        word: 0,
    };
    push_zero_test(text, width, b)?;
    write!(text, " ? {zero} : ")?;
    write!(text, "n{net}_x / ")?;
    push_widened(text, width, net, "b")
}

/// The quotient of the absolute values, 0 where the second is 0.
#[tactic(auto, unfolding(crate::specs::Pieces::wire))]
fn push_wide_quotient(text: &mut String, ty: Ty, net: NetId, b: NetId) -> Result<(), NoMemory>
    ensures { OnOk result (string_bytes text.new ≡ string_bytes text.old ++ indented (wire (2 * width_of ty) (part_name net (codes "q")) (choose (is_zero (width_of ty) b) (sized (2 * width_of ty) 0) (part_name net (codes "x") ++ (codes " / " ++ widened (width_of ty) (part_name net (codes "b"))))))) }
{
    let width = ty.width();
    push_wire_head(text, Range(2 * width), net, "q")?;
    push_wide_choice(text, width, net, b)?;
    text.push_str(";\n")
}

/// Whether the signs of both operands differ.
#[tactic(auto, unfolding(crate::specs::Computed::is_negative))]
fn push_signs(text: &mut String, ty: Ty, a: NetId, b: NetId) -> Result<(), NoMemory>
    ensures { OnOk result (string_bytes text.new ≡ string_bytes text.old ++ is_negative ty a b) }
{
    let first = Sign(ty, a);
    let second = Sign(ty, b);
    write!(text, "({first} ^ {second})")
}

/// The lowest bits of the quotient.
#[tactic(auto, unfolding(crate::specs::Computed::low_part))]
fn push_low(text: &mut String, width: u8, net: NetId) -> Result<(), NoMemory>
    ensures { OnOk result (string_bytes text.new ≡ string_bytes text.old ++ low_part width net (codes "q")) }
{
    let bits = Range(width);
    write!(text, "n{net}_q{bits}")
}

/// The lowest bits of the quotient, turned round in two's complement.
#[tactic(auto, unfolding(crate::specs::Pieces::negated))]
fn push_negated_low(text: &mut String, width: u8, net: NetId) -> Result<(), NoMemory>
    ensures { OnOk result (string_bytes text.new ≡ string_bytes text.old ++ negated width (low_part width net (codes "q"))) }
{
    let one = Sized { width, word: 1 };
    text.push_str("~")?;
    push_low(text, width, net)?;
    write!(text, " + {one}")
}

/// The lowest bits of the quotient with the sign of both operands.
#[tactic(auto, unfolding(crate::specs::Pieces::choose))]
fn push_signed_choice(
    text: &mut String,
    ty: Ty,
    net: NetId,
    a: NetId,
    b: NetId,
) -> Result<(), NoMemory>
    ensures { OnOk result (string_bytes text.new ≡ string_bytes text.old ++ choose (is_negative ty a b) (negated (width_of ty) (low_part (width_of ty) net (codes "q"))) (low_part (width_of ty) net (codes "q"))) }
{
    push_signs(text, ty, a, b)?;
    text.push_str(" ? ")?;
    push_negated_low(text, ty.width(), net)?;
    text.push_str(" : ")?;
    push_low(text, ty.width(), net)
}

/// The quotient with the sign of both operands.
#[tactic(auto, unfolding(crate::specs::Pieces::assign))]
fn push_signed_quotient(
    text: &mut String,
    ty: Ty,
    net: NetId,
    a: NetId,
    b: NetId,
) -> Result<(), NoMemory>
    ensures { OnOk result (string_bytes text.new ≡ string_bytes text.old ++ indented (assign (net_name net) (choose (is_negative ty a b) (negated (width_of ty) (low_part (width_of ty) net (codes "q"))) (low_part (width_of ty) net (codes "q"))))) }
{
    write!(text, "  assign n{net} = ")?;
    push_signed_choice(text, ty, net, a, b)?;
    text.push_str(";\n")
}

/// The quotient of the absolute values, with the sign of both operands.
pub fn push_quotient(
    text: &mut String,
    ty: Ty,
    net: NetId,
    a: NetId,
    b: NetId,
) -> Result<(), NoMemory>
    ensures { OnOk result (string_bytes text.new ≡ string_bytes text.old ++ lines_text (quotient ty net a b)) }
{
    push_magnitudes(text, ty, net, a, b)?;
    push_dividend(text, ty, net)?;
    push_wide_quotient(text, ty, net, b)?;
    push_signed_quotient(text, ty, net, a, b)
}

/// What the quotient of the absolute values leaves where the second isn't 0, and else the first.
#[tactic(auto, unfolding(crate::specs::Pieces::choose))]
fn push_left_choice(text: &mut String, width: u8, net: NetId, b: NetId) -> Result<(), NoMemory>
    ensures { OnOk result (string_bytes text.new ≡ string_bytes text.old ++ choose (is_zero width b) (part_name net (codes "a")) (part_name net (codes "a") ++ (codes " % " ++ part_name net (codes "b")))) }
{
    push_zero_test(text, width, b)?;
    write!(text, " ? n{net}_a : ")?;
    write!(text, "n{net}_a % n{net}_b")
}

/// What the quotient of the absolute values leaves, the first where the second is 0.
#[tactic(auto, unfolding(crate::specs::Pieces::wire))]
fn push_wide_remainder(text: &mut String, ty: Ty, net: NetId, b: NetId) -> Result<(), NoMemory>
    ensures { OnOk result (string_bytes text.new ≡ string_bytes text.old ++ indented (wire (width_of ty) (part_name net (codes "r")) (choose (is_zero (width_of ty) b) (part_name net (codes "a")) (part_name net (codes "a") ++ (codes " % " ++ part_name net (codes "b")))))) }
{
    push_wire_head(text, Range(ty.width()), net, "r")?;
    push_left_choice(text, ty.width(), net, b)?;
    text.push_str(";\n")
}

/// What is left, with the sign of the first operand.
#[tactic(auto, unfolding(crate::specs::Pieces::choose))]
fn push_signed_rest(text: &mut String, ty: Ty, net: NetId, a: NetId) -> Result<(), NoMemory>
    ensures { OnOk result (string_bytes text.new ≡ string_bytes text.old ++ choose (sign ty a) (negated (width_of ty) (part_name net (codes "r"))) (part_name net (codes "r"))) }
{
    let first = Sign(ty, a);
    write!(text, "{first} ? ")?;
    push_negated_part(text, ty.width(), net, "r")?;
    write!(text, " : n{net}_r")
}

/// The remainder with the sign of the first operand.
#[tactic(auto, unfolding(crate::specs::Pieces::assign))]
fn push_signed_remainder(text: &mut String, ty: Ty, net: NetId, a: NetId) -> Result<(), NoMemory>
    ensures { OnOk result (string_bytes text.new ≡ string_bytes text.old ++ indented (assign (net_name net) (choose (sign ty a) (negated (width_of ty) (part_name net (codes "r"))) (part_name net (codes "r"))))) }
{
    write!(text, "  assign n{net} = ")?;
    push_signed_rest(text, ty, net, a)?;
    text.push_str(";\n")
}

/// What the quotient leaves, with the sign of the first operand.
pub fn push_remainder(
    text: &mut String,
    ty: Ty,
    net: NetId,
    a: NetId,
    b: NetId,
) -> Result<(), NoMemory>
    ensures { OnOk result (string_bytes text.new ≡ string_bytes text.old ++ lines_text (remainder ty net a b)) }
{
    push_magnitudes(text, ty, net, a, b)?;
    push_wide_remainder(text, ty, net, b)?;
    push_signed_remainder(text, ty, net, a)
}

/// The word in 128 bits.
#[tactic(auto, unfolding(crate::specs::Pieces::wire))]
fn push_widest(text: &mut String, net: NetId, from: Ty, a: NetId) -> Result<(), NoMemory>
    ensures { OnOk result (string_bytes text.new ≡ string_bytes text.old ++ indented (wire 128 (part_name net (codes "e")) (codes "{{" ++ (decimal (128 - width_of from) ++ (codes "{" ++ (sign from a ++ (codes "}}, " ++ (net_name a ++ codes "}")))))))) }
{
    let wide = Range(128);
    let above = 128 - from.width();
    let sign = Sign(from, a);
    push_wire_head(text, wide, net, "e")?;
    writeln!(text, "{{{{{above}{{{sign}}}}}, n{a}}};")
}

/// The word with its point moved.
#[tactic(auto, unfolding(crate::specs::Pieces::wire))]
fn push_moved(text: &mut String, net: NetId, from: u8, to: u8) -> Result<(), NoMemory>
    ensures { OnOk result (string_bytes text.new ≡ string_bytes text.old ++ indented (wire 128 (part_name net (codes "t")) (point_moved net from to))) }
{
    let wide = Range(128);
    push_wire_head(text, wide, net, "t")?;
    if from <= to {
        let places = to - from;
        writeln!(text, "n{net}_e << 7'd{places};")
    } else {
        let places = from - to;
        writeln!(text, "n{net}_e >> 7'd{places};")
    }
}

/// The lowest bits of the word with its point moved.
#[tactic(auto, unfolding(crate::specs::Pieces::assign, crate::specs::Computed::low_part))]
fn push_narrowed(text: &mut String, net: NetId, to: Ty) -> Result<(), NoMemory>
    ensures { OnOk result (string_bytes text.new ≡ string_bytes text.old ++ indented (assign (net_name net) (low_part (width_of to) net (codes "t")))) }
{
    let bits = Range(to.width());
    writeln!(text, "  assign n{net} = n{net}_t{bits};")
}

/// The word at another type: its point is moved in 128 bits.
pub fn push_cast(text: &mut String, net: NetId, from: Ty, to: Ty, a: NetId) -> Result<(), NoMemory>
    ensures { OnOk result (string_bytes text.new ≡ string_bytes text.old ++ lines_text (cast_lines net from to a)) }
{
    push_widest(text, net, from, a)?;
    push_moved(text, net, from.frac(), to.frac())?;
    push_narrowed(text, net, to)
}
