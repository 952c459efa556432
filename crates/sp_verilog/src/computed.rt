//! The lines of the cells that compute.

ghost use Rattle.std.specs.Prelude.{◌≡◌, ◌++◌, ◌∷◌, [], IsTrue, OnOk, string_bytes};
ghost use Rattle.sp_netlist.specs.declared.cell.CellShift.TheVariants.{Shr};
ghost use Rattle.sp_words.specs.Types.{signed_of};
ghost use Rattle.sp_verilog.specs.Computed.{operation, selection, op_lines, shift_lines};
ghost use Rattle.sp_verilog.specs.Pieces.{assign, net_name, less};
ghost use Rattle.sp_verilog.specs.Text.{lines_text};

use crate::NoMemory;
use crate::arithmetic::{push_product, push_quotient, push_remainder};
use crate::pieces::{Less, Sign, Sized, top_ones};
use sp_netlist::{CellOp, CellShift, NetId};
use sp_words::Ty;
use std::fmt::Write;

/// Two nets with a sign between them.
#[tactic(auto, unfolding(crate::specs::Pieces::assign))]
fn push_operation(
    text: &mut String,
    net: NetId,
    a: NetId,
    sign: &str,
    b: NetId,
) -> Result<(), NoMemory>
    ensures { OnOk result (string_bytes text.new ≡ string_bytes text.old ++ lines_text (operation net a sign.now b)) }
{
    writeln!(text, "  assign n{net} = n{a} {sign} n{b};")
}

/// One of two nets, as `a` is less than `b` or not.
#[tactic(auto, unfolding(crate::specs::Pieces::assign, crate::specs::Pieces::choose))]
fn push_selection(
    text: &mut String,
    net: NetId,
    order: Less,
    lesser: NetId,
    other: NetId,
) -> Result<(), NoMemory>
    ensures { OnOk result (string_bytes text.new ≡ string_bytes text.old ++ lines_text (selection order.0 net order.1 order.2 lesser other)) }
{
    writeln!(text, "  assign n{net} = ({order}) ? n{lesser} : n{other};")
}

#[tactic(auto, unfolding(crate::specs::Pieces::assign))]
fn push_comparison(text: &mut String, net: NetId, order: Less) -> Result<(), NoMemory>
    ensures { OnOk result (string_bytes text.new ≡ string_bytes text.old ++ lines_text (assign (net_name net) (less order.0 order.1 order.2) ∷ [])) }
{
    writeln!(text, "  assign n{net} = {order};")
}

/// Appends the lines of an operator of two words.
pub fn push_op(
    text: &mut String,
    net: NetId,
    ty: Ty,
    op: CellOp,
    a: NetId,
    b: NetId,
) -> Result<(), NoMemory>
    ensures { OnOk result (string_bytes text.new ≡ string_bytes text.old ++ lines_text (op_lines net ty op a b)) }
{
    match op {
        CellOp::Add => push_operation(text, net, a, "+", b),
        CellOp::Sub => push_operation(text, net, a, "-", b),
        CellOp::Mul => push_product(text, ty, net, a, b),
        CellOp::Div => push_quotient(text, ty, net, a, b),
        CellOp::Rem => push_remainder(text, ty, net, a, b),
        CellOp::And => push_operation(text, net, a, "&", b),
        CellOp::Or => push_operation(text, net, a, "|", b),
        CellOp::Xor => push_operation(text, net, a, "^", b),
        CellOp::Min => push_selection(text, net, Less(ty, a, b), a, b),
        CellOp::Max => push_selection(text, net, Less(ty, a, b), b, a),
        CellOp::Lt => push_comparison(text, net, Less(ty, a, b)),
        CellOp::Eq => push_operation(text, net, a, "==", b),
    }
}

/// A shift to the right that is filled with the sign bit.
#[tactic(auto, unfolding(crate::specs::Pieces::assign, crate::specs::Pieces::choose))]
fn push_signed_shift(
    text: &mut String,
    net: NetId,
    ty: Ty,
    a: NetId,
    places: u8,
) -> Result<(), NoMemory>
    requires { IsTrue (signed_of ty) }
    ensures { OnOk result (string_bytes text.new ≡ string_bytes text.old ++ lines_text (shift_lines net ty Shr a places)) }
{
    let width = ty.width();
    let sign = Sign(ty, a);
    let fill = Sized {
        width,
        word: top_ones(width, places),
    };
    let zero = Sized { width, word: 0 };
    writeln!(
        text,
        "  assign n{net} = (n{a} >> 6'd{places}) | ({sign} ? {fill} : {zero});"
    )
}

/// Appends the line of a shift.
#[tactic(auto, unfolding(crate::specs::Pieces::assign))]
pub fn push_shift(
    text: &mut String,
    net: NetId,
    ty: Ty,
    side: CellShift,
    a: NetId,
    places: u8,
) -> Result<(), NoMemory>
    ensures { OnOk result (string_bytes text.new ≡ string_bytes text.old ++ lines_text (shift_lines net ty side a places)) }
{
    match side {
        CellShift::Shl => writeln!(text, "  assign n{net} = n{a} << 6'd{places};"),
        CellShift::Shr if ty.signed() => push_signed_shift(text, net, ty, a, places),
        CellShift::Shr => writeln!(text, "  assign n{net} = n{a} >> 6'd{places};"),
    }
}
