//! Which operations have forms.
ghost use Rattle.std.specs.Prelude.{◌≡◌};
ghost use Rattle.sp_patterns.specs.Forms.{shape_of, one_shape, two_shape};

use sp_core::OpKind;
use sp_words::{BinOp, UnOp};

/// An operation by what its form is made of.
#[derive(Clone, Copy, Debug)]
pub enum Shape {
    Literal(u64),
    Counter(u32, u32),
    Symbol,
    Opposite,
    Sum,
    Difference,
    Product,
    Other,
}

/// The shape of an operation.
pub fn shape_of(kind: OpKind) -> Shape
    ensures { result ≡ shape_of kind }
{
    match kind {
        OpKind::Word(w) => Shape::Literal(w),
        OpKind::Count(c, lane) => Shape::Counter(c, lane),
        OpKind::Read => Shape::Symbol,
        OpKind::One(op) => one_shape(op),
        OpKind::Two(op) => two_shape(op),
        OpKind::Live(_, _, _) => Shape::Other,
        OpKind::Write => Shape::Other,
        OpKind::Enq => Shape::Other,
        OpKind::Deq => Shape::Other,
        OpKind::Reset => Shape::Other,
        OpKind::Shift(_, _) => Shape::Other,
        OpKind::Mux => Shape::Other,
        OpKind::Cast(_) => Shape::Other,
    }
}

fn one_shape(op: UnOp) -> Shape
    ensures { result ≡ one_shape op }
{
    match op {
        UnOp::Neg => Shape::Opposite,
        UnOp::Not => Shape::Other,
    }
}

fn two_shape(op: BinOp) -> Shape
    ensures { result ≡ two_shape op }
{
    match op {
        BinOp::Add => Shape::Sum,
        BinOp::Sub => Shape::Difference,
        BinOp::Mul => Shape::Product,
        BinOp::Div => Shape::Other,
        BinOp::Rem => Shape::Other,
        BinOp::And => Shape::Other,
        BinOp::Or => Shape::Other,
        BinOp::Xor => Shape::Other,
        BinOp::Lt => Shape::Other,
        BinOp::Le => Shape::Other,
        BinOp::Gt => Shape::Other,
        BinOp::Ge => Shape::Other,
        BinOp::Eq => Shape::Other,
        BinOp::Ne => Shape::Other,
        BinOp::Min => Shape::Other,
        BinOp::Max => Shape::Other,
    }
}
