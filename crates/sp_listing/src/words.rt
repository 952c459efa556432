//! The words of a listing's line that aren't names or numbers.
ghost use Rattle.std.specs.Prelude.{Some, map, decimal};
ghost use Rattle.sp_listing.specs.Text.{type_text, op_text, shift_text, spaced};

use sp_netlist::{CellOp, CellShift};
use sp_words::Ty;
use std::fmt;

/// The code of a type.
#[derive(Clone, Copy)]
pub struct TypeCode(pub Ty);

impl fmt::Display for TypeCode {
    ghost output = { λ code. Some (type_text code.0) };

    fn fmt<W: fmt::Write>(&self, f: &mut fmt::Formatter<W>) -> fmt::Result {
        match self.0 {
            Ty::Fix(fix) => {
                let sign = if fix.signed() { 's' } else { 'u' };
                let whole = fix.whole();
                let frac = fix.frac();
                write!(f, "{sign}{whole}.{frac}")
            }
            Ty::Bit => write!(f, "bit"),
        }
    }
}

/// The word of an operator.
#[derive(Clone, Copy)]
pub struct OpWord(pub CellOp);

impl fmt::Display for OpWord {
    ghost output = { λ word. Some (op_text word.0) };

    fn fmt<W: fmt::Write>(&self, f: &mut fmt::Formatter<W>) -> fmt::Result {
        let word = match self.0 {
            CellOp::Add => "add",
            CellOp::Sub => "sub",
            CellOp::Mul => "mul",
            CellOp::Div => "div",
            CellOp::Rem => "rem",
            CellOp::And => "and",
            CellOp::Or => "or",
            CellOp::Xor => "xor",
            CellOp::Min => "min",
            CellOp::Max => "max",
            CellOp::Lt => "lt",
            CellOp::Eq => "eq",
        };
        write!(f, "{word}")
    }
}

/// The word of a shift's direction.
#[derive(Clone, Copy)]
pub struct ShiftWord(pub CellShift);

impl fmt::Display for ShiftWord {
    ghost output = { λ word. Some (shift_text word.0) };

    fn fmt<W: fmt::Write>(&self, f: &mut fmt::Formatter<W>) -> fmt::Result {
        match self.0 {
            CellShift::Shl => write!(f, "shl"),
            CellShift::Shr => write!(f, "shr"),
        }
    }
}

/// Dimensions, each with a blank before it.
#[derive(Clone, Copy)]
pub struct Dimensions<'a>(pub &'a [u32]);

impl fmt::Display for Dimensions<'_> {
    ghost output = { λ dims. Some (spaced (map decimal dims.0.now)) };

    fn fmt<W: fmt::Write>(&self, f: &mut fmt::Formatter<W>) -> fmt::Result {
        for dim in self.0 {
            write!(f, " {dim}")?;
        }
        Ok(())
    }
}

/// Numbers, each with a blank before it.
#[derive(Clone, Copy)]
pub struct Numbers<'a>(pub &'a [u64]);

impl fmt::Display for Numbers<'_> {
    ghost output = { λ numbers. Some (spaced (map decimal numbers.0.now)) };

    fn fmt<W: fmt::Write>(&self, f: &mut fmt::Formatter<W>) -> fmt::Result {
        for number in self.0 {
            write!(f, " {number}")?;
        }
        Ok(())
    }
}
