//! The names of types and of counts, as they are displayed.
ghost use Rattle.std.specs.Prelude.{◌≡◌, Some};
ghost use Rattle.sp_check.specs.Texts.{is_int, type_text, found_text, count_text};

use sp_counts::Which;
use sp_types::Found;
use sp_words::{FixTy, Ty};
use std::fmt;

fn is_int(fix: FixTy) -> bool
    ensures { result ≡ is_int fix }
{
    fix.signed() && (fix.whole() == 32 && fix.frac() == 0)
}

/// A type, as a program's text names it.
#[derive(Clone, Copy)]
pub(crate) struct TypeName(pub Ty);

impl fmt::Display for TypeName {
    ghost output = { λ name. Some (type_text name.0) };

    fn fmt<W: fmt::Write>(&self, f: &mut fmt::Formatter<W>) -> fmt::Result {
        let Ty::Fix(fix) = self.0 else {
            return write!(f, "Bit");
        };
        if is_int(fix) {
            return write!(f, "Int");
        }
        let sign = if fix.signed() { "TRUE" } else { "FALSE" };
        let whole = fix.whole();
        let frac = fix.frac();
        write!(f, "FixPt[{sign},_{whole},_{frac}]")
    }
}

/// What stands where a type is wanted.
#[derive(Clone, Copy)]
pub(crate) struct FoundName(pub Found);

impl fmt::Display for FoundName {
    ghost output = { λ name. Some (found_text name.0) };

    fn fmt<W: fmt::Write>(&self, f: &mut fmt::Formatter<W>) -> fmt::Result {
        match self.0 {
            Found::Typed(ty) => {
                let ty = TypeName(ty);
                write!(f, "{ty}")
            }
            Found::Literal => write!(f, "literal"),
        }
    }
}

/// A count of a program.
#[derive(Clone, Copy)]
pub(crate) struct CountName(pub Which);

impl fmt::Display for CountName {
    ghost output = { λ name. Some (count_text name.0) };

    fn fmt<W: fmt::Write>(&self, f: &mut fmt::Formatter<W>) -> fmt::Result {
        match self.0 {
            Which::Nodes => write!(f, "nodes"),
            Which::Lanes => write!(f, "lanes"),
            Which::Body => write!(f, "body"),
            Which::Operations => write!(f, "operations"),
            Which::Words => write!(f, "words"),
            Which::Copies => write!(f, "copies"),
            Which::Dram => write!(f, "dram"),
        }
    }
}
