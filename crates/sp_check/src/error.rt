//! Why a tree gives no typed program.
ghost use Rattle.std.specs.Prelude.{◌≡◌, Some};
ghost use Rattle.sp_check.specs.declared.error.TypeError.TheVariants.{Memory};
ghost use Rattle.sp_check.specs.Refused.{of_refusal, of_over};
ghost use Rattle.sp_check.specs.Texts.{error_text};

use crate::texts::{CountName, FoundName, TypeName};
use sp_counts::{Over, Which};
use sp_types::{Found, Refusal, Rule};
use sp_words::Ty;
use std::alloc::AllocError;
use std::error::Error;
use std::fmt;

/// The refusal of a tree: the first place that breaks a rule of names and types, or the first count past its limit.
/// `at` is a byte of the text.
#[derive(Clone, Copy, Debug, PartialEq, Eq, Drop)]
pub enum TypeError {
    /// A name that isn't visible.
    UnknownName { at: u32 },
    /// A name that is given where it is visible already.
    Twice { at: u32 },
    /// An expression of one type where another is wanted.
    TypeClash { at: u32, want: Ty, got: Found },
    /// So many indices, spans, ranges or names are wanted, and so many are there.
    Rank { at: u32, want: u32, got: u32 },
    /// A name of a kind that can't be used so.
    Misused { at: u32 },
    /// Lanes where there can't be any.
    ParPlace { at: u32 },
    /// The count, or the greatest number of 64 bits where it is greater.
    Limit { which: Which, count: u64 },
    /// An allocation failed.
    Memory,
}

impl fmt::Display for TypeError {
    ghost output = { λ error. Some (error_text error) };

    fn fmt<W: fmt::Write>(&self, f: &mut fmt::Formatter<W>) -> fmt::Result {
        match self {
            TypeError::UnknownName { at } => write!(f, "unknown name at {at}"),
            TypeError::Twice { at } => write!(f, "name given twice at {at}"),
            TypeError::TypeClash { at, want, got } => {
                let want = TypeName(*want);
                let got = FoundName(*got);
                write!(f, "clash at {at}, want {want}, got {got}")
            }
            TypeError::Rank { at, want, got } => write!(f, "rank at {at}, want {want}, got {got}"),
            TypeError::Misused { at } => write!(f, "misused at {at}"),
            TypeError::ParPlace { at } => write!(f, "par place at {at}"),
            TypeError::Limit { which, count } => {
                let which = CountName(*which);
                write!(f, "{which} {count}")
            }
            TypeError::Memory => write!(f, "out of memory"),
        }
    }
}

impl Error for TypeError {}

impl From<AllocError> for TypeError {
    ghost from_gives = { λ _ e. e ≡ Memory };

    fn from(_: AllocError) -> TypeError {
        TypeError::Memory
    }
}

impl From<Refusal> for TypeError {
    ghost from_gives = { λ refusal e. e ≡ of_refusal refusal };

    fn from(refusal: Refusal) -> TypeError {
        let at = refusal.at;
        match refusal.rule {
            Rule::UnknownName => TypeError::UnknownName { at },
            Rule::Twice => TypeError::Twice { at },
            Rule::Misused => TypeError::Misused { at },
            Rule::Rank { want, got } => TypeError::Rank { at, want, got },
            Rule::TypeClash { want, got } => TypeError::TypeClash { at, want, got },
            Rule::ParPlace => TypeError::ParPlace { at },
        }
    }
}

impl From<Over> for TypeError {
    ghost from_gives = { λ over e. e ≡ of_over over };

    fn from(over: Over) -> TypeError {
        TypeError::Limit {
            which: over.which,
            count: over.count,
        }
    }
}
