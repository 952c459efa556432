//! Why a text isn't the listing of a netlist.
ghost use Rattle.std.specs.Prelude.{◌≡◌, Some};
ghost use Rattle.sp_listing.specs.declared.error.ListError.TheVariants.{Memory};
ghost use Rattle.sp_listing.specs.Refusal.{refusal_of};
ghost use Rattle.sp_listing.specs.Texts.{list_error_text};

use crate::NoMemory;
use sp_netlist::NetError;
use std::error::Error;
use std::fmt;

/// The refusal of a text.
#[derive(Clone, Copy, Debug, PartialEq, Eq, Drop)]
pub enum ListError {
    /// The first line that breaks a rule of listings, counted from 1.
    NoListing { line: u32 },
    /// Each line is right, but the cells are no netlist.
    Net(NetError),
    /// An allocation failed.
    Memory,
}

impl fmt::Display for ListError {
    ghost output = { λ error. Some (list_error_text error) };

    fn fmt<W: fmt::Write>(&self, f: &mut fmt::Formatter<W>) -> fmt::Result {
        match self {
            ListError::NoListing { line } => write!(f, "no listing at line {line}"),
            ListError::Net(fault) => write!(f, "{fault}"),
            ListError::Memory => write!(f, "out of memory"),
        }
    }
}

impl Error for ListError {}

impl From<NoMemory> for ListError {
    ghost from_gives = { λ _ e. e ≡ Memory };

    fn from(_: NoMemory) -> ListError {
        ListError::Memory
    }
}

/// Want of memory is one refusal, wherever it comes from.
impl From<NetError> for ListError {
    ghost from_gives = { λ fault e. e ≡ refusal_of fault };

    fn from(fault: NetError) -> ListError {
        match fault {
            NetError::Memory => ListError::Memory,
            _ => ListError::Net(fault),
        }
    }
}
