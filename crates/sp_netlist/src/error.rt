//! Why a list of cells isn't a netlist within the limits.
ghost use Rattle.std.specs.Prelude.{◌≡◌, Some};
ghost use Rattle.sp_netlist.specs.declared.error.NetError.TheVariants.{Memory};
ghost use Rattle.sp_netlist.specs.Texts.{error_text};

use crate::NoMemory;
use std::error::Error;
use std::fmt;

/// The refusal of a list of cells, each with the least net that has the fault.
#[derive(Clone, Copy, Debug, PartialEq, Eq, Drop)]
pub enum NetError {
    /// The net is driven or read, but not driven exactly once.
    Driven { net: u64 },
    /// The net is read at another width than its driver gives it.
    Width { net: u64 },
    /// The net is computed from itself.
    Loop { net: u64 },
    /// The first of the counts of cells, bank words and DRAM words that passes its limit, or `u64::MAX` where that count
    /// is greater.
    NetLimit { count: u64 },
    /// An allocation failed.
    Memory,
}

impl fmt::Display for NetError {
    ghost output = { λ error. Some (error_text error) };

    fn fmt<W: fmt::Write>(&self, f: &mut fmt::Formatter<W>) -> fmt::Result {
        match self {
            NetError::Driven { net } => write!(f, "net {net} is not driven once"),
            NetError::Width { net } => write!(f, "width of net {net}"),
            NetError::Loop { net } => write!(f, "loop through net {net}"),
            NetError::NetLimit { count } => write!(f, "limit {count}"),
            NetError::Memory => write!(f, "out of memory"),
        }
    }
}

impl Error for NetError {}

impl From<NoMemory> for NetError {
    ghost from_gives = { λ _ e. e ≡ Memory };

    fn from(_: NoMemory) -> NetError {
        NetError::Memory
    }
}
