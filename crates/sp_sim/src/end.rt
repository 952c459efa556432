//! How a simulation ends, and why one isn't begun.

ghost use Rattle.std.specs.Prelude.{◌≡◌, Some};
ghost use Rattle.sp_sim.specs.declared.end.SimLoad.TheVariants.{Memory};
ghost use Rattle.sp_sim.specs.Texts.{load_text};

use crate::NoMemory;
use sp_netlist::Port;
use std::error::Error;
use std::fmt;

/// Why a simulation isn't begun.
#[derive(Clone, Copy, Debug, PartialEq, Eq, Drop)]
pub enum SimLoad {
    /// The input doesn't fit the netlist. This is the first port that shows it: arguments are numbered from 0, then
    /// DRAMs; too many arguments are shown at the number of arguments, and too many DRAMs at the number of all.
    InputShape { which: u64 },
    /// An allocation failed.
    Memory,
}

impl fmt::Display for SimLoad {
    ghost output = { λ error. Some (load_text error) };

    fn fmt<W: fmt::Write>(&self, f: &mut fmt::Formatter<W>) -> fmt::Result {
        match self {
            SimLoad::InputShape { which } => write!(f, "the input does not fit port {which}"),
            SimLoad::Memory => write!(f, "out of memory"),
        }
    }
}

impl Error for SimLoad {}

impl From<NoMemory> for SimLoad {
    ghost from_gives = { λ _ e. e ≡ Memory };

    fn from(_: NoMemory) -> SimLoad {
        SimLoad::Memory
    }
}

/// How a run ends.
#[derive(Clone, Copy, Debug, PartialEq, Eq)]
pub enum SimEnd {
    /// The done net is 1 in the cycle of that number.
    Done { cycles: u64 },
    /// In that cycle two enabled taps stand on a port of the bank: the least such bank, read before write.
    Conflict { cycle: u64, bank: u64, port: Port },
    /// Neither within the cycles that were asked for.
    CyclesSpent,
}
