//! How a call ends.

use sp_check::TypeError;
use sp_listing::ListError;
use sp_netlist::Port;
use sp_setup::SetupError;
use sp_source::SourceError;
use sp_tree::FaultKind;

/// One of the two sinks.
#[derive(Clone, Copy, Debug, PartialEq, Eq)]
pub enum SinkName {
    Out,
    Aside,
}

/// How a call ends. Each has a number, with which the program ends, and all but `Done` and `WriteFault` a
/// line that was put on `out`.
#[derive(Debug, Drop)]
pub enum Status {
    /// The whole output was taken.
    Done,
    /// The words are in no row of the command table.
    Words,
    /// The setup gives no input.
    Setup(SetupError),
    /// The program stops at this fault, at this byte of its text.
    Fault { kind: FaultKind, at: u32 },
    /// The setup's turns passed without an end of the program.
    TurnsSpent { turns: u64 },
    /// A name could not be read.
    ReadFault,
    /// The sink did not take the text that was put to it.
    WriteFault { which: SinkName },
    /// Memory ran out.
    Memory,
    /// The listing is none of a netlist. The error is never want of memory.
    Listing(ListError),
    /// In this cycle two enabled taps stand on the port of the bank.
    Conflict { cycle: u64, bank: u64, port: Port },
    /// The setup's cycles passed without an end.
    CyclesSpent { cycles: u64 },
    /// What stands under the name is longer than is read.
    TooLong { name: String },
    /// The program is one that can't be built so far; its block begins at this line of its canonical text, counted from 1.
    Unbuilt { line: u64 },
    /// The text spells no program. The error is never want of memory.
    Source(SourceError),
}

impl Status {
    ghost use Rattle.std.specs.Prelude.{◌≡◌};
    ghost use Rattle.sp_top.specs.Status.{plain_status, number_of};

    /// The number with which the program ends.
    pub fn number(&self) -> u8
        ensures { result ≡ number_of (plain_status self.now) }
    {
        match self {
            Status::Done => 0,
            Status::Words => 2,
            Status::Setup(_) => 5,
            Status::Fault { kind: _, at: _ } => 6,
            Status::TurnsSpent { turns: _ } => 7,
            Status::ReadFault => 8,
            Status::WriteFault { which: _ } => 9,
            Status::Memory => 10,
            Status::Listing(_) => 11,
            Status::Conflict {
                cycle: _,
                bank: _,
                port: _,
            } => 12,
            Status::CyclesSpent { cycles: _ } => 13,
            Status::TooLong { name: _ } => 14,
            Status::Unbuilt { line: _ } => 15,
            Status::Source(SourceError::Read(_)) => 1,
            Status::Source(SourceError::Types(TypeError::Limit { which: _, count: _ })) => 4,
            Status::Source(SourceError::Types(_)) => 3,
            Status::Source(SourceError::Memory) => 10,
        }
    }
}
