//! The cells of a netlist.

ghost use Rattle.std.specs.Prelude.{Some, decimal};

use sp_words::Ty;
use std::fmt;
use std::marker::Model;

/// The number of a net.
#[derive(Clone, Copy, Debug, PartialEq, Eq, PartialOrd, Ord, Hash)]
pub struct NetId(u64);

impl Model for NetId {
    ghost use Rattle.std.specs.Prelude.{ℕ};

    ghost Value = { ℕ };

    ghost view = { λ net. net.0 };

    ghost inverse = { λ number. record { 0 = number } };
}

impl NetId {
    ghost use Rattle.std.specs.Prelude.{◌≡◌};

    /// The net of that number.
    pub fn new(number: u64) -> NetId
        ensures { result ≡ number }
    {
        NetId(number)
    }

    /// Its number.
    pub fn number(&self) -> u64
        ensures { result ≡ self.now }
    {
        self.0
    }
}

/// Prints the number.
impl fmt::Display for NetId {
    ghost output = { λ net. Some (decimal net) };

    fn fmt<W: fmt::Write>(&self, f: &mut fmt::Formatter<W>) -> fmt::Result {
        let number = self.number();
        write!(f, "{number}")
    }
}

/// An operator of two words. `Lt` and `Eq` give a bit.
#[derive(Clone, Copy, Debug, PartialEq, Eq, Hash)]
pub enum CellOp {
    Add,
    Sub,
    Mul,
    Div,
    Rem,
    And,
    Or,
    Xor,
    Min,
    Max,
    Lt,
    Eq,
}

/// The direction of a shift.
#[derive(Clone, Copy, Debug, PartialEq, Eq, Hash)]
pub enum CellShift {
    Shl,
    Shr,
}

/// One of the two ports of a bank.
#[derive(Clone, Copy, Debug, PartialEq, Eq, Hash)]
pub enum Port {
    Read,
    Write,
}

/// A cell. The fields stand in the order of a listing's line; `docs/netlists.md` says what each does.
#[derive(Clone, Debug, PartialEq, Eq, Drop)]
pub enum Cell {
    /// Name, net, type: the net is the argument.
    In(String, NetId, Ty),
    /// Name, net, type: the result is the net.
    Out(String, NetId, Ty),
    /// The net that tells that the run is over.
    Done(NetId),
    /// Net, width, word.
    Const(NetId, u8, u64),
    /// Net, type of the operands, operator, operands.
    Op(NetId, Ty, CellOp, NetId, NetId),
    /// Net, type, operand: all bits turned.
    Not(NetId, Ty, NetId),
    /// Net, type, direction, operand, number of places.
    Shift(NetId, Ty, CellShift, NetId, u8),
    /// Net, type of the operand, type of the net, operand.
    Cast(NetId, Ty, Ty, NetId),
    /// Net, width, choice, operand where the choice is 1, operand where it is 0.
    Mux(NetId, u8, NetId, NetId, NetId),
    /// Net, width, first word, next word, enable: a register.
    Hold(NetId, u8, u64, NetId, NetId),
    /// Number, width of a word, number of words.
    Bank(u64, u8, u32),
    /// Net, bank, enable, address.
    ReadTap(NetId, u64, NetId, NetId),
    /// Bank, enable, address, word.
    WriteTap(u64, NetId, NetId, NetId),
    /// Number, name, type, dimensions.
    Dram(u32, String, Ty, Vec<u32>),
    /// Channel, DRAM, ready, net, request, last, address.
    LoadUnit(u64, u32, NetId, NetId, NetId, NetId, NetId),
    /// Channel, DRAM, ready, request, last, address, word.
    StoreUnit(u64, u32, NetId, NetId, NetId, NetId, NetId),
}
