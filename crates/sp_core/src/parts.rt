//! The parts of which a core is to be made, and what stands around a node.

ghost use Rattle.std.specs.Prelude.{◌≡◌, map, length, nat_lt, ◌&&◌, ◌||◌};
ghost use Rattle.sp_core.specs.Around.{lanes_of, has_lane, is_port_kind, is_usable};
ghost use Rattle.sp_core.specs.Declarations.{mem, is_among};
ghost use Rattle.sp_core.specs.PartsPlain.{core_of, near_of, around_of};
ghost use Rattle.sp_core.specs.Plain.{plain_counter};
ghost use Rattle.sp_core.specs.Typed.{index_count};

use crate::memory::CoreMem;
use crate::node::{CoreCounter, Node};
use sp_words::{Kind, Ports, Ty};

/// What is to be a core.
#[derive(Debug, Drop)]
pub(crate) struct Parts {
    pub(crate) mems: Vec<CoreMem>,
    pub(crate) ports: Ports,
    pub(crate) root: Node,
}

/// A counter, with the lanes of its controller.
#[derive(Clone, Copy, Debug)]
pub(crate) struct Near {
    pub(crate) number: u32,
    pub(crate) lanes: u32,
}

/// The counters of the controllers around, innermost first, and the memories that nodes around own.
#[derive(Debug, Drop)]
pub(crate) struct Around {
    pub(crate) counters: Vec<Near>,
    pub(crate) owned: Vec<u32>,
}

impl Parts {
    /// The kind of a memory; a register where there is none of that number.
    pub(crate) fn kind(&self, m: u32) -> Kind
        ensures { result ≡ (mem (core_of self.now) m).kind }
    {
        match self.mems.get(m as usize) {
            Some(mem) => mem.kind,
            None => Kind::Reg,
        }
    }

    /// The type of its words.
    pub(crate) fn ty(&self, m: u32) -> Ty
        ensures { result ≡ (mem (core_of self.now) m).ty }
    {
        match self.mems.get(m as usize) {
            Some(mem) => mem.ty,
            None => Ty::Bit,
        }
    }

    /// How many dimensions it has.
    pub(crate) fn rank(&self, m: u32) -> usize
        ensures { result ≡ length (mem (core_of self.now) m).dims }
    {
        match self.mems.get(m as usize) {
            Some(mem) => mem.dims.len(),
            None => 0,
        }
    }

    /// The word that it begins with.
    pub(crate) fn start(&self, m: u32) -> Option<u64>
        ensures { result ≡ (mem (core_of self.now) m).start }
    {
        match self.mems.get(m as usize) {
            Some(mem) => mem.start,
            None => None,
        }
    }

    /// How many indices an access to it has.
    pub(crate) fn index_count(&self, m: u32) -> usize
        ensures { result ≡ index_count (mem (core_of self.now) m) }
    {
        match self.kind(m) {
            Kind::Sram => self.rank(m),
            Kind::LineBuf => self.rank(m),
            _ => 0,
        }
    }

    /// Whether it exists and may be used here.
    pub(crate) fn is_usable(&self, around: &Around, m: u32) -> bool
        ensures { result ≡ is_usable (core_of self.now) (around_of around.now) m }
    {
        (m as usize) < self.mems.len() && (is_port_kind(self.kind(m)) || is_among(m, &around.owned))
    }
}

/// Arguments and outputs have no owner.
pub(crate) fn is_port_kind(kind: Kind) -> bool
    ensures { result ≡ is_port_kind kind }
{
    match kind {
        Kind::ArgIn => true,
        Kind::ArgOut => true,
        _ => false,
    }
}

pub(crate) fn is_among(n: u32, numbers: &[u32]) -> bool
    ensures { result ≡ is_among n numbers.now }
{
    for m in numbers {
        if n == *m {
            return true;
        }
    }
    false
}

/// The lanes of a controller.
pub(crate) fn lanes_of(counters: &[CoreCounter]) -> u32
    ensures { result ≡ lanes_of (map plain_counter counters.now) }
{
    match counters.last() {
        Some(counter) => counter.par,
        None => 1,
    }
}

/// Whether a counter is around, and its controller has more lanes than this.
pub(crate) fn has_lane(counters: &[Near], counter: u32, lane: u32) -> bool
    ensures { result ≡ has_lane (map near_of counters.now) counter lane }
{
    for near in counters {
        if near.number == counter {
            return lane < near.lanes;
        }
    }
    false
}
