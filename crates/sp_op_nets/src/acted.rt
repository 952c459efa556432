//! Operations as a circuit has them.
use sp_netlist::NetId;
use sp_pipe::PipeOp;

/// The operations of a list of the core as its circuit has them, by the number of the first one, and for each access in order the
/// net that enables it and behind it those of its operands.
#[derive(Debug, Drop)]
pub struct ActedList {
    pub number: u32,
    pub ops: Vec<PipeOp>,
    pub nets: Vec<NetId>,
}
