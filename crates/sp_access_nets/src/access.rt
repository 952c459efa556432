//! One access.
use sp_circuit_ops::WordNet;
use sp_core::OpKind;
use sp_netlist::NetId;

/// An access of an operation of the core, by the operation's number. It acts in each cycle in which `enable` is 1, with the words
/// that its operands have then, at the copy whose number is on `copy`, and at copy 0 where there is none. A read or a take is to be
/// answered on a net, so many cycles later.
#[derive(Debug, Drop)]
pub struct AccessNets {
    pub number: u32,
    pub kind: OpKind,
    pub mem: u32,
    pub enable: NetId,
    pub operands: Vec<NetId>,
    pub copy: Option<NetId>,
    pub answer: Option<WordNet>,
}
