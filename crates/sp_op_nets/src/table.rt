//! The nets of the counters around, in the order of their numbers.
use sp_netlist::NetId;

/// Of a counter: the net of its value, how much more it is from one lane to the next, and for each lane a net that is 1 where it
/// has an iteration.
#[derive(Debug, Drop)]
pub struct AroundNets {
    pub value: NetId,
    pub step: u32,
    pub masks: Vec<NetId>,
}
