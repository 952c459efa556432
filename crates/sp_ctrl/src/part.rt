//! What control is made from.
use sp_netlist::{Child, NetId};

/// What is run around other parts. A child's start is driven by the part; a child is done in the cycle in which its done is
/// 1, and `tested` has the word of a test where the test is done.
#[derive(Clone, Copy, Debug, PartialEq, Eq)]
pub enum Part {
    /// The first child is run, and then the test; where it gives 1 the body, the next child and the test again.
    Fsm {
        start: NetId,
        first: Child,
        test: Child,
        tested: NetId,
        body: Child,
        next: Child,
    },
    /// The test is run, and then the one child where it gives 1, else the other.
    Branch {
        start: NetId,
        test: Child,
        tested: NetId,
        yes: Child,
        no: Child,
    },
}
