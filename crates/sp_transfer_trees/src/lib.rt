//! Laws of the transfers of a tree of nodes over all runs of its root: with the delays that their channels take, loads go as the
//! timeline says.
#![tactic(auto)]

mod laws;

pub use laws::{cores_transfer, going_is_moving, transfers_agree, trees_transfer};
