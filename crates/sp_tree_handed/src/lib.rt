//! What the circuit of a tree hands on besides its start and its end: the nets by which its loops turn, its FSMs keep their
//! states and its transfers are started, and how lists of operations stand in a draft.
#![tactic(auto)]

mod moves;
mod owners;
mod slots;
mod transfers;

pub use moves::{Direction, TreeMove};
pub use owners::{Keeping, LoopTurns, OwnerNets, Renewal, TreeOwners};
pub use slots::{first_slot, stage_slots};
pub use transfers::CoreTransfer;
