//! The netlist of a core whose memories are registers, arguments, outputs, SRAMs and FIFOs, by a valid plan: its loads (`loads_*`), its
//! stores and with them all transfers (`stores_*`), and its tree with the memories that the tree asks (`trees_*`).
#![tactic(auto)]

mod loads_emit;
mod loads_laws;
mod loads_part;
mod loads_write;
mod netlists;
mod sizes;
mod stores_emit;
mod stores_laws;
mod stores_part;
mod stores_read;
mod stores_stores;
mod stores_transfers;
mod trees_emit;

pub use netlists::lower;
pub use stores_laws::{
    drive_in_turn, driven_behind, fills_drive, reserves_alone, slices_are_of_units, slices_stay,
    stores_are_open, stores_read_srams, stores_stand, stores_stay, wires_are_apart,
};
pub use trees_emit::StoredTree;
