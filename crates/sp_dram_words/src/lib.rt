//! Laws of the words of DRAMs over the timeline of a run: units store them, and loads find them.
#![tactic(auto)]

mod laws;
mod moves;
mod stores;

pub use laws::{
    drams_are_one, drams_end, drams_hold, drams_run, loads_find, loads_find_in_part,
    stores_write_in_whole, units_join, worked_dram,
};
pub use moves::{moves_are_items, timelines_are_acted, transfers_act, transfers_move_drams};
pub use stores::{loads_find_own, stores_are_in_time};
