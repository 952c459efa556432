//! Laws of loads and stores over all of their runs, in the cycles of the timeline.
#![tactic(auto)]

mod laws;

pub use laws::{
    channels_answer, delays_are_chosen, delays_are_there, loads_move, loads_work, slices_are_taken,
    slices_are_words, stores_move, stores_work, transfers_move_all, worked_transfers,
};
