//! The words that the circuits of registers, arguments and queues hold and give, over the timeline of a core's run.
#![tactic(auto)]

mod laws;

pub use laws::{
    accesses_ask, arguments_answer, contents_begin, operations_stay, queues_go, registers_answer,
    registers_hold, runs_happen_well, worked_words,
};
