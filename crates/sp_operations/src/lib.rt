//! The operations of a core for the expressions, runs of statements and combinations of a program.
#![tactic(auto)]

mod combination;
mod elements;
mod expressions;
mod numbers;
mod operations;
mod runs;
mod sources;

pub use combination::{push_fold, push_reduce};
pub use elements::element_loop;
pub use expressions::{push_code, word_list};
pub use numbers::{
    begun_register, crossing_register, dram_number, mem_number, push_written, state_register,
};
pub use operations::{next_place, push_op, read_op, write_op};
pub use runs::{Run, add_code, add_inner, add_op, add_stmt, no_run};
pub use sources::{Source, set_source};
pub use std::alloc::AllocError as NoMemory;
