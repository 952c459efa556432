//! The typed program that a tree without refusals spells.
#![tactic(auto)]

mod control;
mod declare;
mod examples;
mod expression;
mod laws;
mod literal;
mod program;
mod scope;
mod simple;
mod span;
mod statement;
mod types;

pub use examples::{worked_expressions, worked_numbers, worked_programs};
pub use laws::{
    counters_are_typed, declarations_are_numbered, declarations_are_right, expressions_are_typed,
    spans_are_typed, still_expressions_take_no_word,
};
pub use literal::{number_word, truth_word};
pub use program::typed_block;
pub use std::alloc::AllocError as NoMemory;
pub use types::{known, type_of};
