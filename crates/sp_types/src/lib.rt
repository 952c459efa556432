//! The types of a program: why a tree has none, or the typed program that it spells.
#![tactic(auto)]

mod controller;
mod examples;
mod expression;
mod literal;
mod own;
mod program;
mod refusal;
mod scope;
mod simple;
mod span;
mod statement;
mod transfer;
mod types;

pub use examples::worked_refusals;
pub use program::first_refusal;
pub use refusal::{Found, Refusal, Rule};
pub use std::alloc::AllocError as NoMemory;
