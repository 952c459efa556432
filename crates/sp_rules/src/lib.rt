//! The rules of names and types, as a predicate on trees; and that a tree has no refusals exactly where it keeps them.
#![tactic(auto)]

mod laws;

pub use laws::{typed_trees_are_programs, wrong_trees_are_refused};
