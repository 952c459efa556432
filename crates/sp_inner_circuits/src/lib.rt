//! Inner bodies of a core as circuits, by a plan.
#![tactic(auto)]

mod body;
mod counting;
mod inner;
mod planned;

pub use inner::{Inner, emit_inner};
