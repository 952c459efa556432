//! What the events of a run touch: each is at the forms of a target of its spot. Each function does nothing: what it ensures
//! is the law.
#![tactic(auto)]

mod laws;

pub use laws::runs_touch;
