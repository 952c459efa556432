//! A law of plans: a core has one only. Each function does nothing: what it ensures is the law.
#![tactic(auto)]

mod laws;

pub use laws::{cores_have_one_plan, mems_have_one_scheme, nodes_have_one_plan};
