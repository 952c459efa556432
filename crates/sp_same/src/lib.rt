//! What a program means, its core means.
#![tactic(auto)]

mod laws;

pub use laws::{
    blocks_are_followed, branches_are_followed, early_stages_are_followed, first_stores_agree,
    inner_bodies_are_followed, loops_are_followed, machines_are_followed, outputs_agree,
    reductions_are_followed, transfers_are_followed,
};
