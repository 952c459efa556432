//! What a core keeps when its lanes stand one after the other: the copies of its memories, and the rules of cores, whatever it
//! combines.
#![tactic(auto)]

mod combined_rules;
mod combined_rules_examples;
mod copies;
mod unrolled_rules;

pub use combined_rules::{combined_cores_keep_rules, lanes_keep_rules};
pub use combined_rules_examples::worked_combinations;
pub use copies::{
    copies_are_apart, copies_are_counted, copies_are_declared, copies_have_owners,
    memories_keep_rules,
};
pub use unrolled_rules::{cores_keep_rules, lists_keep_rules};
