//! Tests of generated programs: they stand apart, so that their crate isn't proved twice.
#![tactic(auto)]

#[cfg(test)]
mod generated;
