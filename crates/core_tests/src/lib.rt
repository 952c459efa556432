//! Tests of the rules of cores and of the core of a program: they stand apart, so that no crate below is proved twice.
#![tactic(auto)]

#[cfg(test)]
mod cores;
#[cfg(test)]
mod rules;
#[cfg(test)]
mod shown;
