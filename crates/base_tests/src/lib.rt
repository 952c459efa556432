//! Tests of the crates that all others stand on: they stand apart, so that none of these crates is proved twice.
#![tactic(auto)]

#[cfg(test)]
mod affine;
#[cfg(test)]
mod bank;
#[cfg(test)]
mod deps;
#[cfg(test)]
mod edges;
#[cfg(test)]
mod graph;
#[cfg(test)]
mod modulo;
#[cfg(test)]
mod packed;
#[cfg(test)]
mod tree;
#[cfg(test)]
mod words;
