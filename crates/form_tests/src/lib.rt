//! Tests of the forms of a core's accesses, of which of them meet, and of its lanes: they stand apart, so that none of
//! these crates is proved twice.
#![tactic(auto)]

#[cfg(test)]
mod meets;
#[cfg(test)]
mod patterns;
#[cfg(test)]
mod unroll;
