//! Tests of the crates of the language: they stand apart, so that none of these crates is proved twice.
#![tactic(auto)]

#[cfg(test)]
mod check;
#[cfg(test)]
mod counts;
#[cfg(test)]
mod reader;
#[cfg(test)]
mod typed;
#[cfg(test)]
mod types;
