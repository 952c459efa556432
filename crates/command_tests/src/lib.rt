//! Tests of the commands and of setups: they stand apart, so that none of these crates is proved twice.
#![tactic(auto)]

#[cfg(test)]
mod cases;
#[cfg(test)]
mod commands;
#[cfg(test)]
mod compiled;
#[cfg(test)]
mod setup;
#[cfg(test)]
mod simulation;
#[cfg(test)]
mod stores;
