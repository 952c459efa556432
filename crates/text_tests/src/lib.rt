//! Tests of the texts of netlists and of their runs: they stand apart, so that none of these crates is proved twice.
#![tactic(auto)]

#[cfg(test)]
mod listing;
#[cfg(test)]
mod listing_read;
#[cfg(test)]
mod verilog;
#[cfg(test)]
mod waves;
