//! Tests of netlists and of the crates of circuits: they stand apart, so that none of these crates is proved twice.
#![tactic(auto)]

#[cfg(test)]
mod beats;
#[cfg(test)]
mod counters;
#[cfg(test)]
mod ctrl;
#[cfg(test)]
mod gates;
#[cfg(test)]
mod lane_nets;
#[cfg(test)]
mod netlist;
#[cfg(test)]
mod netlist_check;
#[cfg(test)]
mod pipe;
#[cfg(test)]
mod sequence;
#[cfg(test)]
mod worked_parts;
