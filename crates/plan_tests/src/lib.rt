//! Tests of the crates of plans: they stand apart, so that none of these crates is proved twice.
#![tactic(auto)]

#[cfg(test)]
mod cores;
#[cfg(test)]
mod depths;
#[cfg(test)]
mod plans;
#[cfg(test)]
mod report;
#[cfg(test)]
mod sched;
#[cfg(test)]
mod schemes;
#[cfg(test)]
mod stages;
#[cfg(test)]
mod stream;
#[cfg(test)]
mod valid;
