//! Affine forms over loop counters and one unknown symbol: sums, differences, multiples and intervals.
#![tactic(auto)]

mod arithmetic;
mod coefs;
mod form;
mod range;
mod symbol;

pub use arithmetic::{add, minus, scale};
pub use form::{Form, FormError};
pub use range::{are_counter_ranges, interval};
