//! Nets of words that stand in the cycle itself, as circuits of a core's operations: the bounds of counters and the ends of slices.
#![tactic(auto)]

mod bounds;
mod direct;
mod examples;
mod laws;
mod spans;

pub use bounds::{Bounds, emit_bounds};
pub use direct::{Direct, emit_direct};
pub use examples::worked_bound;
pub use laws::{bounds_are_answered, spans_are_answered};
pub use spans::{SpanNet, Spans, emit_spans};
