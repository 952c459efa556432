//! The indices of a core's accesses as affine forms over the counters around.
#![tactic(auto)]

mod access;
mod around;
mod combine;
mod forms;
mod index;
mod leaves;
mod memory;
mod operands;
mod place;
mod shape;
mod slice;
mod walk;

pub use around::Around;
pub use forms::forms_of;
pub use place::CounterPlace;
pub use std::alloc::AllocError as NoMemory;
pub use walk::patterns;
