//! Parts of circuits as whole netlists, for tests: what is asked of a memory hangs on the number of the cycle alone, so each word
//! that it gives can be worked out by hand.
#![tactic(auto)]

mod count;
mod counted;
mod lines;
mod loading;
mod machine;
mod memory;
mod outputs;
mod queue;
mod saving;
mod slices;
mod touches;

pub use counted::worked_store;
pub use lines::worked_rows;
pub use loading::worked_load;
pub use machine::worked_machine;
pub use memory::worked_memory;
pub use queue::worked_queue;
pub use saving::worked_save;
