//! Laws only. Each function does nothing: what it ensures is the law.
#![tactic(auto)]

mod banks;
mod banks_examples;
mod copies;
mod copies_examples;
mod cores;
mod used;
mod used_examples;

pub use banks::ports_are_there;
pub use banks_examples::worked_banks;
pub use copies::{plans_have_copies, runs_have_copies};
pub use copies_examples::worked_copies;
pub use cores::{cores_use_no_port_twice, reads_have_duplicates, stages_take_turns};
pub use used::{
    lists_use_no_port_twice, ordered_use_no_end_twice, outers_use_no_port_twice,
    parts_use_no_port_twice, readers_are_counted, readers_are_in_order, readers_have_places,
    transfers_use_no_port_twice,
};
pub use used_examples::{worked_ends, worked_ports, worked_readers};
