//! Laws of ports: in no cycle of a run by a valid plan do two accesses use one port of a bank, other than as one tap. Each
//! function does nothing: what it ensures is the law.
#![tactic(auto)]

mod laws;

pub use laws::{
    bodies_share_no_port, inner_bodies_share_no_port, planned_inner_bodies_share_no_port,
    ports_take_turns, schemes_keep_apart,
};
