//! Laws only: by their nets the owners in the circuit of a core's tree make their memories fresh and keep their states where the
//! timeline says so, and its operations and transfers name the copies that they touch. Each function does nothing: what it ensures is the law.
#![tactic(auto)]

mod deeds;
mod owners;

pub use deeds::owners_do;
pub use owners::{
    cores_name_copies, cores_name_loads, cores_name_stores, cores_own, plans_have_numbers,
    trees_name_copies, trees_own, worked_nets,
};
