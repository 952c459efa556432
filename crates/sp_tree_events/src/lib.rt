//! Laws only. Each function does nothing: what it ensures is the law.
#![tactic(auto)]

mod acts;
mod copies;
mod owners;
mod parts;
mod told;

pub use acts::{loops_renew, machines_keep, worked_owners};
pub use copies::{
    inners_name_copies, lists_name_copies, loads_name_copies, numbers_stand, stores_name_copies,
    worked_standing,
};
pub use owners::{bodies_own, runs_own, sides_own, stages_own, worked_deeds};
pub use parts::{
    agreement, branch_tests_agree, machine_lists_agree, machines_agree, sides_agree, stages_agree,
    worked_agreement,
};
pub use told::{
    events_are_of_items, numbers_are_within, numbers_stand_for_one, timelines_are_of_items,
    transfers_move, worked_items,
};
