//! The plan of a core: banks, times, slots, chains and copies; and when it is valid.
#![tactic(auto)]

mod chains;
mod examples;
mod held;
mod kinds;
mod named;
mod naming;
mod operations;
mod orders;
mod outer;
mod plan;
mod readers;
mod runs;
mod site;
mod size;
mod slots;
mod times;

pub use chains::{are_chains_right, are_joined, may_meet};
pub use examples::{worked_plans, worked_wrong_plans};
pub use held::are_held;
pub use kinds::{fits_scheme, is_of_kind};
pub use named::{Named, named_at, names_other, share_other, transfer};
pub use naming::uses;
pub use operations::{has_banks, is_change, is_serial, kind, latency, share_port};
pub use orders::{is_in_body, latency_at, meet_order, order, use_order};
pub use outer::are_body_runs_right;
pub use plan::{MemPlan, NodePlan, Plan};
pub use readers::duplicates;
pub use runs::{
    Run, has_one_slot, is_of_all, is_once, is_parallel_block, is_within, lane_size, least_of,
    number_at, run_from, share_lane, stage_in_lane,
};
pub use site::{Site, is_stream, site_at};
pub use size::{count_nodes, count_numbers, counters_size, spans_size};
pub use slots::are_slots_right;
pub use times::are_times_right;
