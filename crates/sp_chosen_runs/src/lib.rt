//! Laws only. Each function does nothing: what it ensures is the law.
#![tactic(auto)]

mod chosen;
mod inside;
mod inside_examples;
mod own;
mod plans;
mod ports;

pub use chosen::chosen_plans_run;
pub use inside::{runs_stay_inside, timelines_stay_inside};
pub use inside_examples::worked_elements;
pub use own::own_plans_share_no_port;
pub use plans::own_plans_are_sound;
pub use ports::{histories_share_no_port, runs_share_no_port};
