//! A law only: by a valid plan the operations of each inner body have the time that they take. The function does nothing: what it
//! ensures is the law.
#![tactic(auto)]

mod laws;

pub use laws::plans_leave_time;
