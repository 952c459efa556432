//! Laws of what is decided of a program: a program has one plan, and one report. Each function does nothing: what it ensures
//! is the law.
#![tactic(auto)]

mod laws;

pub use laws::{
    cores_have_one_list_of_meets, programs_have_one_plan, programs_have_one_report,
    texts_have_one_report,
};
