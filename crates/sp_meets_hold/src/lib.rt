//! Laws only. Each function does nothing: what it ensures is the law.
#![tactic(auto)]

mod hold;
mod symbols;

pub use hold::meets_hold;
pub use symbols::symbols_stay;
