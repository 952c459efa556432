//! A run of a core that begins in a later cycle than 0: the same happens, so many cycles later.
#![tactic(auto)]

mod laws;

pub use laws::runs_begin_later;
