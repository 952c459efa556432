//! Channels to memory outside, each with the unit that moves its words. Their numbers are fixed before any gate is added: a unit
//! reads nets that are promised with it, and that are driven later.
#![tactic(auto)]

mod laws;
mod loads;
mod ports;
mod stores;

pub use laws::channel_laws;
pub use loads::add_load;
pub use ports::{LoadPort, StorePort};
pub use stores::add_store;
