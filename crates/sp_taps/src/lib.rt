//! Banks with one port to write and one to read. Their numbers are fixed before any gate is added: a bank's ports read nets
//! that are promised with it, and that are driven later.
#![tactic(auto)]

mod laws;
mod store;
mod stores;
mod wires;

pub use laws::tap_laws;
pub use store::Store;
pub use stores::{add_store, add_stores};
pub use wires::connect;
