//! Nodes of every kind, and the same in lanes; and how the core of a program ends in lanes.
#![tactic(auto)]

mod combinations;
mod elements;
mod elements_examples;
mod laws;
mod nodes;
mod outcomes;
mod outers;
mod reductions;
mod reductions_examples;
mod stages;
mod transfers;

pub use combinations::combined_inners_go;
pub use elements::{elements_exchange, elements_go};
pub use elements_examples::worked_elements;
pub use laws::nodes_go;
pub use nodes::{branches_go, branches_stand, fsms_go, fsms_stand};
pub use outcomes::programs_go;
pub use outers::{outers_go, outers_stand};
pub use reductions::reductions_go;
pub use reductions_examples::worked_reduction;
pub use stages::stages_go;
pub use transfers::transfers_go;
