//! Schemes that divide a memory into banks: the first one that keeps accesses apart, and certificates.
#![tactic(auto)]

mod certificate;
mod clash;
mod different;
mod divisor;
mod group;
mod laws;
mod place;
mod residue;
mod row;
mod scheme;
mod searching;
mod separation;

pub use certificate::{CertError, Certificate, certify, check_certificate};
pub use clash::separates;
pub use group::{are_groups, is_group};
pub use laws::earlier_hinges_go_first;
pub use place::{bank_of, offset_of};
pub use scheme::Scheme;
pub use searching::search;
pub use separation::apart;
