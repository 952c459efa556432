//! The nets of the numbers of copies of the memories that a loop owns, slot by slot, and which of them stand around a part.
#![tactic(auto)]

mod laws;
mod numbers;
mod part;
mod table;

pub use laws::{numbers_stand, numbers_stay};
pub use numbers::{close_numbers, open_numbers};
pub use part::SlotNumbers;
pub use table::{no_number_table, with_own_numbers};
