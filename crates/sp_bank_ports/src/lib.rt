//! The two ports of a bank, each shared by several accesses.
#![tactic(auto)]

mod laws;
mod port;
mod serving;
mod shared;

pub use laws::served_banks;
pub use port::WritePort;
pub use serving::serve;
pub use shared::{read_port, word_asked, write_port};
