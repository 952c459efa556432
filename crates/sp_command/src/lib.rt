//! The words of the command line, as commands.
#![tactic(auto)]

mod command;
mod said;

pub use command::{Command, command_of};
pub use std::alloc::AllocError as NoMemory;
