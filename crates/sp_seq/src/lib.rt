//! What a program does, statement by statement, on packed words.
#![tactic(auto)]

mod access;
mod block;
mod cells;
mod combining;
mod control;
mod counting;
mod digit;
mod element;
mod end;
mod evaluation;
mod line;
mod load;
mod memory;
mod operators;
mod over;
mod primitive;
mod ring;
mod seq;
mod slice;
mod sparse;
mod start;
mod state;
mod transfer;
mod words;

pub use end::SeqEnd;
pub use seq::Seq;
pub use std::alloc::AllocError as NoMemory;
