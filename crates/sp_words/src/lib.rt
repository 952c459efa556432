//! Types, words and the operators on them: what every other crate of the compiler stands on.
#![tactic(auto)]

mod decimal;
mod interface;
mod kind;
mod laws;
mod memory_kind;
mod memory_laws;
mod memory_number;
mod names;
mod operators;
mod types;
mod words;

pub use decimal::{of_decimal, texts_read_back, value_text};
pub use interface::{Input, Output, PortDecl, Ports, fits};
pub use kind::{BinOp, Kind, Style, UnOp};
pub use laws::{
    divisions_leave_remainders, operators_associate, operators_commute, operators_give_words,
    parts_make_the_type, values_are_a_range, wrapping_is_kept,
};
pub use memory_kind::{ArgIn, ArgOut, Dram, Fifo, LineBuf, MemKind, Readable, Reg, Sram, Writable};
pub use memory_laws::{
    accesses_are_footprints, fresh_memories_fit, kinds_decide, ports_keep_to_their_kinds,
    states_are_what_is_held, types_name_their_kinds,
};
pub use memory_number::{MemId, ReadPort, WritePort};
pub use names::{is_name, is_reserved};
pub use operators::{add, and, cast, div, eq, lt, max, min, mul, not, or, rem, shl, shr, sub, xor};
pub use std::alloc::AllocError as NoMemory;
pub use types::{FixTy, Ty};
pub use words::is_word;
