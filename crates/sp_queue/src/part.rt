//! What a queue is made from.
use sp_mem::{Fresh, Touch};
use sp_netlist::NetId;
use sp_words::Ty;

/// A queue: the number of its first bank, how many words it takes, its copies, what makes them fresh, and its puts and takes.
#[derive(Debug, Drop)]
pub struct Queue {
    pub start: NetId,
    pub bank: u64,
    pub ty: Ty,
    pub depth: u32,
    pub copies: u32,
    pub fresh: Vec<Fresh>,
    pub puts: Vec<Touch>,
    pub takes: Vec<Touch>,
}
