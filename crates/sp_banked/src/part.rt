//! What a memory in banks is made from.
use sp_mem::Touch;
use sp_netlist::NetId;
use sp_places::Layout;
use sp_words::Ty;

/// A memory in banks: the number of its first bank, how it lies in banks, its copies, the duplicates that its readers have, and
/// its accesses. Each write goes to all duplicates, each read to its own.
#[derive(Debug, Drop)]
pub struct Banked {
    pub start: NetId,
    pub bank: u64,
    pub ty: Ty,
    pub layout: Layout,
    pub copies: u32,
    pub duplicates: u32,
    pub writes: Vec<Touch>,
    pub reads: Vec<Touch>,
}
