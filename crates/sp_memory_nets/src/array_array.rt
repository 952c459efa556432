//! The banks of a memory.
use sp_taps::Store;

/// The banks of an SRAM or a FIFO, by the number of the first one and the nets of their ports. Any other memory has none.
#[derive(Debug, Drop)]
pub struct Array {
    pub bank: u64,
    pub stores: Vec<Store>,
}
