//! Stages in their places.

/// The numbers of the stages of a chain, in their order.
#[derive(Debug, Drop)]
pub struct PlacedChain {
    pub stages: Vec<usize>,
}

/// The chains of a slot, in the order of their first stages.
#[derive(Debug, Drop)]
pub struct PlacedSlot {
    pub chains: Vec<PlacedChain>,
}
