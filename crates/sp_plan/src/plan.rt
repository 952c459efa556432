use sp_bank::Scheme;

/// What is decided of a core: of its memories by number, and of its nodes in preorder.
#[derive(Debug, Drop)]
pub struct Plan {
    pub mems: Vec<MemPlan>,
    pub nodes: Vec<NodePlan>,
}

/// How a memory is divided into banks, how many copies of it there are, and how many duplicates of each copy. An SRAM or
/// a line buffer without a scheme is serial: it has one bank, and its accesses take turns.
#[derive(Debug, Drop)]
pub struct MemPlan {
    pub scheme: Option<Scheme>,
    pub depth: u32,
    pub duplicates: u32,
}

/// What is decided of a node.
#[derive(Debug, Drop)]
pub enum NodePlan {
    /// The time of each operation from the issue of its group on; how many cycles one group is issued after another; when
    /// the last operation is over; and whether the operations are done one after the other.
    Inner {
        times: Vec<u32>,
        ii: u32,
        latency: u32,
        serial: bool,
    },
    /// For each stage its slot, and its chain among those of that slot. None of a `Stream` block.
    Outer {
        slots: Vec<u32>,
        chains: Vec<u32>,
    },
    Other,
}
