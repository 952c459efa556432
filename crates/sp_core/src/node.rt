use crate::operation::Op;
use sp_words::Style;

/// A part of a core: a controller or a transfer. Memories, DRAMs and counters are named by number, and each list of
/// operations that decides something gives its word by its last one.
#[cycle(node)]
#[derive(Debug, Drop)]
pub enum Node {
    /// A loop over one list of operations. `comb` is the place of the first one that combines, where the body is a
    /// combination or ends with one, and isn't unrolled yet.
    Inner {
        counters: Vec<CoreCounter>,
        owned: Vec<u32>,
        ops: Vec<Op>,
        comb: Option<u32>,
    },
    /// A loop over stages.
    Outer {
        counters: Vec<CoreCounter>,
        style: Style,
        owned: Vec<u32>,
        stages: Vec<Stage>,
    },
    /// The register `state` takes the word of `start`. As long as `test` gives 1, the body is run and `state` takes the
    /// word of `next`.
    Fsm {
        start: Vec<Op>,
        state: u32,
        test: Vec<Op>,
        body: Box<Node>,
        next: Vec<Op>,
    },
    Branch {
        test: Vec<Op>,
        yes: Box<Node>,
        no: Box<Node>,
    },
    /// A slice of a DRAM into an SRAM, or as the newest row of a line buffer.
    Load {
        dram: u32,
        mem: u32,
        span: Vec<CoreSpan>,
    },
    /// An SRAM into a slice of a DRAM.
    Store {
        dram: u32,
        mem: u32,
        span: Vec<CoreSpan>,
    },
    /// A transfer of `count` words whose places in the DRAM stand in an SRAM, `index`; or of a slice, in `par` lanes.
    Sparse {
        kind: SparseKind,
        dram: u32,
        mem: u32,
        index: Option<u32>,
        span: Vec<CoreSpan>,
        count: Vec<Op>,
        par: u32,
    },
}

/// A stage of a loop, run where some lane from `first` to `last` isn't masked. `comb` tells that it is the combination
/// of that loop.
#[cycle(node)]
#[derive(Debug, Drop)]
pub struct Stage {
    pub first: u32,
    pub last: u32,
    pub comb: bool,
    pub node: Node,
}

/// A counter: `from`, `from + by`, .. below `until`, of which `par` are taken at once.
#[derive(Debug, Drop)]
pub struct CoreCounter {
    pub id: u32,
    pub from: Vec<Op>,
    pub until: Vec<Op>,
    pub by: u32,
    pub par: u32,
}

/// What a slice takes of one dimension of a DRAM: one index, or those from the first up to the second, which is not
/// taken.
#[derive(Debug, Drop)]
pub enum CoreSpan {
    One(Vec<Op>),
    Range(Vec<Op>, Vec<Op>),
}

/// The transfers that take their places from an SRAM, and those of several lanes.
#[derive(Clone, Copy, Debug, PartialEq, Eq)]
pub enum SparseKind {
    Gather,
    Scatter,
    WideLoad,
    WideStore,
}
