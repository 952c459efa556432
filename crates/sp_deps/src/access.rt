use sp_affine::Form;

/// An access of a loop's body: the number of its memory, whether it writes it, and a form for each index, where all
/// have one. DRAMs are numbered after the memories.
#[derive(Debug, Drop)]
pub struct Access {
    pub mem: u32,
    pub writes: bool,
    pub forms: Option<Vec<Form>>,
}

/// A counter: the least and the greatest value that it takes, where they are known, its step, and how many steps are
/// taken at once.
#[derive(Clone, Copy, Debug)]
pub struct LoopRange {
    pub from: Option<(i64, i64)>,
    pub by: u32,
    pub par: u32,
}

/// The accesses of a part of a loop's body. `loops` describes the last counters of their forms: first `common` counters
/// of the loop itself, and then those of loops inside of it.
#[derive(Debug, Drop)]
pub struct Footprint {
    pub accesses: Vec<Access>,
    pub common: u32,
    pub loops: Vec<LoopRange>,
}

/// How many groups of iterations after an access another one may touch the same element.
#[derive(Clone, Copy, Debug, PartialEq, Eq)]
pub enum Dist {
    Never,
    AtLeast(u64),
}
