use sp_affine::Form;

/// Two accesses, by number, may touch one element where the second one stands this many groups after the first, or
/// more; 0 is the same group. An operation's number, and a transfer's, is its place in preorder over all of them, a
/// transfer's after the operations of its spans.
#[derive(Clone, Copy, Debug, PartialEq, Eq)]
pub struct Meet {
    pub first: u32,
    pub second: u32,
    pub least: u64,
}

/// At most one entry for each ordered pair.
#[derive(Debug, Drop)]
pub struct Meets {
    pub pairs: Vec<Meet>,
}

/// For each access in preorder, a form for each index, where all have one, over the counters of the controllers around,
/// outermost first; for a transfer, the first index of each span. A gather or scatter has none. A symbol is the number
/// of a memory. `lengths` has an entry for each range of a transfer and for each count of a gather or scatter: the
/// number that no run of it passes, where it is known.
#[derive(Debug, Drop)]
pub struct AccessForms {
    pub forms: Vec<Option<Vec<Form>>>,
    pub lengths: Vec<Option<u64>>,
}
