//! Which duplicate of a memory serves a read.
ghost use Rattle.std.specs.Prelude.{◌≡◌, ◌≤◌, ◌<◌, ◌+◌, ◌*◌, ◌^◌, length, map, Some};
ghost use Rattle.sp_core.specs.CoreParts.{plain_core};
ghost use Rattle.sp_core.specs.Numbering.{node_count, number_count};
ghost use Rattle.sp_core.specs.Plain.{plain_node, plain_op};
ghost use Rattle.sp_plan.specs.Copies.{is_read, reads, sparse_reads};
ghost use Rattle.sp_plan.specs.Plain.{plain_plan};
ghost use Rattle.sp_plan.specs.Ports.{is_one_mem};
ghost use Rattle.sp_core_ports.specs.UsedReaders.{duplicate_at, over_at, reader_if, readers_in};

use sp_core::{Core, Node, Op, OpKind, SparseKind};
use sp_plan::{Plan, count_numbers, counters_size, spans_size};

fn is_read(core: &Core, kind: OpKind) -> bool
    ensures { result ≡ is_read (plain_core core.now) kind }
{
    let _core = core;
    matches!(kind, OpKind::Read)
}

/// Whether this is the memory.
fn is_mem(mem: Option<u32>, m: u32) -> bool
    ensures { result ≡ is_one_mem mem (Some m) }
{
    match mem {
        Some(r) => r == m,
        None => false,
    }
}

/// Whether one of the operations reads a memory.
fn reads(core: &Core, m: u32, ops: &[Op]) -> bool
    ensures { result ≡ reads (plain_core core.now) m (map plain_op ops.now) }
{
    for op in ops {
        if is_read(core, op.kind) && is_mem(op.mem, m) {
            return true;
        }
    }
    false
}

/// Whether a gather, a scatter or a wide transfer reads a memory.
fn sparse_reads(core: &Core, kind: SparseKind, mem: u32, places: Option<u32>, m: u32) -> bool
    ensures { result ≡ sparse_reads (plain_core core.now) kind mem places m }
{
    let _core = core;
    match kind {
        SparseKind::Gather => is_mem(places, m),
        SparseKind::Scatter => mem == m || is_mem(places, m),
        SparseKind::WideLoad => false,
        SparseKind::WideStore => mem == m,
    }
}

/// Whether a reader, if it is one, is over at a number: 1 or 0. It has so many numbers, from one on.
fn over_if(is: bool, from: u32, count: u32, at: u32) -> u64
    requires { from + count < 2 ^ 32 }
    ensures over { result ≡ over_at at (reader_if is from count) }
    ensures few { result ≤ 1 }
{
    u64::from(is && from + count <= at)
}

/// Whether operations, of which the first one has a number, are a reader of a memory that is over at another number: 1 or 0.
fn list_over(core: &Core, m: u32, at: u32, number: u32, ops: &[Op]) -> u64
    requires { number + length ops.now < 2 ^ 32 }
    ensures over { result ≡ over_at at (reader_if (reads (plain_core core.now) m (map plain_op ops.now)) number (length (map plain_op ops.now))) }
    ensures few { result ≤ 1 }
{
    over_if(reads(core, m, ops), number, ops.len() as u32, at)
}

/// How many readers of a memory in a part, whose first operation has a number, are over at another number.
fn count_over(core: &Core, m: u32, at: u32, number: u32, node: &Node) -> u64
    requires numbers { number + number_count (plain_node node.now) ≤ 2 ^ 30 }
    requires nodes { node_count (plain_node node.now) ≤ 2 ^ 30 }
    ensures over { result ≡ over_at at (readers_in (plain_core core.now) m number (plain_node node.now)) }
    ensures few { result ≤ 3 * node_count (plain_node node.now) }
{
    match node {
        Node::Inner { counters, ops, .. } => {
            let from = number + counters_size(counters);
            list_over(core, m, at, from, ops)
        }
        Node::Outer {
            counters,
            stages,
            ..
        } => {
            let mut first = number + counters_size(counters);
            let mut total = 0;
            for stage in stages {
                total += count_over(core, m, at, first, &stage.node);
                first += count_numbers(&stage.node);
            }
            total
        }
        Node::Fsm {
            start,
            test,
            body,
            next,
            ..
        } => {
            let tested = number + start.len() as u32;
            let inside = number + (start.len() + test.len()) as u32;
            let behind = inside + count_numbers(body);
            let before = list_over(core, m, at, number, start)
                + list_over(core, m, at, tested, test);
            before + (count_over(core, m, at, inside, body) + list_over(core, m, at, behind, next))
        }
        Node::Branch { test, yes, no } => {
            let first = number + test.len() as u32;
            let second = first + count_numbers(yes);
            list_over(core, m, at, number, test)
                + (count_over(core, m, at, first, yes) + count_over(core, m, at, second, no))
        }
        Node::Load { .. } => 0,
        Node::Store { mem, span, .. } => over_if(*mem == m, number + spans_size(span), 1, at),
        Node::Sparse {
            kind,
            mem,
            index,
            span,
            count,
            ..
        } => {
            let from = number + (spans_size(span) + count.len() as u32);
            over_if(sparse_reads(core, *kind, *mem, *index, m), from, 1, at)
        }
    }
}

/// The duplicate of a memory that serves a read, by the number of its operation or transfer: each reader has one to itself, and the
/// last one serves all readers for which a plan has no further one.
pub fn duplicate_of(core: &Core, plan: &Plan, m: u32, number: u32) -> u32
    ensures { result ≡ duplicate_at (plain_core core.now) (plain_plan plan.now) m number }
{
    let over = count_over(core, m, number, 0, core.root());
    let last = match plan.mems.get(m as usize) {
        Some(planned) => planned.duplicates.saturating_sub(1),
        None => 0,
    };
    over.min(u64::from(last)) as u32
}
