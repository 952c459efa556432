//! What the operation or transfer of a number names, and what two of them name alike.

ghost use Rattle.std.specs.Prelude.{◌≡◌, ◌≤◌, ◌^◌, ◌++◌, ◌&&◌, not, [], ◌∷◌, map, slice_index_or};
ghost use Rattle.std.specs.List.{list_any};
ghost use Rattle.sp_core.specs.CoreParts.{plain_core};
ghost use Rattle.sp_core.specs.Declarations.{dram_number, is_among};
ghost use Rattle.sp_core.specs.Numbering.{spans_size, number_count};
ghost use Rattle.sp_core.specs.Plain.{plain_op, plain_counter, plain_span, plain_node};
ghost use Rattle.sp_plan.specs.Named.{named_by, list_names, counters_names, spans_names, names, names_at, share_other};
ghost use Rattle.sp_plan.specs.Runs.{plain_named};

use crate::size::{count_numbers, counters_size, span_size, spans_size};
use sp_core::{Core, CoreCounter, CoreSpan, Node, Op};

/// What an operation names; and what a transfer names: its DRAM, numbered after the memories, its memory, and the memory
/// of its places.
#[derive(Clone, Copy, Debug)]
pub enum Named {
    Access(Option<u32>),
    Transfer(u64, u32, Option<u32>),
}

/// What the operation at a place of a list names; nothing past its end.
fn op_named(ops: &[Op], n: usize) -> Named
    ensures { plain_named result ≡ slice_index_or (list_names (map plain_op ops.now)) n [] }
{
    match ops.get(n) {
        Some(op) => Named::Access(op.mem),
        None => Named::Access(None),
    }
}

fn two_named(first: &[Op], second: &[Op], n: usize) -> Named
    ensures { plain_named result ≡ slice_index_or (list_names (map plain_op first.now) ++ list_names (map plain_op second.now)) n [] }
{
    if n < first.len() {
        op_named(first, n)
    } else {
        op_named(second, n - first.len())
    }
}

fn counters_named(counters: &[CoreCounter], n: usize) -> Named
    ensures { plain_named result ≡ slice_index_or (counters_names (map plain_counter counters.now)) n [] }
{
    let mut left = n;
    for counter in counters {
        let size = counter.from.len() + counter.until.len();
        if left < size {
            return two_named(&counter.from, &counter.until, left);
        }
        left -= size;
    }
    Named::Access(None)
}

fn span_named(span: &CoreSpan, n: usize) -> Named
    ensures { plain_named result ≡ slice_index_or (spans_names (plain_span span.now ∷ [])) n [] }
{
    match span {
        CoreSpan::One(ops) => op_named(ops, n),
        CoreSpan::Range(from, until) => two_named(from, until, n),
    }
}

fn spans_named(spans: &[CoreSpan], n: usize) -> Named
    requires { spans_size (map plain_span spans.now) ≤ 2 ^ 30 }
    ensures { plain_named result ≡ slice_index_or (spans_names (map plain_span spans.now)) n [] }
{
    let mut left = n;
    for span in spans {
        let size = span_size(span) as usize;
        if left < size {
            return span_named(span, left);
        }
        left -= size;
    }
    Named::Access(None)
}

/// What a transfer of a DRAM names.
pub fn transfer(core: &Core, dram: u32, mem: u32, places: Option<u32>) -> Named
    ensures { plain_named result ≡ dram_number (plain_core core.now) dram ∷ mem ∷ named_by places }
{
    Named::Transfer(core.mems().len() as u64 + u64::from(dram), mem, places)
}

fn only(named: Named, n: usize) -> Named
    ensures { plain_named result ≡ slice_index_or (plain_named named ∷ []) n [] }
{
    if n == 0 { named } else { Named::Access(None) }
}

/// What stands at a place of a transfer: the operations of its spans, and then itself.
fn moved(transfer: Named, span: &[CoreSpan], n: usize) -> Named
    requires { spans_size (map plain_span span.now) ≤ 2 ^ 30 }
    ensures { plain_named result ≡ slice_index_or (spans_names (map plain_span span.now) ++ plain_named transfer ∷ []) n [] }
{
    let size = spans_size(span) as usize;
    if n < size {
        spans_named(span, n)
    } else {
        only(transfer, n - size)
    }
}

fn after_count(transfer: Named, count: &[Op], n: usize) -> Named
    ensures { plain_named result ≡ slice_index_or (list_names (map plain_op count.now) ++ plain_named transfer ∷ []) n [] }
{
    if n < count.len() {
        op_named(count, n)
    } else {
        only(transfer, n - count.len())
    }
}

/// Of a gather or scatter: those of its spans, those of its count, and then itself.
fn picked(transfer: Named, span: &[CoreSpan], count: &[Op], n: usize) -> Named
    requires { spans_size (map plain_span span.now) ≤ 2 ^ 30 }
    ensures { plain_named result ≡ slice_index_or (spans_names (map plain_span span.now) ++ (list_names (map plain_op count.now) ++ plain_named transfer ∷ [])) n [] }
{
    let size = spans_size(span) as usize;
    if n < size {
        spans_named(span, n)
    } else {
        after_count(transfer, count, n - size)
    }
}

/// What the operation or transfer of a number in a part names; nothing past its end.
fn node_named(core: &Core, node: &Node, n: usize) -> Named
    requires { number_count (plain_node node.now) ≤ 2 ^ 30 }
    ensures { plain_named result ≡ slice_index_or (names (plain_core core.now) (plain_node node.now)) n [] }
{
    match node {
        Node::Inner { counters, ops, .. } => {
            let size = counters_size(counters) as usize;
            if n < size {
                counters_named(counters, n)
            } else {
                op_named(ops, n - size)
            }
        }
        Node::Outer {
            counters,
            stages,
            ..
        } => {
            let size = counters_size(counters) as usize;
            if n < size {
                return counters_named(counters, n);
            }
            let mut left = n - size;
            for stage in stages {
                let count = count_numbers(&stage.node) as usize;
                if left < count {
                    return node_named(core, &stage.node, left);
                }
                left -= count;
            }
            Named::Access(None)
        }
        Node::Fsm {
            start,
            test,
            body,
            next,
            ..
        } => {
            let before = start.len() + test.len();
            if n < before {
                return two_named(start, test, n);
            }
            let left = n - before;
            let count = count_numbers(body) as usize;
            if left < count {
                node_named(core, body, left)
            } else {
                op_named(next, left - count)
            }
        }
        Node::Branch { test, yes, no } => {
            if n < test.len() {
                return op_named(test, n);
            }
            let left = n - test.len();
            let count = count_numbers(yes) as usize;
            if left < count {
                node_named(core, yes, left)
            } else {
                node_named(core, no, left - count)
            }
        }
        Node::Load { dram, mem, span } => { moved(transfer(core, *dram, *mem, None), span, n) }
        Node::Store { dram, mem, span } => { moved(transfer(core, *dram, *mem, None), span, n) }
        Node::Sparse {
            dram,
            mem,
            index,
            span,
            count,
            ..
        } => picked(transfer(core, *dram, *mem, *index), span, count, n),
    }
}

/// What the operation or transfer of a number in a core names.
pub fn named_at(core: &Core, n: u32) -> Named
    ensures { plain_named result ≡ names_at (plain_core core.now) n }
{
    node_named(core, core.root(), n as usize)
}

fn is_one(m: u64, mem: Option<u32>) -> bool
    ensures { result ≡ is_among m (named_by mem) }
{
    match mem {
        None => false,
        Some(r) => m == u64::from(r),
    }
}

fn is_named(m: u64, named: Named) -> bool
    ensures { result ≡ is_among m (plain_named named) }
{
    match named {
        Named::Access(mem) => is_one(m, mem),
        Named::Transfer(dram, mem, places) => {
            m == dram || (m == u64::from(mem) || is_one(m, places))
        }
    }
}

fn is_owned(m: u64, owned: &[u32]) -> bool
    ensures { result ≡ is_among m owned.now }
{
    for r in owned {
        if m == u64::from(*r) {
            return true;
        }
    }
    false
}

fn is_other(m: u64, named: Named, owned: &[u32]) -> bool
    ensures { result ≡ (is_among m (plain_named named) && not (is_among m owned.now)) }
{
    is_named(m, named) && !is_owned(m, owned)
}

fn is_one_other(mem: Option<u32>, named: Named, owned: &[u32]) -> bool
    ensures { result ≡ list_any (λ m. is_among m (plain_named named) && not (is_among m owned.now)) (named_by mem) }
{
    match mem {
        None => false,
        Some(m) => is_other(u64::from(m), named, owned),
    }
}

/// Whether one names a memory that the other names too and that isn't among these.
pub fn names_other(one: Named, named: Named, owned: &[u32]) -> bool
    ensures { result ≡ list_any (λ m. is_among m (plain_named named) && not (is_among m owned.now)) (plain_named one) }
{
    match one {
        Named::Access(mem) => is_one_other(mem, named, owned),
        Named::Transfer(dram, mem, places) => {
            is_other(dram, named, owned)
                || (is_other(u64::from(mem), named, owned) || is_one_other(places, named, owned))
        }
    }
}

/// Whether two operations or transfers, by number, name one memory that isn't among these.
pub fn share_other(core: &Core, owned: &[u32], first: u32, second: u32) -> bool
    ensures { result ≡ share_other (plain_core core.now) owned.now first second }
{
    names_other(named_at(core, first), named_at(core, second), owned)
}
