//! Which memories a part of a core names.

ghost use Rattle.std.specs.Prelude.{◌≡◌, ◌+◌, [], ◌∷◌, map};
ghost use Rattle.std.specs.List.{list_any};
ghost use Rattle.sp_core.specs.CoreParts.{plain_core};
ghost use Rattle.sp_core.specs.Declarations.{dram_number, is_among};
ghost use Rattle.sp_core.specs.Plain.{plain_op, plain_counter, plain_span, plain_node};
ghost use Rattle.sp_plan.specs.Named.{named_by, list_names, counters_names, spans_names, uses};

use sp_core::{Core, CoreCounter, CoreSpan, Node, Op};

fn names_mem(m: u32, mem: Option<u32>) -> bool
    ensures { result ≡ is_among m (named_by mem) }
{
    match mem {
        None => false,
        Some(r) => m == r,
    }
}

/// Whether one of the operations names a memory.
fn list_uses(m: u32, ops: &[Op]) -> bool
    ensures { result ≡ list_any (is_among m) (list_names (map plain_op ops.now)) }
{
    for op in ops {
        if names_mem(m, op.mem) {
            return true;
        }
    }
    false
}

#[tactic(auto, using(crate::proofs::UsedNames::named_in_both))]
fn counters_use(m: u32, counters: &[CoreCounter]) -> bool
    ensures { result ≡ list_any (is_among m) (counters_names (map plain_counter counters.now)) }
{
    for counter in counters {
        if list_uses(m, &counter.from) || list_uses(m, &counter.until) {
            return true;
        }
    }
    false
}

#[tactic(auto, using(crate::proofs::UsedNames::named_in_both))]
fn span_uses(m: u32, span: &CoreSpan) -> bool
    ensures { result ≡ list_any (is_among m) (spans_names (plain_span span.now ∷ [])) }
{
    match span {
        CoreSpan::One(ops) => list_uses(m, ops),
        CoreSpan::Range(from, until) => list_uses(m, from) || list_uses(m, until),
    }
}

#[tactic(auto, using(crate::proofs::UsedNames::named_in_both))]
fn spans_use(m: u32, spans: &[CoreSpan]) -> bool
    ensures { result ≡ list_any (is_among m) (spans_names (map plain_span spans.now)) }
{
    for span in spans {
        if span_uses(m, span) {
            return true;
        }
    }
    false
}

/// Whether a transfer names a memory, by its DRAM and its memory.
fn transfer_uses(core: &Core, m: u32, dram: u32, mem: u32) -> bool
    ensures { result ≡ is_among m (dram_number (plain_core core.now) dram ∷ mem ∷ []) }
{
    u64::from(m) == core.mems().len() as u64 + u64::from(dram) || m == mem
}

/// Whether a part names a memory; DRAMs are numbered after the memories.
#[tactic(auto, using(crate::proofs::UsedNames::named_in_both))]
pub fn uses(core: &Core, m: u32, node: &Node) -> bool
    ensures { result ≡ uses (plain_core core.now) m (plain_node node.now) }
{
    match node {
        Node::Inner { counters, ops, .. } => counters_use(m, counters) || list_uses(m, ops),
        Node::Outer {
            counters,
            stages,
            ..
        } => {
            if counters_use(m, counters) {
                return true;
            }
            for stage in stages {
                if uses(core, m, &stage.node) {
                    return true;
                }
            }
            false
        }
        Node::Fsm {
            start,
            test,
            body,
            next,
            ..
        } => {
            (list_uses(m, start) || list_uses(m, test))
                || (uses(core, m, body) || list_uses(m, next))
        }
        Node::Branch { test, yes, no } => {
            list_uses(m, test) || (uses(core, m, yes) || uses(core, m, no))
        }
        Node::Load { dram, mem, span } => {
            spans_use(m, span) || transfer_uses(core, m, *dram, *mem)
        }
        Node::Store { dram, mem, span } => {
            spans_use(m, span) || transfer_uses(core, m, *dram, *mem)
        }
        Node::Sparse {
            dram,
            mem,
            index,
            span,
            count,
            ..
        } => {
            spans_use(m, span)
                || (list_uses(m, count)
                    || (transfer_uses(core, m, *dram, *mem) || names_mem(m, *index)))
        }
    }
}
