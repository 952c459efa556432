//! How many duplicates memories have.

ghost use Rattle.std.specs.Prelude.{◌≡◌, ◌≤◌, ◌^◌, ◌*◌, map};
ghost use Rattle.sp_core.specs.Numbering.{node_count};
ghost use Rattle.sp_core.specs.CoreParts.{plain_core};
ghost use Rattle.sp_core.specs.Plain.{plain_op, plain_node};
ghost use Rattle.sp_plan.specs.Copies.{one_if, is_read, reads, sparse_reads, readers, duplicates};

use crate::operations::{has_banks, is_one_mem, kind};
use sp_core::{Core, Node, Op, OpKind, SparseKind};

fn is_read(core: &Core, kind: OpKind) -> bool
    ensures { result ≡ is_read (plain_core core.now) kind }
{
    let _core = core;
    match kind {
        OpKind::Read => true,
        _ => false,
    }
}

/// Whether one of the operations reads a memory.
fn reads(core: &Core, m: u32, ops: &[Op]) -> bool
    ensures { result ≡ reads (plain_core core.now) m (map plain_op ops.now) }
{
    for op in ops {
        if is_read(core, op.kind) && is_one_mem(op.mem, Some(m)) {
            return true;
        }
    }
    false
}

/// Whether a gather, a scatter or a wide transfer reads a memory.
fn sparse_reads(core: &Core, kind: SparseKind, mem: u32, places: Option<u32>, m: u32) -> bool
    ensures { result ≡ sparse_reads (plain_core core.now) kind mem places m }
{
    let _core = core;
    match kind {
        SparseKind::Gather => is_one_mem(places, Some(m)),
        SparseKind::Scatter => mem == m || is_one_mem(places, Some(m)),
        SparseKind::WideLoad => false,
        SparseKind::WideStore => mem == m,
    }
}

/// How many bodies, starts, tests, nexts and transfers read a memory.
fn count_readers(core: &Core, m: u32, node: &Node) -> u64
    requires { node_count (plain_node node.now) ≤ 2 ^ 30 }
    ensures count { result ≡ readers (plain_core core.now) m (plain_node node.now) }
    ensures few { result ≤ 3 * node_count (plain_node node.now) }
{
    match node {
        Node::Inner { ops, .. } => u64::from(reads(core, m, ops)),
        Node::Outer { stages, .. } => {
            let mut total = 0;
            for stage in stages {
                total += count_readers(core, m, &stage.node);
            }
            total
        }
        Node::Fsm {
            start,
            test,
            body,
            next,
            ..
        } => {
            (u64::from(reads(core, m, start)) + u64::from(reads(core, m, test)))
                + (count_readers(core, m, body) + u64::from(reads(core, m, next)))
        }
        Node::Branch { test, yes, no } => {
            u64::from(reads(core, m, test))
                + (count_readers(core, m, yes) + count_readers(core, m, no))
        }
        Node::Load { .. } => 0,
        Node::Store { mem, .. } => u64::from(*mem == m),
        Node::Sparse {
            kind,
            mem,
            index,
            ..
        } => u64::from(sparse_reads(core, *kind, *mem, *index, m)),
    }
}

/// How many duplicates a memory has: one for each reader, and at least one; one where it has no banks.
pub fn duplicates(core: &Core, m: u32) -> u64
    ensures { result ≡ duplicates (plain_core core.now) m }
{
    if has_banks(kind(core, m)) {
        count_readers(core, m, core.root()).max(1)
    } else {
        1
    }
}
