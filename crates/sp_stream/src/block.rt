//! When a stream block is proper.

ghost use Rattle.std.specs.Prelude.{◌≡◌, ◌&&◌, map};
ghost use Rattle.std.specs.List.{list_all};
ghost use Rattle.sp_core.specs.CoreParts.{plain_core};
ghost use Rattle.sp_core.specs.Declarations.{is_among};
ghost use Rattle.sp_core.specs.Plain.{plain_counter, plain_node, plain_stage_list};
ghost use Rattle.sp_plan.specs.Slots.{is_once};
ghost use Rattle.sp_stream.specs.Proper.{nodes_of, has_one_at_each_end, is_shared_unchanged, is_end_right, is_mem_right, are_mems_right, is_proper_block, is_proper_node, is_proper};

use crate::fifos::{is_fifo, is_forest};
use crate::stages::{Act, are_loops, how_many, puts_and_takes};
use sp_core::{Core, CoreCounter, Node, Stage};
use sp_plan::site_at;
use sp_words::Kind;

fn is_among(m: u32, owned: &[u32]) -> bool
    ensures { result ≡ is_among m owned.now }
{
    for r in owned {
        if m == *r {
            return true;
        }
    }
    false
}

/// Whether at most one stage puts into a FIFO, at most one takes from it, and none does both.
fn has_one_at_each_end(stages: &[Stage], m: u32) -> bool
    ensures { result ≡ has_one_at_each_end (nodes_of (plain_stage_list stages.now)) m }
{
    (how_many(Act::Put, m, stages) <= 1 && how_many(Act::Take, m, stages) <= 1)
        && !puts_and_takes(m, stages)
}

/// Whether no stage changes a memory that two of them name.
fn is_shared_unchanged(stages: &[Stage], m: u32) -> bool
    ensures { result ≡ is_shared_unchanged (nodes_of (plain_stage_list stages.now)) m }
{
    how_many(Act::Name, m, stages) <= 1 || how_many(Act::Change, m, stages) == 0
}

/// Whether the FIFOs among the memories that a block owns join at most two stages each, in one direction.
fn are_ends_right(core: &Core, owned: &[u32], stages: &[Stage]) -> bool
    ensures { result ≡ list_all (is_end_right (plain_core core.now) (nodes_of (plain_stage_list stages.now))) owned.now }
{
    for m in owned {
        if is_fifo(core, *m) && !has_one_at_each_end(stages, *m) {
            return false;
        }
    }
    true
}

fn is_mem_right(kind: Kind, owned: &[u32], stages: &[Stage], m: u32) -> bool
    ensures { result ≡ is_mem_right owned.now (nodes_of (plain_stage_list stages.now)) m kind }
{
    match kind {
        Kind::Fifo => is_among(m, owned) || is_shared_unchanged(stages, m),
        _ => is_shared_unchanged(stages, m),
    }
}

/// Whether no memory but the FIFOs of the block is named by two stages and changed by one.
fn are_mems_right(core: &Core, owned: &[u32], stages: &[Stage]) -> bool
    ensures { result ≡ are_mems_right owned.now (nodes_of (plain_stage_list stages.now)) 0 core.now.mems }
{
    let mut m = 0;
    for mem in core.mems() {
        if !is_mem_right(mem.kind, owned, stages, m) {
            return false;
        }
        m += 1;
    }
    true
}

fn is_once(counters: &[CoreCounter]) -> bool
    ensures { result ≡ is_once (map plain_counter counters.now) }
{
    counters.is_empty()
}

/// Whether a body runs once and keeps all rules.
fn is_proper_block(core: &Core, counters: &[CoreCounter], owned: &[u32], stages: &[Stage]) -> bool
    ensures { result ≡ (is_once (map plain_counter counters.now) && is_proper_block (plain_core core.now) owned.now (nodes_of (plain_stage_list stages.now))) }
{
    (is_once(counters) && (are_loops(core, stages) && are_ends_right(core, owned, stages)))
        && (are_mems_right(core, owned, stages) && is_forest(core, stages, owned))
}

fn is_proper_node(core: &Core, node: &Node) -> bool
    ensures { result ≡ is_proper_node (plain_core core.now) (plain_node node.now) }
{
    match node {
        Node::Outer {
            counters,
            owned,
            stages,
            ..
        } => is_proper_block(core, counters, owned, stages),
        _ => false,
    }
}

/// Whether the node of a number, in preorder, is a body that runs once and whose stages may run at once, joined by its
/// FIFOs.
pub fn proper(core: &Core, node: u32) -> bool
    ensures { result ≡ is_proper (plain_core core.now) node }
{
    match site_at(node, 0, false, core.root()) {
        None => false,
        Some(site) => is_proper_node(core, site.node),
    }
}
