//! A walk over a tree, in the order of the numbers of its operations.
ghost use Rattle.std.specs.Prelude.{◌≡◌, ℕ, ◌+◌, ◌<◌, ◌≤◌, ◌^◌, true, length, OnOk};
ghost use Rattle.sp_core.specs.CoreParts.{plain_core};
ghost use Rattle.sp_core.specs.Declarations.{is_among};
ghost use Rattle.sp_core.specs.Invariant.{owned_in};
ghost use Rattle.sp_core.specs.Numbering.{node_count};
ghost use Rattle.sp_core.specs.Plain.{plain_node};
ghost use Rattle.sp_plan.specs.Plain.{plain_node_plan, plain_plan};
ghost use Rattle.sp_plan.specs.PlainPlan.{node_plan};
ghost use Rattle.sp_copy_nets.specs.Table.{numbers_at};
ghost use Rattle.sp_tree_copies.specs.Walks.{KeepsStanding, WalksNode};

use crate::loops::{inside_slot, loop_nets, renew_next, stage_slot};
use crate::names::{keep_next, name_bounds, name_ops, name_transfer};
use crate::numbers::LoopCopies;
use sp_core::{Core, Node};
use sp_netlist::{NetId, NoMemory};
use sp_plan::{NodePlan, Plan, count_nodes};
use sp_tree_handed::{Keeping, LoopTurns, Renewal};
use std::alloc::Global;

/// The nets of copies so far, of each operation, each transfer and each owner; and which loop and which net of a state comes next.
#[derive(Debug, Drop)]
pub(crate) struct Walk {
    pub names: Vec<Option<NetId>>,
    pub renewed: Vec<Renewal>,
    pub kept: Vec<Keeping>,
    pub loops: usize,
    pub states: usize,
}

/// What is decided of a node, by its number.
fn planned(plan: &Plan, index: u32) -> &NodePlan
    requires { index < length plan.now.nodes.items }
    ensures { plain_node_plan result.now ≡ node_plan (plain_plan plan.now) index }
{
    &plan.nodes[index as usize]
}

/// Walks over a node and all in it. `index` is its number in preorder, `around` has the nets of copies around it by the memories, and
/// `loops` has those of each loop.
pub(crate) fn walk_node(
    alloc: Global,
    walk: &mut Walk,
    core: &Core,
    plan: &Plan,
    node: &Node,
    index: u32,
    around: &[Option<NetId>],
    turns: &[LoopTurns],
    kept: &[Keeping],
    loops: &[LoopCopies],
) -> Result<(), NoMemory>
    requires owned { (m : ℕ) → is_among m (owned_in (plain_node node.now)) ≡ true → m < length around.now }
    requires nodes { index + node_count (plain_node node.now) ≤ 2 ^ 30 }
    requires planned { index + node_count (plain_node node.now) ≤ length plan.now.nodes.items }
    ensures walks { OnOk result (WalksNode (plain_core core.now) (plain_plan plan.now) turns.now kept.now loops.now (plain_node node.now) index (numbers_at around.now) walk.old walk.new) }
    ensures stand { OnOk result (KeepsStanding (plain_core core.now) turns.now kept.now loops.now around.now walk.old walk.new) }
{
    match node {
        Node::Inner { counters, ops, .. } => {
            name_bounds(walk, around, counters)?;
            name_ops(walk, around, ops)
        }
        Node::Outer {
            counters,
            owned,
            stages,
            ..
        } => {
            let decided = planned(plan, index);
            let at = walk.loops;
            name_bounds(walk, around, counters)?;
            renew_next(walk, core, decided, stages, owned, turns, loops)?;
            let mut second = index + 1;
            let mut number: usize = 0;
            for stage in stages {
                let slot = stage_slot(decided, number);
                let nets = loop_nets(loops, at, slot);
                let table = inside_slot(alloc, around, owned, nets)?;
                walk_node(
                    alloc,
                    walk,
                    core,
                    plan,
                    &stage.node,
                    second,
                    &table,
                    turns,
                    kept,
                    loops,
                )?;
                second += count_nodes(&stage.node);
                number += 1;
            }
            Ok(())
        }
        Node::Fsm {
            start,
            state,
            test,
            body,
            next,
        } => {
            name_ops(walk, around, start)?;
            name_ops(walk, around, test)?;
            keep_next(walk, around, kept, *state)?;
            keep_next(walk, around, kept, *state)?;
            walk_node(
                alloc,
                walk,
                core,
                plan,
                body,
                index + 1,
                around,
                turns,
                kept,
                loops,
            )?;
            name_ops(walk, around, next)
        }
        Node::Branch { test, yes, no } => {
            name_ops(walk, around, test)?;
            let second = index + 1;
            walk_node(
                alloc, walk, core, plan, yes, second, around, turns, kept, loops,
            )?;
            let third = second + count_nodes(yes);
            walk_node(
                alloc, walk, core, plan, no, third, around, turns, kept, loops,
            )
        }
        Node::Load { mem, span, .. } => name_transfer(walk, around, span, *mem),
        Node::Store { mem, span, .. } => name_transfer(walk, around, span, *mem),
        Node::Sparse { .. } => Ok(()),
    }
}
