//! The circuit of a whole core.
ghost use Rattle.std.specs.Prelude.{◌≡◌, IfOk};
ghost use Rattle.sp_gates.specs.Nets.{HasNet};
ghost use Rattle.sp_core.specs.CoreParts.{plain_core};
ghost use Rattle.sp_plan.specs.Plain.{plain_plan};
ghost use Rattle.sp_op_nets.specs.Acted.{answers_in};
ghost use Rattle.sp_op_nets.specs.Reserved.{Reserves};
ghost use Rattle.sp_tree_handed.specs.Lists.{lists_in};
ghost use Rattle.sp_tree_handed.specs.Moves.{AreMovesStanding, HaveEnds, slices_in};
ghost use Rattle.sp_tree_handed.specs.Standing.{AreListsStanding, HandedStand};
ghost use Rattle.sp_tree_nets.specs.Whole.{HasTreePlan, IsWhole};

use crate::nodes::emit_node;
use crate::tree::TreeNets;
use sp_core::Core;
use sp_netlist::{Builder, NetId, NoMemory};
use sp_op_nets::AroundNets;
use sp_plan::Plan;
use sp_plan_times::plans_leave_time;
use sp_stage_places::plans_have_places;
use std::alloc::Global;

/// Emits the circuit of a core's whole tree by a valid plan. It is started where `start` is 1. `ends` has the nets by which
/// its transfers are done, by the numbers of their nodes.
pub fn emit_core(
    alloc: Global,
    builder: &mut Builder,
    core: &Core,
    plan: &Plan,
    ends: &[Option<NetId>],
    start: NetId,
) -> Result<TreeNets, NoMemory>
    requires plan { HasTreePlan (plain_core core.now) (plain_plan plan.now) }
    requires ends { HaveEnds builder.old ends.now (plain_core core.now).root 0 }
    requires start { HasNet builder.old start 1 }
    ensures reserves { IfOk result (λ tree. Reserves builder.old builder.new (answers_in tree.acted.items)) }
    ensures start { IfOk result (λ tree. tree.child.start ≡ start) }
    ensures done { IfOk result (λ tree. HasNet builder.new tree.child.done 1) }
    ensures lists { IfOk result (λ tree. AreListsStanding builder.new (plain_core core.now) (lists_in (plain_core core.now).root 0) tree.acted.items) }
    ensures owners { IfOk result (λ tree. HandedStand builder.new (plain_core core.now) tree.owners) }
    ensures moves { IfOk result (λ tree. AreMovesStanding builder.new (slices_in (plain_core core.now).root 0) tree.moves.items) }
    ensures whole { IfOk result (λ tree. IsWhole builder.new (plain_core core.now) (plain_plan plan.now) ends.now tree.child tree.acted.items tree.owners.turns.items tree.owners.kept.items tree.moves.items) }
{
    plans_leave_time();
    plans_have_places();
    let root = core.root();
    let around: Vec<AroundNets> = Vec::new(alloc);
    let tree = emit_node(alloc, builder, core, plan, root, 0, 0, &around, ends, start)?;
    Ok(tree)
}
