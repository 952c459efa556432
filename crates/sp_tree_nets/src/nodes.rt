//! The circuit of a node.
ghost use Rattle.std.specs.Prelude.{◌≡◌, ℕ, ◌+◌, ◌<◌, [], ◌∷◌, length, map, slice_index, IfOk};
ghost use Rattle.sp_gates.specs.Nets.{HasNet};
ghost use Rattle.sp_core.specs.CoreParts.{plain_core};
ghost use Rattle.sp_core.specs.Plain.{plain_counter, plain_node, plain_stage_list};
ghost use Rattle.sp_op_nets.specs.Acted.{answers_in};
ghost use Rattle.sp_op_nets.specs.Reserved.{Reserves};
ghost use Rattle.sp_plan.specs.Plain.{plain_node_plan, plain_plan};
ghost use Rattle.sp_plan.specs.PlainPlan.{node_plan};
ghost use Rattle.sp_tree_handed.specs.Lists.{lists_in};
ghost use Rattle.sp_tree_handed.specs.Moves.{AreMovesStanding, slices_in, slices_in_stages};
ghost use Rattle.sp_tree_handed.specs.Standing.{AreListsStanding, HandedStand};
ghost use Rattle.sp_tree_nets.specs.Emitted.{CanEmit, IsTree};
ghost use Rattle.sp_tree_nets.specs.Loops.{CanEmitLoop, IsLoopTree, lists_of_loop};
ghost use Rattle.sp_tree_nets.specs.Stages.{AreStages, CanEmitStages, IsStage, LoopStands};

use crate::branches::{OpenBranch, begin_branch, branch_lists, end_branch};
use crate::loops::{OneStage, Stages, loop_lists, stage_places};
use crate::machines::{OpenMachine, begin_machine, end_machine, machine_lists, mem_ty};
use crate::moves::{append_moves, both_moves, emit_slice};
use crate::owners::{both_owners, loop_owners, loop_turns, machine_owners, no_owners};
use crate::tree::{TreeNets, append};
use sp_core::{Core, CoreCounter, Node, Stage};
use sp_gates::reserve;
use sp_inner_circuits::emit_inner;
use sp_list_circuits::emit_turns;
use sp_loop_circuits::{close_loop, loops_fit};
use sp_loop_nets::{OpenLoop, open_loop, rows_take_words, slot_table};
use sp_netlist::{Builder, Child, NetId, NoMemory};
use sp_op_nets::AroundNets;
use sp_plan::{NodePlan, Plan, count_nodes, count_numbers, counters_size};
use sp_stage_members::{StagePart, members_are_circuits, single_lanes_are_first};
use sp_tree_handed::stage_slots;
use std::alloc::Global;

/// What is decided of a node, by its number.
fn node_plan(plan: &Plan, index: u32) -> &NodePlan
    requires { index < length plan.now.nodes.items }
    ensures { plain_node_plan result.now ≡ node_plan (plain_plan plan.now) index }
{
    &plan.nodes[index as usize]
}

/// Emits the circuit of a node of a core, and of all nodes in it, by a plan. `index` is the number of the node in preorder, and
/// `number` that of its first operation; `around` has the nets of the counters around it, and `ends` those by which its transfers
/// are done, by the numbers of their nodes. Of a load or a store the nets of its slice alone are emitted; sparse transfers aren't.
#[cycle(tree)]
pub fn emit_node(
    alloc: Global,
    builder: &mut Builder,
    core: &Core,
    plan: &Plan,
    node: &Node,
    index: u32,
    number: u32,
    around: &[AroundNets],
    ends: &[Option<NetId>],
    start: NetId,
) -> Result<TreeNets, NoMemory>
    requires can { CanEmit builder.old (plain_core core.now) (plain_plan plan.now) around.now ends.now (plain_node node.now) index number }
    requires start { HasNet builder.old start 1 }
    ensures reserves { IfOk result (λ tree. Reserves builder.old builder.new (answers_in tree.acted.items)) }
    ensures start { IfOk result (λ tree. tree.child.start ≡ start) }
    ensures done { IfOk result (λ tree. HasNet builder.new tree.child.done 1) }
    ensures lists { IfOk result (λ tree. AreListsStanding builder.new (plain_core core.now) (lists_in (plain_node node.now) number) tree.acted.items) }
    ensures owners { IfOk result (λ tree. HandedStand builder.new (plain_core core.now) tree.owners) }
    ensures moves { IfOk result (λ tree. AreMovesStanding builder.new (slices_in (plain_node node.now) index) tree.moves.items) }
    ensures tree { IfOk result (λ tree. IsTree builder.old builder.new (plain_core core.now) (plain_plan plan.now) around.now ends.now (plain_node node.now) index number tree.child tree.acted.items tree.owners.turns.items tree.owners.kept.items tree.moves.items) }
{
    match node {
        Node::Inner { counters, ops, .. } => {
            let planned = node_plan(plan, index);
            let inner = emit_inner(
                alloc, builder, core, planned, counters, ops, number, around, start,
            )?;
            Ok(TreeNets {
                child: inner.child,
                acted: inner.acted,
                owners: no_owners(alloc),
                moves: Vec::new(alloc),
            })
        }
        Node::Branch { test, yes, no } => {
            let OpenBranch {
                test: turns,
                yes: yes_start,
                no: no_start,
            } = begin_branch(alloc, builder, core, test, number, around)?;
            let second = index + 1;
            let third = second + count_nodes(yes);
            let middle = number + test.len() as u32;
            let last = middle + count_numbers(yes);
            let one = emit_node(
                alloc, builder, core, plan, yes, second, middle, around, ends, yes_start,
            )?;
            let other = emit_node(
                alloc, builder, core, plan, no, third, last, around, ends, no_start,
            )?;
            let child = end_branch(
                alloc,
                builder,
                start,
                turns.child,
                turns.word,
                one.child,
                other.child,
            )?;
            let moves = both_moves(one.moves, other.moves)?;
            let acted = branch_lists(alloc, turns.acted, one.acted, other.acted)?;
            let owners = both_owners(one.owners, other.owners)?;
            Ok(TreeNets {
                child,
                acted,
                owners,
                moves,
            })
        }
        Node::Fsm {
            start: first,
            state,
            test,
            body,
            next,
        } => {
            let ty = mem_ty(core, *state);
            let OpenMachine {
                first: begins,
                test: tests,
                body: body_start,
                next: next_start,
            } = begin_machine(alloc, builder, core, first, ty, test, number, around)?;
            let middle = number + (first.len() + test.len()) as u32;
            let last = middle + count_numbers(body);
            let work = emit_node(
                alloc,
                builder,
                core,
                plan,
                body,
                index + 1,
                middle,
                around,
                ends,
                body_start,
            )?;
            let step = emit_turns(alloc, builder, core, next, ty, last, around, next_start)?;
            let child = end_machine(
                alloc,
                builder,
                start,
                begins.child,
                tests.child,
                tests.word,
                work.child,
                step.child,
            )?;
            let owners = machine_owners(alloc, *state, &begins, &step, work.owners)?;
            let acted = machine_lists(alloc, begins.acted, tests.acted, work.acted, step.acted)?;
            Ok(TreeNets {
                child,
                acted,
                owners,
                moves: work.moves,
            })
        }
        Node::Outer {
            counters,
            owned,
            stages,
            ..
        } => {
            let tree = emit_loop(
                alloc, stages, builder, core, plan, counters, owned, index, number, around, ends,
                start,
            )?;
            Ok(tree)
        }
        Node::Load { span, .. } => {
            let tree = emit_slice(alloc, builder, span, index, number, around, ends, start)?;
            Ok(tree)
        }
        Node::Store { span, .. } => {
            let tree = emit_slice(alloc, builder, span, index, number, around, ends, start)?;
            Ok(tree)
        }
        Node::Sparse { .. } => unreachable!(),
    }
}

/// Emits a loop with stages: its counters and its rows, its stages one after the other, and behind them what closes it.
#[cycle(tree)]
fn emit_loop(
    alloc: Global,
    stages: &[Stage],
    builder: &mut Builder,
    core: &Core,
    plan: &Plan,
    counters: &[CoreCounter],
    owned: &[u32],
    index: u32,
    number: u32,
    around: &[AroundNets],
    ends: &[Option<NetId>],
    start: NetId,
) -> Result<TreeNets, NoMemory>
    requires can { CanEmitLoop builder.old (plain_core core.now) (plain_plan plan.now) around.now ends.now (map plain_counter counters.now) owned.now (plain_stage_list stages.now) index number }
    requires start { HasNet builder.old start 1 }
    ensures reserves { IfOk result (λ tree. Reserves builder.old builder.new (answers_in tree.acted.items)) }
    ensures start { IfOk result (λ tree. tree.child.start ≡ start) }
    ensures done { IfOk result (λ tree. HasNet builder.new tree.child.done 1) }
    ensures lists { IfOk result (λ tree. AreListsStanding builder.new (plain_core core.now) (lists_of_loop (map plain_counter counters.now) (plain_stage_list stages.now) number) tree.acted.items) }
    ensures owners { IfOk result (λ tree. HandedStand builder.new (plain_core core.now) tree.owners) }
    ensures moves { IfOk result (λ tree. AreMovesStanding builder.new (slices_in_stages (plain_stage_list stages.now) (index + 1)) tree.moves.items) }
    ensures tree { IfOk result (λ tree. IsLoopTree builder.old builder.new (plain_core core.now) (plain_plan plan.now) around.now ends.now (map plain_counter counters.now) owned.now (plain_stage_list stages.now) index number tree.child tree.acted.items tree.owners.turns.items tree.owners.kept.items tree.moves.items) }
{
    loops_fit();
    single_lanes_are_first();
    members_are_circuits();
    rows_take_words();
    let planned = node_plan(plan, index);
    let places = stage_places(alloc, planned)?;
    let begun = open_loop(
        alloc,
        builder,
        counters,
        number,
        around,
        start,
        places.len(),
    )?;
    let next = number + counters_size(counters);
    let slots = stage_slots(planned);
    let inside = emit_stages(
        alloc,
        stages,
        builder,
        core,
        plan,
        &begun,
        slots,
        counters,
        index + 1,
        next,
        around,
        ends,
    )?;
    let closed = close_loop(alloc, builder, &begun, &inside.parts, &places)?;
    let child = Child {
        start,
        done: closed.done,
    };
    let own = loop_turns(alloc, start, owned, &closed.nets)?;
    let acted = loop_lists(begun.acted, inside.acted)?;
    let owners = loop_owners(alloc, own, inside.owners)?;
    Ok(TreeNets {
        child,
        acted,
        owners,
        moves: inside.moves,
    })
}

/// Emits the stages of a loop that was opened, each with the nets of its slot. `index` and `number` are those of the first one.
#[cycle(tree)]
fn emit_stages(
    alloc: Global,
    stages: &[Stage],
    builder: &mut Builder,
    core: &Core,
    plan: &Plan,
    begun: &OpenLoop,
    slots: &[u32],
    counters: &[CoreCounter],
    index: u32,
    number: u32,
    around: &[AroundNets],
    ends: &[Option<NetId>],
) -> Result<Stages, NoMemory>
    requires can { CanEmitStages builder.old (plain_core core.now) (plain_plan plan.now) around.now ends.now (map plain_counter counters.now) (plain_stage_list stages.now) index number }
    requires loop_stands { LoopStands builder.old begun.now (map plain_counter counters.now) }
    requires each { length slots.now ≡ length stages.now }
    requires slots { (m : ℕ) → m < length slots.now → slice_index slots.now m < length begun.now.rows.rows.items }
    ensures { IfOk result (λ all. AreStages builder.old builder.new (plain_core core.now) (plain_plan plan.now) around.now ends.now begun.now (map plain_counter counters.now) (plain_stage_list stages.now) slots.now index number all.parts.items all.acted.items all.owners.turns.items all.owners.kept.items all.moves.items) }
{
    let mut parts = Vec::new(alloc);
    let mut acted = Vec::new(alloc);
    let mut owners = no_owners(alloc);
    let mut moves = Vec::new(alloc);
    let mut at: usize = 0;
    let mut second = index;
    let mut next = number;
    for stage in stages {
        let slot = slots[at] as usize;
        let one = emit_stage(
            alloc, stage, builder, core, plan, begun, slot, counters, second, next, around, ends,
        )?;
        parts.push(one.part)?;
        append(&mut acted, one.acted)?;
        append_moves(&mut moves, one.moves)?;
        owners = both_owners(owners, one.owners)?;
        at += 1;
        second += count_nodes(&stage.node);
        next += count_numbers(&stage.node);
    }
    Ok(Stages {
        parts,
        acted,
        owners,
        moves,
    })
}

/// Emits a stage of a loop that was opened, with the nets of its slot.
#[cycle(tree)]
fn emit_stage(
    alloc: Global,
    stage: &Stage,
    builder: &mut Builder,
    core: &Core,
    plan: &Plan,
    begun: &OpenLoop,
    slot: usize,
    counters: &[CoreCounter],
    index: u32,
    number: u32,
    around: &[AroundNets],
    ends: &[Option<NetId>],
) -> Result<OneStage, NoMemory>
    requires can { CanEmitStages builder.old (plain_core core.now) (plain_plan plan.now) around.now ends.now (map plain_counter counters.now) (plain_stage_list (stage.now ∷ [])) index number }
    requires loop_stands { LoopStands builder.old begun.now (map plain_counter counters.now) }
    requires slot { slot < length begun.now.rows.rows.items }
    ensures { IfOk result (λ one. IsStage builder.old builder.new (plain_core core.now) (plain_plan plan.now) around.now ends.now begun.now (map plain_counter counters.now) stage.now.first stage.now.last (plain_node stage.now.node) slot index number one.part one.acted.items one.owners.turns.items one.owners.kept.items one.moves.items) }
{
    let start = reserve(builder, 1)?;
    let rows = &begun.rows.rows;
    let table = slot_table(alloc, around, counters, &begun.nets, rows, slot)?;
    let tree = emit_node(
        alloc,
        builder,
        core,
        plan,
        &stage.node,
        index,
        number,
        &table,
        ends,
        start,
    )?;
    let part = StagePart {
        child: tree.child,
        first: stage.first,
        last: stage.last,
    };
    Ok(OneStage {
        part,
        acted: tree.acted,
        owners: tree.owners,
        moves: tree.moves,
    })
}
