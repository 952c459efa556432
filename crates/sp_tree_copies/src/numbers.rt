//! The nets of the numbers of copies, loop by loop.
ghost use Rattle.std.specs.Prelude.{◌≡◌, ℕ, max, [], ◌∷◌, map, All, IfOk, OnOk};
ghost use Rattle.std.specs.List.{AllZip};
ghost use Rattle.sp_netlist.specs.Signals.{Signals};
ghost use Rattle.sp_gates.specs.Grows.{Fills};
ghost use Rattle.sp_gates.specs.Runs.{RunsOn};
ghost use Rattle.sp_plan.specs.Plain.{plain_plan};
ghost use Rattle.sp_plan.specs.PlainPlan.{mem_plan};
ghost use Rattle.sp_tree_handed.specs.Standing.{TurnsStand};
ghost use Rattle.sp_tree_copies.specs.Loops.{HasCopies, CopiesStand, some_copies};

use sp_copy_nets::{SlotNumbers, close_numbers, numbers_stand, open_numbers};
use sp_netlist::{Builder, NoMemory};
use sp_op_nets::reserved_are_driven;
use sp_plan::Plan;
use sp_tree_handed::LoopTurns;
use std::alloc::Global;

/// For each slot of a loop the nets of the numbers of copies of the memories that it owns: while the slot has a group, and, where it
/// gets one, those that come.
#[derive(Debug, Drop)]
pub(crate) struct LoopCopies {
    pub numbers: Vec<SlotNumbers>,
    pub coming: Vec<SlotNumbers>,
}

/// How many copies a memory has, and one for a memory of which the plan has none.
fn copies_of(plan: &Plan, m: u32) -> u32
    ensures { result ≡ some_copies (plain_plan plan.now) m }
{
    match plan.mems.get(m as usize) {
        Some(mem) => mem.depth.max(1),
        None => 1,
    }
}

/// How many copies each of these memories has.
fn copies_of_all(alloc: Global, plan: &Plan, owned: &[u32]) -> Result<Vec<u32>, NoMemory>
    ensures { IfOk result (λ copies. copies.items ≡ map (some_copies (plain_plan plan.now)) owned.now) }
{
    let mut copies = Vec::new(alloc);
    for index in 0..owned.len() {
        copies.push(copies_of(plan, owned[index]))?;
    }
    Ok(copies)
}

/// The numbers of a loop.
fn loop_numbers(
    alloc: Global,
    builder: &mut Builder,
    plan: &Plan,
    turns: &LoopTurns,
) -> Result<LoopCopies, NoMemory>
    requires { TurnsStand builder.old turns.now }
    ensures fills { OnOk result (Fills builder.old builder.new []) }
    ensures copies { IfOk result (λ copies. (s : Signals) → RunsOn s builder.new.cells → HasCopies (plain_plan plan.now) s turns.now copies) }
    ensures stand { IfOk result (λ copies. CopiesStand builder.new copies) }
{
    numbers_stand();
    reserved_are_driven();
    let copies = copies_of_all(alloc, plan, &turns.owned)?;
    let numbers = open_numbers(alloc, builder, &copies, turns.firsts.len())?;
    let coming = close_numbers(
        alloc,
        builder,
        turns.start,
        &turns.firsts,
        &copies,
        &numbers,
    )?;
    Ok(LoopCopies { numbers, coming })
}

/// The numbers of copies of the memories that loops own, loop by loop.
pub(crate) fn emit_numbers(
    alloc: Global,
    builder: &mut Builder,
    plan: &Plan,
    turns: &[LoopTurns],
) -> Result<Vec<LoopCopies>, NoMemory>
    requires { All (TurnsStand builder.old) turns.now }
    ensures fills { OnOk result (Fills builder.old builder.new []) }
    ensures copies { IfOk result (λ all. (s : Signals) → RunsOn s builder.new.cells → AllZip (HasCopies (plain_plan plan.now) s) turns.now all.items) }
    ensures stand { IfOk result (λ all. All (CopiesStand builder.new) all.items) }
{
    let mut all = Vec::new(alloc);
    for own in turns {
        let copies = loop_numbers(alloc, builder, plan, own)?;
        all.push(copies)?;
    }
    Ok(all)
}
