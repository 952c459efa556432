//! Slots that work at once.
ghost use Rattle.std.specs.Prelude.{◌≡◌, ℕ, [], ◌∷◌, ◌++◌, IfOk, OnOk};
ghost use Rattle.sp_netlist.specs.Signals.{Signals};
ghost use Rattle.sp_gates.specs.Bits.{IsOne};
ghost use Rattle.sp_gates.specs.Grows.{Fills};
ghost use Rattle.sp_gates.specs.Nets.{HasNet};
ghost use Rattle.sp_gates.specs.Runs.{RunsOn};
ghost use Rattle.sp_gates.specs.Tested.{is_on};
ghost use Rattle.sp_sequence.specs.Fits.{AreChains, AreSlots, chain_starts, slot_starts};
ghost use Rattle.sp_sequence.specs.Slots.{AreFirsts};
ghost use Rattle.sp_beats.specs.Beats.{RunsSlot, StartsSlots, has_group, some_comes, slots_over};

use sp_gates::{drive_after, on_both, on_either, on_not, reserve};
use sp_netlist::{Builder, NetId, NoMemory};
use sp_sequence::{Slot, emit_chains};
use std::alloc::Global;

/// The nets of a slot: its first cycles, whether it has a group, and whether it is over.
#[derive(Clone, Copy, Debug)]
struct SlotNets {
    first: NetId,
    has: NetId,
    over: NetId,
}

/// The nets of slots: whether a group comes to one of them, whether all are over, and their first cycles.
#[derive(Debug, Drop)]
pub(crate) struct Run {
    pub(crate) comes: NetId,
    pub(crate) over: NetId,
    pub(crate) firsts: Vec<NetId>,
}

/// A net that is 1 from the cycle after a step in which a group comes up to the next step or start.
fn keep_group(
    builder: &mut Builder,
    start: NetId,
    step: NetId,
    comes: NetId,
    one: NetId,
) -> Result<NetId, NoMemory>
    requires start { HasNet builder.old start 1 }
    requires step { HasNet builder.old step 1 }
    requires comes { HasNet builder.old comes 1 }
    requires one { IsOne builder.old one }
    ensures fills { OnOk result (Fills builder.old builder.new []) }
    ensures net { IfOk result (λ has. HasNet builder.new has 1) }
    ensures has { IfOk result (λ has. (s : Signals) → RunsOn s builder.new.cells → (t : ℕ) → is_on s has t ≡ has_group (is_on s start) (is_on s step) (is_on s comes) t) }
{
    let has = reserve(builder, 1)?;
    let new = on_both(builder, step, comes)?;
    let still = on_not(builder, step)?;
    let old = on_both(builder, still, has)?;
    let some = on_either(builder, new, old)?;
    let stays = on_not(builder, start)?;
    let next = on_both(builder, some, stays)?;
    drive_after(builder, has, next, one)?;
    Ok(has)
}

/// Runs the chains of a slot in each beat in which it has a group.
fn run_slot(
    builder: &mut Builder,
    start: NetId,
    step: NetId,
    comes: NetId,
    slot: &Slot,
    one: NetId,
) -> Result<SlotNets, NoMemory>
    requires start { HasNet builder.old start 1 }
    requires step { HasNet builder.old step 1 }
    requires comes { HasNet builder.old comes 1 }
    requires slot { AreChains builder.old slot.now.chains.items }
    requires one { IsOne builder.old one }
    ensures fills { OnOk result (Fills builder.old builder.new (chain_starts slot.now.chains.items)) }
    ensures first { IfOk result (λ nets. HasNet builder.new nets.first 1) }
    ensures has { IfOk result (λ nets. HasNet builder.new nets.has 1) }
    ensures over { IfOk result (λ nets. HasNet builder.new nets.over 1) }
    ensures runs { IfOk result (λ nets. (s : Signals) → RunsOn s builder.new.cells → RunsSlot s (is_on s start) (is_on s step) (is_on s comes) slot.now nets.first nets.has nets.over) }
{
    let first = on_both(builder, step, comes)?;
    let has = keep_group(builder, start, step, comes, one)?;
    let all = emit_chains(builder, first, &slot.chains, one)?;
    let without = on_not(builder, has)?;
    let over = on_either(builder, all, without)?;
    Ok(SlotNets { first, has, over })
}

/// Runs slots, to the first of which a group comes where `comes` is 1, and to each other one that of the slot before it.
pub(crate) fn run_slots(
    alloc: Global,
    builder: &mut Builder,
    start: NetId,
    step: NetId,
    comes: NetId,
    slots: &[Slot],
    one: NetId,
) -> Result<Run, NoMemory>
    requires start { HasNet builder.old start 1 }
    requires step { HasNet builder.old step 1 }
    requires comes { HasNet builder.old comes 1 }
    requires slots { AreSlots builder.old slots.now }
    requires one { IsOne builder.old one }
    ensures fills { OnOk result (Fills builder.old builder.new (slot_starts slots.now)) }
    ensures comes_net { IfOk result (λ run. HasNet builder.new run.comes 1) }
    ensures over_net { IfOk result (λ run. HasNet builder.new run.over 1) }
    ensures firsts { IfOk result (λ run. AreFirsts builder.new slots.now run.firsts.items) }
    ensures comes { IfOk result (λ run. (s : Signals) → RunsOn s builder.new.cells → (t : ℕ) → is_on s run.comes t ≡ some_comes (is_on s start) (is_on s step) (is_on s comes) slots.now t) }
    ensures over { IfOk result (λ run. (s : Signals) → RunsOn s builder.new.cells → (t : ℕ) → is_on s run.over t ≡ slots_over (is_on s start) (is_on s step) s (is_on s comes) slots.now t) }
    ensures starts { IfOk result (λ run. (s : Signals) → RunsOn s builder.new.cells → StartsSlots (is_on s start) (is_on s step) s (is_on s comes) slots.now run.firsts.items) }
{
    let [slot, rest @ ..] = slots else {
        let none = on_not(builder, one)?;
        return Ok(Run {
            comes: none,
            over: one,
            firsts: Vec::new(alloc),
        });
    };
    let own = run_slot(builder, start, step, comes, slot, one)?;
    let others = run_slots(alloc, builder, start, step, own.has, rest, one)?;
    let some = on_either(builder, comes, others.comes)?;
    let all = on_both(builder, own.over, others.over)?;
    let mut firsts = others.firsts;
    firsts.insert(0, own.first)?;
    Ok(Run {
        comes: some,
        over: all,
        firsts,
    })
}
