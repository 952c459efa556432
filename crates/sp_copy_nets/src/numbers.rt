//! The nets of numbers, from their promise to what drives them.
ghost use Rattle.std.specs.Prelude.{◌≡◌, ℕ, ◌≤◌, ◌<◌, [], ◌∷◌, List, length, slice_index, All, IfOk, OnOk};
ghost use Rattle.sp_netlist.specs.Signals.{Signals};
ghost use Rattle.sp_gates.specs.Grows.{Fills};
ghost use Rattle.sp_gates.specs.Nets.{HasNet};
ghost use Rattle.sp_gates.specs.Runs.{RunsOn};
ghost use Rattle.sp_plan.specs.PlainPlan.{PlainPlan};
ghost use Rattle.sp_op_nets.specs.Reserved.{Reserves};
ghost use Rattle.sp_tree_events.specs.CopiesStanding.{HaveNumbers};
ghost use Rattle.sp_copy_nets.specs.Fits.{AreCopied, AwaitNumbers, HasCopies, NumbersFit, Promises, given_nets, number_nets};
ghost use Rattle.sp_copy_nets.specs.Numbers.{AllNumbered, AreDepths, HaveComing, IsNumbered, StandNumbers};
ghost use Rattle.sp_copy_nets.specs.Table.{own_numbers, slot_numbers};

use crate::part::SlotNumbers;
use sp_beat_words::{Turn, emit_number};
use sp_gates::reserve;
use sp_netlist::{Builder, NetId, NoMemory};
use std::alloc::Global;

/// A promised net for the number of a memory's copy, of which there are so many. Of one copy there is none.
fn open_number(builder: &mut Builder, copies: u32) -> Result<Option<NetId>, NoMemory>
    requires { 1 ≤ copies }
    ensures copied { IfOk result (λ net. HasCopies copies net) }
    ensures promises { IfOk result (λ net. Promises builder.old builder.new (given_nets (net ∷ []))) }
{
    if copies == 1 {
        return Ok(None);
    }
    let net = reserve(builder, 32)?;
    Ok(Some(net))
}

/// Promised nets for one slot.
fn open_slot(alloc: Global, builder: &mut Builder, copies: &[u32]) -> Result<SlotNumbers, NoMemory>
    requires { All (λ n. 1 ≤ n) copies.now }
    ensures copied { IfOk result (λ slot. AreCopied copies.now slot.nets.items) }
    ensures promises { IfOk result (λ slot. Promises builder.old builder.new (given_nets slot.nets.items)) }
{
    let mut nets = Vec::new(alloc);
    for index in 0..copies.len() {
        let net = open_number(builder, copies[index])?;
        nets.push(net)?;
    }
    Ok(SlotNumbers { nets })
}

/// Promises for each of so many slots the nets of the numbers of copies of the memories that a loop owns, of each of which there
/// are so many copies.
pub fn open_numbers(
    alloc: Global,
    builder: &mut Builder,
    copies: &[u32],
    slots: usize,
) -> Result<Vec<SlotNumbers>, NoMemory>
    requires { All (λ n. 1 ≤ n) copies.now }
    ensures each { IfOk result (λ numbers. length numbers.items ≡ slots) }
    ensures fits { IfOk result (λ numbers. NumbersFit builder.new copies.now numbers.items) }
    ensures reserves { IfOk result (λ numbers. Reserves builder.old builder.new (number_nets numbers.items)) }
{
    let mut numbers = Vec::new(alloc);
    for _slot in 0..slots {
        let slot = open_slot(alloc, builder, copies)?;
        numbers.push(slot)?;
    }
    Ok(numbers)
}

/// Drives the net of a number, and gives one that has it in the slot's first cycle already.
fn close_number(
    builder: &mut Builder,
    start: NetId,
    first: NetId,
    copies: u32,
    net: Option<NetId>,
) -> Result<Option<NetId>, NoMemory>
    requires start { HasNet builder.old start 1 }
    requires first { HasNet builder.old first 1 }
    requires copied { HasCopies copies net }
    requires awaited { AwaitNumbers builder.old (given_nets (net ∷ [])) }
    ensures fills { OnOk result (Fills builder.old builder.new (given_nets (net ∷ []))) }
    ensures numbered { IfOk result (λ coming. IsNumbered builder.new start first copies net coming) }
{
    let Some(net) = net else {
        return Ok(None);
    };
    let coming = emit_number(builder, start, &Turn { first, copies, net })?;
    Ok(Some(coming))
}

/// Drives those of one slot.
fn close_slot(
    alloc: Global,
    builder: &mut Builder,
    start: NetId,
    first: NetId,
    copies: &[u32],
    slot: &SlotNumbers,
) -> Result<SlotNumbers, NoMemory>
    requires start { HasNet builder.old start 1 }
    requires first { HasNet builder.old first 1 }
    requires each { length copies.now ≡ length slot.now.nets.items }
    requires copied { AreCopied copies.now slot.now.nets.items }
    requires awaited { AwaitNumbers builder.old (given_nets slot.now.nets.items) }
    ensures fills { OnOk result (Fills builder.old builder.new (given_nets slot.now.nets.items)) }
    ensures numbered { IfOk result (λ coming. AllNumbered builder.new start first copies.now slot.now.nets.items coming.nets.items) }
{
    let mut nets = Vec::new(alloc);
    for index in 0..slot.nets.len() {
        let coming = close_number(builder, start, first, copies[index], slot.nets[index])?;
        nets.push(coming)?;
    }
    Ok(SlotNumbers { nets })
}

/// Drives the nets of numbers from the loop's start and the nets that are 1 where each slot gets a group. Gives for each slot nets
/// that have in these cycles already the numbers that come.
pub fn close_numbers(
    alloc: Global,
    builder: &mut Builder,
    start: NetId,
    firsts: &[NetId],
    copies: &[u32],
    numbers: &[SlotNumbers],
) -> Result<Vec<SlotNumbers>, NoMemory>
    requires start { HasNet builder.old start 1 }
    requires firsts { (x : ℕ) → x < length firsts.now → HasNet builder.old (slice_index firsts.now x) 1 }
    requires each { length firsts.now ≡ length numbers.now }
    requires fits { NumbersFit builder.old copies.now numbers.now }
    ensures fills { OnOk result (Fills builder.old builder.new (number_nets numbers.now)) }
    ensures numbers { OnOk result ((plan : PlainPlan) → (owned : List ℕ) → AreDepths plan owned copies.now → (s : Signals) → RunsOn s builder.new.cells → (x : ℕ) → x < length firsts.now → HaveNumbers plan s start (slice_index firsts.now x) owned (own_numbers owned (slot_numbers numbers.now x))) }
    ensures coming { IfOk result (λ coming. (plan : PlainPlan) → (owned : List ℕ) → AreDepths plan owned copies.now → (s : Signals) → RunsOn s builder.new.cells → (x : ℕ) → x < length firsts.now → HaveComing plan s start (slice_index firsts.now x) owned (own_numbers owned (slot_numbers coming.items x))) }
    ensures stand { IfOk result (λ coming. (x : ℕ) → x < length firsts.now → StandNumbers builder.new (slot_numbers coming.items x)) }
{
    let mut coming = Vec::new(alloc);
    for index in 0..numbers.len() {
        let slot = close_slot(
            alloc,
            builder,
            start,
            firsts[index],
            copies,
            &numbers[index],
        )?;
        coming.push(slot)?;
    }
    Ok(coming)
}
