//! A combination that stands once, after all lanes.

ghost use Rattle.std.specs.Prelude.{◌≡◌, ◌≤◌, ◌+◌, ◌-◌, ◌++◌, ◌∷◌, [], List, Some, if◌then◌else◌, map, length, slice_index, IfOk, OnOk};
ghost use Rattle.sp_core.specs.Plain.{plain_op, plain_ops, plain_counter};
ghost use Rattle.sp_core.specs.PlainCore.{PlainOp};
ghost use Rattle.sp_lanes.specs.Combined.{meeting, takes, count_up_to, is_choice, without_first, first_place, last_op, after_joined, meeting_in_order, in_order};
ghost use Rattle.sp_lanes.specs.Unrolled.{ops_in_lanes, inner_ops};
ghost use Rattle.sp_unroll.specs.Bodies.{plain_body};
ghost use Rattle.sp_unroll.specs.Entries.{within_of};
ghost use Rattle.sp_unroll.specs.Words.{plain_word, plain_meeting, met_first, combined_at, here_of};

use crate::NoMemory;
use crate::bodies::{Body, first_places, lane_bodies, last_number, next_place, number_at};
use crate::joined::{Joiner, LaneWord, is_balanced, lane_words, push_met, push_rounds};
use crate::moved::{Ended, Move, here, push_moved};
use crate::order::lanes_of;
use crate::renamed::ops_in;
use crate::within::{Within, in_lane};
use sp_core::{CoreCounter, Op, OpKind};
use sp_words::{BinOp, Ty};
use std::alloc::{AllocError, Global};

/// The operator of a combination, its type, and the place of the word that it combines.
#[derive(Clone, Copy, Debug, Drop)]
pub(crate) struct Meeting {
    pub(crate) operator: BinOp,
    pub(crate) ty: Ty,
    pub(crate) word: u32,
}

/// The meeting of an operation that is an operator.
fn meeting_of(op: &Op) -> Option<Meeting>
    ensures { (rest : List PlainOp) → meeting (plain_op op.now ∷ rest) ≡ met_first result (meeting rest) }
{
    match op.kind {
        OpKind::Two(operator) => Some(Meeting {
            operator,
            ty: op.ty,
            word: number_at(&op.args, 1),
        }),
        _ => None,
    }
}

/// That of the first operator.
fn first_meeting(ops: &[Op]) -> Meeting
    ensures { plain_meeting result ≡ meeting (plain_ops ops.now) }
{
    for op in ops {
        if let Some(found) = meeting_of(op) {
            return found;
        }
    }
    Meeting {
        operator: BinOp::Add,
        ty: Ty::Bit,
        word: 0,
    }
}

fn takes(word: u32, op: &Op) -> bool
    ensures { result ≡ takes word (plain_op op.now) }
{
    for a in &op.args {
        if *a == word {
            return true;
        }
    }
    false
}

/// The count after an operation, which is the last one so far if it takes the word.
fn count_after(word: u32, op: &Op, count: usize, next: usize) -> usize
    ensures { result ≡ (if takes word (plain_op op.now) then next else count) }
{
    if takes(word, op) { next } else { count }
}

/// How many operations there are up to the last one that takes a word.
fn count_up_to(word: u32, ops: &[Op]) -> usize
    ensures count { result ≡ count_up_to word (plain_ops ops.now) }
    ensures inside { result ≤ length ops.now }
{
    let mut count = 0;
    for i in 0..ops.len() {
        count = count_after(word, &ops[i], count, i + 1);
    }
    count
}

fn is_choice(kind: OpKind) -> bool
    ensures { result ≡ is_choice kind }
{
    match kind {
        OpKind::Mux => true,
        _ => false,
    }
}

fn without_first(words: &[LaneWord]) -> &[LaneWord]
    ensures { map plain_word result.now ≡ without_first (map plain_word words.now) }
{
    match words {
        [_, rest @ ..] => rest,
        [] => words,
    }
}

fn first_place(words: &[LaneWord]) -> u32
    ensures { result ≡ first_place (map plain_word words.now) }
{
    match words.first() {
        Some(word) => word.place,
        None => 0,
    }
}

/// Whether the last of some operations is a choice; so where there is none.
fn is_last_choice(part: &[Op]) -> bool
    ensures { result ≡ is_choice (last_op (plain_ops part.now)).kind }
{
    if part.is_empty() {
        return true;
    }
    is_choice(part[part.len() - 1].kind)
}

/// The place of the first operand of the last one.
fn last_left(part: &[Op]) -> u32
    ensures { result ≡ slice_index (last_op (plain_ops part.now)).args 0 }
{
    if part.is_empty() {
        return 0;
    }
    number_at(&part[part.len() - 1].args, 0)
}

/// Appends the joined words of lanes, and then the combination of their word.
fn push_after_joined(
    alloc: Global,
    ops: &mut Vec<Op>,
    lanes: &[Body],
    counter: u32,
    first: u32,
    m: Meeting,
    words: &[LaneWord],
    combination: &[Op],
) -> Result<(), NoMemory>
    ensures { OnOk result (plain_ops ops.new.items ≡ plain_ops ops.old.items ++ after_joined counter first (map plain_body lanes.now) (length (plain_ops ops.old.items)) (plain_meeting m) (map plain_word words.now) (plain_ops combination.now)) }
{
    let by = Joiner {
        counter,
        op: m.operator,
        ty: m.ty,
    };
    let joined = push_rounds(alloc, ops, by, words.len(), words)?;
    let places = first_places(alloc, lanes)?;
    let at = next_place(ops)?;
    let to = first_place(&joined);
    let moved = Move {
        first,
        at,
        word: m.word,
        to,
    };
    push_moved(alloc, ops, moved, None, &places, combination)?;
    Ok(())
}

/// Appends operations of a combination, the words that meet what stands at a place one after the other, and what comes
/// after.
fn push_in_turn(
    alloc: Global,
    ops: &mut Vec<Op>,
    counter: u32,
    m: Meeting,
    moved: Move,
    places: &[u32],
    before: &[Op],
    left: u32,
    words: &[LaneWord],
    ended: u32,
    after: &[Op],
) -> Result<(), NoMemory>
    ensures { OnOk result (plain_ops ops.new.items ≡ plain_ops ops.old.items ++ meeting_in_order counter moved.first [] (length (plain_ops ops.old.items)) (plain_meeting m) (here_of moved places.now) (plain_ops before.now) left (map plain_word words.now) ended (plain_ops after.now)) }
{
    push_moved(alloc, ops, moved, None, places, before)?;
    let by = Joiner {
        counter,
        op: m.operator,
        ty: m.ty,
    };
    push_met(alloc, ops, by, left, words)?;
    let next = next_place(ops)?;
    let stands = next.saturating_sub(1);
    let end = Some(Ended { ended, stands });
    push_moved(alloc, ops, moved, end, places, after)?;
    Ok(())
}

/// The place of the last of so many operations from a place on.
fn last_place(from: u32, count: usize) -> Result<u32, NoMemory>
    ensures { IfOk result (λ place. place ≡ from + count - 1) }
{
    let end = (from as usize).checked_add(count).ok_or(AllocError)?;
    let place = end.saturating_sub(1);
    if place > u32::MAX as usize {
        return Err(AllocError);
    }
    Ok(place as u32)
}

/// Appends a combination in which the words of lanes meet the accumulator in order.
fn push_in_order(
    alloc: Global,
    ops: &mut Vec<Op>,
    lanes: &[Body],
    counter: u32,
    first: u32,
    m: Meeting,
    words: &[LaneWord],
    combination: &[Op],
) -> Result<(), NoMemory>
    ensures { OnOk result (plain_ops ops.new.items ≡ plain_ops ops.old.items ++ in_order counter first (map plain_body lanes.now) (length (plain_ops ops.old.items)) (plain_meeting m) (map plain_word words.now) (plain_ops combination.now)) }
{
    let count = count_up_to(m.word, combination);
    let places = first_places(alloc, lanes)?;
    let at = next_place(ops)?;
    let to = first_place(words);
    let moved = Move {
        first,
        at,
        word: m.word,
        to,
    };
    let ended = last_place(first, count)?;
    let part = &combination[..count];
    let after = &combination[count..];
    if is_last_choice(part) {
        let left = last_place(at, count)?;
        let others = without_first(words);
        push_in_turn(
            alloc, ops, counter, m, moved, &places, part, left, others, ended, after,
        )?;
        return Ok(());
    }
    let left = here(moved, &places, last_left(part))?;
    let before = &combination[..count.saturating_sub(1)];
    push_in_turn(
        alloc, ops, counter, m, moved, &places, before, left, words, ended, after,
    )?;
    Ok(())
}

/// Appends a combination after the bodies of all lanes.
fn push_combined(
    alloc: Global,
    ops: &mut Vec<Op>,
    lanes: &[Body],
    counter: u32,
    first: u32,
    combination: &[Op],
) -> Result<(), NoMemory>
    ensures { OnOk result (plain_ops ops.new.items ≡ plain_ops ops.old.items ++ combined_at counter first (map plain_body lanes.now) (length (plain_ops ops.old.items)) (plain_ops combination.now)) }
{
    let m = first_meeting(combination);
    let words = lane_words(alloc, m.word, lanes)?;
    if is_balanced(m.operator, m.ty) {
        push_after_joined(alloc, ops, lanes, counter, first, m, &words, combination)?;
        return Ok(());
    }
    push_in_order(alloc, ops, lanes, counter, first, m, &words, combination)?;
    Ok(())
}

/// The operations of a body and of its combination, which begins at a place.
fn with_combination(
    alloc: Global,
    order: &[u32],
    w: &Within,
    counters: &[CoreCounter],
    owned: &[u32],
    ops: &[Op],
    first: u32,
) -> Result<Vec<Op>, NoMemory>
    ensures { IfOk result (λ all. plain_ops all.items ≡ ops_in_lanes order.now (within_of order.now w.now) (map plain_counter counters.now) owned.now (plain_ops ops.now) (Some first)) }
{
    let counter = last_number(counters);
    let cut = ops.len().min(first as usize);
    let mut all = Vec::new(alloc);
    let lanes = lane_bodies(alloc, order, counters, owned, w, &ops[..cut], &mut all)?;
    let inside = in_lane(alloc, order, counters, owned, w, 0)?;
    let combination = ops_in(alloc, order, &inside, &ops[cut..])?;
    push_combined(alloc, &mut all, &lanes, counter, first, &combination)?;
    Ok(all)
}

/// The operations of a body in all lanes of a controller.
pub(crate) fn ops_in_lanes(
    alloc: Global,
    order: &[u32],
    w: &Within,
    counters: &[CoreCounter],
    owned: &[u32],
    ops: &[Op],
    comb: Option<u32>,
) -> Result<Vec<Op>, NoMemory>
    ensures { IfOk result (λ all. plain_ops all.items ≡ ops_in_lanes order.now (within_of order.now w.now) (map plain_counter counters.now) owned.now (plain_ops ops.now) comb) }
{
    match comb {
        None => {
            let mut all = Vec::new(alloc);
            let _lanes = lane_bodies(alloc, order, counters, owned, w, ops, &mut all)?;
            Ok(all)
        }
        Some(first) => {
            let all = with_combination(alloc, order, w, counters, owned, ops, first)?;
            Ok(all)
        }
    }
}

/// The operations of an inner body, which is left as it is where it has one lane.
pub(crate) fn inner_ops(
    alloc: Global,
    order: &[u32],
    w: &Within,
    counters: &[CoreCounter],
    owned: &[u32],
    ops: &[Op],
    comb: Option<u32>,
) -> Result<Vec<Op>, NoMemory>
    ensures { IfOk result (λ all. plain_ops all.items ≡ inner_ops order.now (within_of order.now w.now) (map plain_counter counters.now) owned.now (plain_ops ops.now) comb) }
{
    if lanes_of(counters) == 1 {
        let inside = in_lane(alloc, order, counters, owned, w, 0)?;
        let all = ops_in(alloc, order, &inside, ops)?;
        return Ok(all);
    }
    let all = ops_in_lanes(alloc, order, w, counters, owned, ops, comb)?;
    Ok(all)
}
