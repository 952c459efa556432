//! The bodies of lanes, one after the other in one list of operations.

ghost use Rattle.std.specs.Prelude.{◌≡◌, ◌+◌, ◌++◌, ◌∷◌, [], ℕ, Bool, List, Option, map, length, slice_index, IfOk, OnOk};
ghost use Rattle.std.specs.Option.{option_map};
ghost use Rattle.sp_core.specs.Around.{lanes_of};
ghost use Rattle.sp_core.specs.Plain.{plain_op, plain_ops, plain_counter};
ghost use Rattle.sp_core.specs.PlainCore.{PlainOp};
ghost use Rattle.sp_lanes.specs.Bodies as plain;
ghost use Rattle.sp_lanes.specs.Bodies.{under, masked, in_mask, at_places, standing, nowhere, lane_from, all_ops};
ghost use Rattle.sp_lanes.specs.Combined.{first_places};
ghost use Rattle.sp_lanes.specs.Shared as lane_shared;
ghost use Rattle.sp_lanes.specs.Unrolled.{last_number};
ghost use Rattle.sp_lanes.specs.Within.{in_lane, op_in};
ghost use Rattle.sp_unroll.specs.Bodies.{plain_body, bare, before};
ghost use Rattle.sp_unroll.specs.Entries.{within_of};

use crate::NoMemory;
use crate::order::lanes_of;
use crate::renamed::op_in;
use crate::shared::shared;
use crate::within::{Within, in_lane};
use sp_core::{CoreCounter, Op, OpKind};
use sp_words::{BinOp, Ty};
use std::alloc::{AllocError, Global};

/// A body in one lane: the place of its mask, and where each operation of the core stands.
#[derive(Debug, Drop)]
pub(crate) struct Body {
    pub(crate) mask: u32,
    pub(crate) places: Vec<u32>,
}

/// The place of the next operation of a list.
pub(crate) fn next_place(ops: &[Op]) -> Result<u32, NoMemory>
    ensures { IfOk result (λ place. place ≡ length (plain_ops ops.now)) }
{
    let place = ops.len();
    if place > u32::MAX as usize {
        return Err(AllocError);
    }
    Ok(place as u32)
}

/// Appends an operation, and tells its place.
pub(crate) fn push_op(ops: &mut Vec<Op>, op: Op) -> Result<u32, NoMemory>
    ensures ops { OnOk result (plain_ops ops.new.items ≡ plain_ops ops.old.items ++ plain_op op ∷ []) }
    ensures place { IfOk result (λ place. place ≡ length (plain_ops ops.old.items)) }
    ensures last { IfOk result (λ place. place + 1 ≡ length (plain_ops ops.new.items)) }
{
    let place = next_place(ops)?;
    ops.push(op)?;
    Ok(place)
}

/// An operation on words at these places.
pub(crate) fn computes(kind: OpKind, ty: Ty, args: Vec<u32>) -> Op
    ensures { plain_op result ≡ plain.computes kind ty args.items }
{
    Op {
        kind,
        ty,
        args,
        mem: None,
        mask: None,
    }
}

/// Whether some lane from the first to the last of a controller has an iteration.
pub(crate) fn live_op(alloc: Global, counter: u32, first: u32, last: u32) -> Op
    ensures { plain_op result ≡ plain.live_op counter first last }
{
    computes(OpKind::Live(counter, first, last), Ty::Bit, Vec::new(alloc))
}

fn under(mask: u32, op: Op) -> Op
    ensures { plain_op result ≡ under mask (plain_op op) }
{
    Op {
        kind: op.kind,
        ty: op.ty,
        args: op.args,
        mem: op.mem,
        mask: Some(mask),
    }
}

/// Appends an access under the lane's mask, and under its own too if it has one; tells where it stands.
fn push_masked(alloc: Global, ops: &mut Vec<Op>, live: u32, op: Op) -> Result<u32, NoMemory>
    ensures ops { OnOk result (plain_ops ops.new.items ≡ plain_ops ops.old.items ++ masked live (length (plain_ops ops.old.items)) op.mask (plain_op op)) }
    ensures place { IfOk result (λ place. place + 1 ≡ length (plain_ops ops.new.items)) }
{
    match op.mask {
        None => {
            let place = push_op(ops, under(live, op))?;
            Ok(place)
        }
        Some(own) => {
            let both = computes(OpKind::Two(BinOp::And), Ty::Bit, vec![in alloc; live, own]?);
            let at = push_op(ops, both)?;
            let place = push_op(ops, under(at, op))?;
            Ok(place)
        }
    }
}

/// Appends an operation of a lane, and tells where it stands.
fn push_in_mask(alloc: Global, ops: &mut Vec<Op>, live: u32, op: Op) -> Result<u32, NoMemory>
    ensures ops { OnOk result (plain_ops ops.new.items ≡ plain_ops ops.old.items ++ in_mask live (length (plain_ops ops.old.items)) op.mem (plain_op op)) }
    ensures place { IfOk result (λ place. place + 1 ≡ length (plain_ops ops.new.items)) }
{
    match op.mem {
        None => {
            let place = push_op(ops, op)?;
            Ok(place)
        }
        Some(_) => {
            let place = push_masked(alloc, ops, live, op)?;
            Ok(place)
        }
    }
}

/// Where the operation at a place stands; 0 where there is none.
pub(crate) fn number_at(numbers: &[u32], place: u32) -> u32
    ensures { result ≡ slice_index numbers.now place }
{
    match numbers.get(place as usize) {
        Some(n) => *n,
        None => 0,
    }
}

fn numbers_at(alloc: Global, numbers: &[u32], all: &[u32]) -> Result<Vec<u32>, NoMemory>
    ensures { IfOk result (λ found. found.items ≡ map (slice_index numbers.now) all.now) }
{
    let mut found = Vec::new(alloc);
    for place in all {
        found.push(number_at(numbers, *place))?;
    }
    Ok(found)
}

/// The same operation where its operands stand at other places.
fn at_places(alloc: Global, places: &[u32], op: Op) -> Result<Op, NoMemory>
    ensures { IfOk result (λ made. plain_op made ≡ at_places places.now (plain_op op)) }
{
    let args = numbers_at(alloc, places, &op.args)?;
    let mask = match op.mask {
        None => None,
        Some(k) => Some(number_at(places, k)),
    };
    Ok(Op {
        kind: op.kind,
        ty: op.ty,
        args,
        mem: op.mem,
        mask,
    })
}

/// Appends an operation of a body in a lane, after those whose places are these, and tells where it stands.
fn push_in_lane(
    alloc: Global,
    order: &[u32],
    w: &Within,
    ops: &mut Vec<Op>,
    live: u32,
    places: &[u32],
    op: &Op,
) -> Result<u32, NoMemory>
    ensures ops { OnOk result (plain_ops ops.new.items ≡ plain_ops ops.old.items ++ in_mask live (length (plain_ops ops.old.items)) op.now.mem (at_places places.now (op_in (within_of order.now w.now) (plain_op op.now)))) }
    ensures place { IfOk result (λ place. place + 1 ≡ length (plain_ops ops.new.items)) }
{
    let renamed = op_in(alloc, order, w, op)?;
    let placed = at_places(alloc, places, renamed)?;
    let place = push_in_mask(alloc, ops, live, placed)?;
    Ok(place)
}

/// The same, but for an operation that stands already.
fn push_or_find(
    alloc: Global,
    order: &[u32],
    w: &Within,
    ops: &mut Vec<Op>,
    live: u32,
    places: &[u32],
    op: &Op,
    other: Option<u32>,
) -> Result<u32, NoMemory>
    ensures { IfOk result (λ place. (rest : List PlainOp) (others : List (Option ℕ)) → before (plain_ops ops.new.items) (lane_from (within_of order.now w.now) live (length (plain_ops ops.new.items)) (places.now ++ place ∷ []) rest others) ≡ before (plain_ops ops.old.items) (lane_from (within_of order.now w.now) live (length (plain_ops ops.old.items)) places.now (plain_op op.now ∷ rest) (other ∷ others))) }
{
    match other {
        Some(place) => Ok(place),
        None => {
            let place = push_in_lane(alloc, order, w, ops, live, places, op)?;
            Ok(place)
        }
    }
}

/// Appends the operations of a lane, and tells where each operation of the body stands.
fn push_lane(
    alloc: Global,
    order: &[u32],
    w: &Within,
    ops: &mut Vec<Op>,
    live: u32,
    body: &[Op],
    others: &[Option<u32>],
) -> Result<Vec<u32>, NoMemory>
    ensures { IfOk result (λ places. record { mask = live; ops = plain_ops ops.new.items; places = places.items } ≡ before (plain_ops ops.old.items) (lane_from (within_of order.now w.now) live (length (plain_ops ops.old.items)) [] (plain_ops body.now) others.now)) }
{
    let mut places = Vec::new(alloc);
    let n = body.len().min(others.len());
    for i in 0..n {
        let place = push_or_find(alloc, order, w, ops, live, &places, &body[i], others[i])?;
        places.push(place)?;
    }
    Ok(places)
}

/// Appends the body of a lane, after the bit that tells whether the lane has an iteration.
fn lane_body(
    alloc: Global,
    order: &[u32],
    w: &Within,
    ops: &mut Vec<Op>,
    counter: u32,
    lane: u32,
    body: &[Op],
    others: &[Option<u32>],
) -> Result<Body, NoMemory>
    ensures ops { OnOk result (plain_ops ops.new.items ≡ plain_ops ops.old.items ++ (plain.lane_body counter (λ l. within_of order.now w.now) (plain_ops body.now) lane (length (plain_ops ops.old.items)) others.now).ops) }
    ensures body { IfOk result (λ made. plain_body made ≡ bare (plain.lane_body counter (λ l. within_of order.now w.now) (plain_ops body.now) lane (length (plain_ops ops.old.items)) others.now)) }
{
    let mask = push_op(ops, live_op(alloc, counter, lane, lane))?;
    let places = push_lane(alloc, order, w, ops, mask, body, others)?;
    Ok(Body { mask, places })
}

/// No operation of a body stands already.
fn nowhere(alloc: Global, body: &[Op]) -> Result<Vec<Option<u32>>, NoMemory>
    ensures { IfOk result (λ others. others.items ≡ nowhere (plain_ops body.now)) }
{
    let mut others = Vec::new(alloc);
    for op in body {
        let _op = op;
        others.push(None)?;
    }
    Ok(others)
}

fn standing_at(shared: bool, place: u32) -> Option<u32>
    ensures { (rest : List Bool) (places : List ℕ) → standing (shared ∷ rest) (place ∷ places) ≡ result ∷ standing rest places }
{
    if shared { Some(place) } else { None }
}

/// Where the operations that stand once do, by the places of the first lane.
fn standing(alloc: Global, shared: &[bool], places: &[u32]) -> Result<Vec<Option<u32>>, NoMemory>
    ensures { IfOk result (λ others. others.items ≡ standing shared.now places.now) }
{
    let mut others = Vec::new(alloc);
    let n = shared.len().min(places.len());
    for i in 0..n {
        others.push(standing_at(shared[i], places[i]))?;
    }
    Ok(others)
}

/// The number of the last counter of a controller, which alone has lanes.
pub(crate) fn last_number(counters: &[CoreCounter]) -> u32
    ensures { result ≡ last_number (map plain_counter counters.now) }
{
    let [counter, rest @ ..] = counters else {
        return 0;
    };
    if rest.is_empty() {
        return counter.id;
    }
    last_number(rest)
}

/// The places of the first lane's operations.
pub(crate) fn first_places(alloc: Global, lanes: &[Body]) -> Result<Vec<u32>, NoMemory>
    ensures { IfOk result (λ places. places.items ≡ first_places (map plain_body lanes.now)) }
{
    match lanes.first() {
        Some(body) => Vec::from_slice(alloc, &body.places),
        None => Ok(Vec::new(alloc)),
    }
}

/// Appends the body of a lane of a controller.
fn push_lane_body(
    alloc: Global,
    order: &[u32],
    counters: &[CoreCounter],
    owned: &[u32],
    w: &Within,
    lane: u32,
    body: &[Op],
    others: &[Option<u32>],
    ops: &mut Vec<Op>,
    lanes: &mut Vec<Body>,
) -> Result<(), NoMemory>
    ensures ops { OnOk result (plain_ops ops.new.items ≡ plain_ops ops.old.items ++ (plain.lane_body (last_number (map plain_counter counters.now)) (in_lane order.now (map plain_counter counters.now) owned.now (within_of order.now w.now)) (plain_ops body.now) lane (length (plain_ops ops.old.items)) others.now).ops) }
    ensures lanes { OnOk result (map plain_body lanes.new.items ≡ map plain_body lanes.old.items ++ bare (plain.lane_body (last_number (map plain_counter counters.now)) (in_lane order.now (map plain_counter counters.now) owned.now (within_of order.now w.now)) (plain_ops body.now) lane (length (plain_ops ops.old.items)) others.now) ∷ []) }
{
    let counter = last_number(counters);
    let inside = in_lane(alloc, order, counters, owned, w, lane)?;
    let made = lane_body(alloc, order, &inside, ops, counter, lane, body, others)?;
    lanes.push(made)?;
    Ok(())
}

/// Where the reads that stand once for all lanes do, by the bodies so far.
fn reads_once(
    alloc: Global,
    counters: &[CoreCounter],
    owned: &[u32],
    body: &[Op],
    lanes: &[Body],
) -> Result<Vec<Option<u32>>, NoMemory>
    ensures { IfOk result (λ others. others.items ≡ standing (lane_shared.shared (last_number (map plain_counter counters.now)) owned.now (plain_ops body.now) (plain_ops body.now)) (first_places (map plain_body lanes.now))) }
{
    let counter = last_number(counters);
    let once = shared(alloc, counter, owned, body)?;
    let places = first_places(alloc, lanes)?;
    let others = standing(alloc, &once, &places)?;
    Ok(others)
}

/// Appends the body of the first lane, and tells where the reads that stand once do.
fn push_first_lane(
    alloc: Global,
    order: &[u32],
    counters: &[CoreCounter],
    owned: &[u32],
    w: &Within,
    body: &[Op],
    ops: &mut Vec<Op>,
    lanes: &mut Vec<Body>,
) -> Result<Vec<Option<u32>>, NoMemory>
    requires no_ops { ops.old.items ≡ [] }
    requires no_lanes { lanes.old.items ≡ [] }
    ensures ops { OnOk result (plain_ops ops.new.items ≡ (plain.lane_body (last_number (map plain_counter counters.now)) (in_lane order.now (map plain_counter counters.now) owned.now (within_of order.now w.now)) (plain_ops body.now) 0 0 (nowhere (plain_ops body.now))).ops) }
    ensures lanes { OnOk result (map plain_body lanes.new.items ≡ bare (plain.lane_body (last_number (map plain_counter counters.now)) (in_lane order.now (map plain_counter counters.now) owned.now (within_of order.now w.now)) (plain_ops body.now) 0 0 (nowhere (plain_ops body.now))) ∷ []) }
    ensures others { IfOk result (λ others. others.items ≡ standing (lane_shared.shared (last_number (map plain_counter counters.now)) owned.now (plain_ops body.now) (plain_ops body.now)) (plain.lane_body (last_number (map plain_counter counters.now)) (in_lane order.now (map plain_counter counters.now) owned.now (within_of order.now w.now)) (plain_ops body.now) 0 0 (nowhere (plain_ops body.now))).places) }
{
    let none = nowhere(alloc, body)?;
    push_lane_body(alloc, order, counters, owned, w, 0, body, &none, ops, lanes)?;
    let others = reads_once(alloc, counters, owned, body, lanes)?;
    Ok(others)
}

/// The bodies of all lanes of a controller that owns these memories.
pub(crate) fn lane_bodies(
    alloc: Global,
    order: &[u32],
    counters: &[CoreCounter],
    owned: &[u32],
    w: &Within,
    body: &[Op],
    ops: &mut Vec<Op>,
) -> Result<Vec<Body>, NoMemory>
    requires { ops.old.items ≡ [] }
    ensures ops { OnOk result (plain_ops ops.new.items ≡ all_ops (plain.lane_bodies (last_number (map plain_counter counters.now)) (in_lane order.now (map plain_counter counters.now) owned.now (within_of order.now w.now)) (plain_ops body.now) owned.now (lanes_of (map plain_counter counters.now)))) }
    ensures lanes { IfOk result (λ made. map plain_body made.items ≡ map bare (plain.lane_bodies (last_number (map plain_counter counters.now)) (in_lane order.now (map plain_counter counters.now) owned.now (within_of order.now w.now)) (plain_ops body.now) owned.now (lanes_of (map plain_counter counters.now)))) }
{
    let mut lanes = Vec::new(alloc);
    let others = push_first_lane(alloc, order, counters, owned, w, body, ops, &mut lanes)?;
    let count = lanes_of(counters);
    for lane in 1..count {
        push_lane_body(
            alloc, order, counters, owned, w, lane, body, &others, ops, &mut lanes,
        )?;
    }
    Ok(lanes)
}
