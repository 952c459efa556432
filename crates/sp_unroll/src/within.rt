//! What a name of the core stands for where lanes stand one after the other.

ghost use Rattle.std.specs.Prelude.{◌≡◌, ◌+◌, ◌*◌, ℕ, List, None, map, IfOk, OnOk};
ghost use Rattle.std.specs.Option.{option_map};
ghost use Rattle.sp_core.specs.Plain.{plain_op, plain_ops, plain_counter, plain_span};
ghost use Rattle.sp_lanes.specs.Within as plain;
ghost use Rattle.sp_lanes.specs.Within.{with_lane, kind_in, op_in, ops_in, counter_in, counters_in, span_in, spans_in};
ghost use Rattle.sp_unroll.specs.Entries.{found_after, lane_in, number_in, owned_at, within_of};

use crate::NoMemory;
use crate::order::{lanes_of, occurrence};
use sp_core::{CoreCounter, CoreSpan, Op, OpKind};
use std::alloc::{AllocError, Global};

/// A number, and what it stands for.
#[derive(Clone, Copy, Debug, Drop)]
pub(crate) struct Entry {
    key: u32,
    value: u32,
}

/// A place in the tree: the lanes of counters, the numbers of memories, of which the latest entries count, and which of
/// the copies this one is.
#[derive(Debug, Drop)]
pub(crate) struct Within {
    lanes: Vec<Entry>,
    names: Vec<Entry>,
    copy: u32,
}

fn found(entries: &[Entry], key: u32) -> Option<u32>
    ensures { result ≡ found_after None entries.now key }
{
    let mut now = None;
    for entry in entries {
        if key == entry.key {
            now = Some(entry.value);
        }
    }
    now
}

impl Within {
    /// The lane of a counter.
    #[tactic(auto, unfolding(crate::specs::Entries::lane_in))]
    pub(crate) fn lane(&self, counter: u32) -> u32
        ensures { result ≡ lane_in self.now.lanes.items counter }
    {
        found(&self.lanes, counter).unwrap_or(0)
    }

    /// The number of a memory, by the order of all.
    #[tactic(auto, unfolding(crate::specs::Entries::number_in))]
    pub(crate) fn number(&self, order: &[u32], m: u32) -> Result<u32, NoMemory>
        ensures { IfOk result (λ n. n ≡ number_in order.now self.now.names.items m) }
    {
        match found(&self.names, m) {
            Some(n) => Ok(n),
            None => occurrence(m, 0, order),
        }
    }
}

/// Outside of all controllers.
pub(crate) fn outside(alloc: Global) -> Within
    ensures { (order : List ℕ) → within_of order result ≡ plain.outside order }
{
    Within {
        lanes: Vec::new(alloc),
        names: Vec::new(alloc),
        copy: 0,
    }
}

/// Memories that have their owner here stand for their copies of this number.
fn push_names(
    order: &[u32],
    owned: &[u32],
    copy: u32,
    names: &mut Vec<Entry>,
) -> Result<(), NoMemory>
    ensures { OnOk result (number_in order.now names.new.items ≡ owned_at order.now owned.now copy (number_in order.now names.old.items)) }
{
    for m in owned {
        let value = occurrence(*m, copy, order)?;
        names.push(Entry { key: *m, value })?;
    }
    Ok(())
}

/// The lane is that of the last counter; all before it are in lane 0.
fn push_lanes(counters: &[CoreCounter], lane: u32, lanes: &mut Vec<Entry>) -> Result<(), NoMemory>
    ensures { OnOk result (lane_in lanes.new.items ≡ with_lane (map plain_counter counters.now) lane (lane_in lanes.old.items)) }
{
    let [counter, rest @ ..] = counters else {
        return Ok(());
    };
    if rest.is_empty() {
        lanes.push(Entry {
            key: counter.id,
            value: lane,
        })?;
        return Ok(());
    }
    lanes.push(Entry {
        key: counter.id,
        value: 0,
    })?;
    push_lanes(rest, lane, lanes)?;
    Ok(())
}

/// Which copy stands in a lane.
fn copy_in(copy: u32, lanes: u32, lane: u32) -> Result<u32, NoMemory>
    ensures { IfOk result (λ n. n ≡ copy * lanes + lane) }
{
    let before = copy.checked_mul(lanes).ok_or(AllocError)?;
    before.checked_add(lane).ok_or(AllocError)
}

/// Where these memories have their owner.
pub(crate) fn owning(
    alloc: Global,
    order: &[u32],
    owned: &[u32],
    w: &Within,
) -> Result<Within, NoMemory>
    ensures { IfOk result (λ inside. within_of order.now inside ≡ plain.owning order.now owned.now (within_of order.now w.now)) }
{
    let mut names = Vec::from_slice(alloc, &w.names)?;
    push_names(order, owned, w.copy, &mut names)?;
    Ok(Within {
        lanes: Vec::from_slice(alloc, &w.lanes)?,
        names,
        copy: w.copy,
    })
}

/// In a lane of a controller.
pub(crate) fn in_lane(
    alloc: Global,
    order: &[u32],
    counters: &[CoreCounter],
    owned: &[u32],
    w: &Within,
    lane: u32,
) -> Result<Within, NoMemory>
    ensures { IfOk result (λ inside. within_of order.now inside ≡ plain.in_lane order.now (map plain_counter counters.now) owned.now (within_of order.now w.now) lane) }
{
    let copy = copy_in(w.copy, lanes_of(counters), lane)?;
    let mut lanes = Vec::from_slice(alloc, &w.lanes)?;
    push_lanes(counters, lane, &mut lanes)?;
    let mut names = Vec::from_slice(alloc, &w.names)?;
    push_names(order, owned, copy, &mut names)?;
    Ok(Within { lanes, names, copy })
}
