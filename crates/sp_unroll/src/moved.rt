//! Operations of a combination at other places.

ghost use Rattle.std.specs.Prelude.{◌≡◌, ◌+◌, ◌-◌, ◌++◌, List, ℕ, map, IfOk, OnOk};
ghost use Rattle.std.specs.Option.{option_map};
ghost use Rattle.sp_core.specs.Plain.{plain_op, plain_ops};
ghost use Rattle.sp_lanes.specs.Combined.{moved, moved_op};
ghost use Rattle.sp_unroll.specs.Words.{here_of, ended_at, move_of};

use crate::NoMemory;
use crate::bodies::number_at;
use sp_core::Op;
use std::alloc::{AllocError, Global};

/// The combination begins at `first` in the core's list, and at `at` in lanes; the word at `word` stands at `to`.
#[derive(Clone, Copy, Debug, Drop)]
pub(crate) struct Move {
    pub(crate) first: u32,
    pub(crate) at: u32,
    pub(crate) word: u32,
    pub(crate) to: u32,
}

/// What stood from `ended` on stands from `stands` on.
#[derive(Clone, Copy, Debug, Drop)]
pub(crate) struct Ended {
    pub(crate) ended: u32,
    pub(crate) stands: u32,
}

fn shifted(from: u32, k: u32, to: u32) -> Result<u32, NoMemory>
    ensures { IfOk result (λ place. place ≡ to + (k - from)) }
{
    to.checked_add(k.saturating_sub(from)).ok_or(AllocError)
}

/// Where a place of the combination is found, by those of the operations before it.
pub(crate) fn here(m: Move, places: &[u32], k: u32) -> Result<u32, NoMemory>
    ensures { IfOk result (λ place. place ≡ here_of m places.now k) }
{
    if k == m.word {
        return Ok(m.to);
    }
    if m.first <= k {
        return shifted(m.first, k, m.at);
    }
    Ok(number_at(places, k))
}

fn place_in(m: Move, ended: Option<Ended>, places: &[u32], k: u32) -> Result<u32, NoMemory>
    ensures { IfOk result (λ place. place ≡ move_of m ended places.now k) }
{
    match ended {
        None => here(m, places, k),
        Some(e) => {
            if e.ended <= k {
                return shifted(e.ended, k, e.stands);
            }
            here(m, places, k)
        }
    }
}

fn places_in(
    alloc: Global,
    m: Move,
    ended: Option<Ended>,
    places: &[u32],
    args: &[u32],
) -> Result<Vec<u32>, NoMemory>
    ensures { IfOk result (λ moved. moved.items ≡ map (move_of m ended places.now) args.now) }
{
    let mut moved = Vec::new(alloc);
    for k in args {
        moved.push(place_in(m, ended, places, *k)?)?;
    }
    Ok(moved)
}

fn mask_in(
    m: Move,
    ended: Option<Ended>,
    places: &[u32],
    mask: Option<u32>,
) -> Result<Option<u32>, NoMemory>
    ensures { IfOk result (λ moved. moved ≡ option_map (move_of m ended places.now) mask) }
{
    match mask {
        None => Ok(None),
        Some(k) => Ok(Some(place_in(m, ended, places, k)?)),
    }
}

fn moved_op(
    alloc: Global,
    m: Move,
    ended: Option<Ended>,
    places: &[u32],
    op: &Op,
) -> Result<Op, NoMemory>
    ensures { IfOk result (λ made. plain_op made ≡ moved_op (move_of m ended places.now) (plain_op op.now)) }
{
    Ok(Op {
        kind: op.kind,
        ty: op.ty,
        args: places_in(alloc, m, ended, places, &op.args)?,
        mem: op.mem,
        mask: mask_in(m, ended, places, op.mask)?,
    })
}

/// Appends operations of the combination where they are found.
pub(crate) fn push_moved(
    alloc: Global,
    ops: &mut Vec<Op>,
    m: Move,
    ended: Option<Ended>,
    places: &[u32],
    part: &[Op],
) -> Result<(), NoMemory>
    ensures { OnOk result (plain_ops ops.new.items ≡ plain_ops ops.old.items ++ moved (move_of m ended places.now) (plain_ops part.now)) }
{
    for op in part {
        ops.push(moved_op(alloc, m, ended, places, op)?)?;
    }
    Ok(())
}
