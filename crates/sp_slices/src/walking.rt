//! A walk through a slice.
ghost use Rattle.std.specs.Prelude.{◌≡◌, ℕ, [], All, IfOk, OnOk};
ghost use Rattle.sp_netlist.specs.Signals.{Signals};
ghost use Rattle.sp_gates.specs.Grows.{Fills};
ghost use Rattle.sp_gates.specs.Nets.{HasNet};
ghost use Rattle.sp_gates.specs.Runs.{RunsOn};
ghost use Rattle.sp_slices.specs.Fits.{MoveFits, IsWalk};
ghost use Rattle.sp_slices.specs.Slices.{WalksSlice, more_offset, offsets_of};

use crate::axes::follow;
use crate::counts::count_moves;
use crate::part::{Axis, Move, Walk};
use sp_counters::{Counters, emit};
use sp_gates::one;
use sp_netlist::{Builder, NetId, NoMemory};
use std::alloc::Global;

/// Walks through a slice, the last dimension fastest. It is taken in the cycle of the start; in the next one its first word
/// stands, and another in the cycle after each one in which `step` is 1.
pub fn walk(
    alloc: Global,
    builder: &mut Builder,
    start: NetId,
    step: NetId,
    moves: &[Move],
) -> Result<Walk, NoMemory>
    requires start { HasNet builder.old start 1 }
    requires step { HasNet builder.old step 1 }
    requires moves { All (MoveFits builder.old) moves.now }
    ensures fills { OnOk result (Fills builder.old builder.new []) }
    ensures nets { IfOk result (IsWalk builder.new) }
    ensures walks { IfOk result (λ walk. (s : Signals) → RunsOn s builder.new.cells → WalksSlice s start step moves.now walk) }
{
    let always = one(builder)?;
    let counts = count_moves(alloc, builder, moves)?;
    let counters = Counters {
        start,
        step,
        counters: counts,
    };
    let counted = emit(alloc, builder, &counters)?;
    let followed = follow(
        alloc,
        builder,
        start,
        &counters.counters,
        &counted.counters,
        always,
    )?;
    Ok(Walk {
        counters,
        counted,
        axes: followed.axes,
        last: followed.last,
    })
}

/// The net of one dimension more, before others, where that is a range.
fn with_offset(part: &Move, axis: &Axis, nets: Vec<NetId>) -> Result<Vec<NetId>, NoMemory>
    ensures { IfOk result (λ more. more.items ≡ more_offset part.now axis.now nets.items) }
{
    match *part {
        Move::One(_) => Ok(nets),
        Move::Range(_, _) => {
            let mut more = nets;
            more.insert(0, axis.offset)?;
            Ok(more)
        }
    }
}

/// The nets that tell how far into each range a word is.
pub fn range_offsets(alloc: Global, moves: &[Move], axes: &[Axis]) -> Result<Vec<NetId>, NoMemory>
    ensures { IfOk result (λ nets. nets.items ≡ offsets_of moves.now axes.now) }
{
    let [part, moves @ ..] = moves else {
        return Ok(Vec::new(alloc));
    };
    let [axis, axes @ ..] = axes else {
        return Ok(Vec::new(alloc));
    };
    let others = range_offsets(alloc, moves, axes)?;
    let nets = with_offset(part, axis, others)?;
    Ok(nets)
}
