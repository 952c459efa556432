//! The dimensions of a slice.
ghost use Rattle.std.specs.Prelude.{◌≡◌, ℕ, [], length, All, IfOk, OnOk};
ghost use Rattle.sp_netlist.specs.Signals.{Signals};
ghost use Rattle.sp_gates.specs.Bits.{IsOne};
ghost use Rattle.sp_gates.specs.Grows.{Fills};
ghost use Rattle.sp_gates.specs.Nets.{HasNet};
ghost use Rattle.sp_gates.specs.Runs.{RunsOn};
ghost use Rattle.sp_gates.specs.Tested.{is_on};
ghost use Rattle.sp_counters.specs.Fits.{CountFits};
ghost use Rattle.sp_counters.specs.Pieces.{HasInt, KeepsLow};
ghost use Rattle.sp_slices.specs.Fits.{IsAxis};
ghost use Rattle.sp_slices.specs.Slices.{FollowsAxis, FollowAxes, all_ended};

use crate::part::Axis;
use crate::wide::{below, low, moved};
use sp_counters::{Count, Counter};
use sp_gates::{hold, on_both, on_not, operate};
use sp_netlist::{Builder, CellOp, NetId, NoMemory};
use sp_words::Ty;
use std::alloc::Global;

/// A word and what a register has of it.
#[derive(Clone, Copy, Debug)]
struct Kept {
    now: NetId,
    held: NetId,
}

/// The dimensions, and a net that is 1 where all have their last indices.
#[derive(Debug, Drop)]
pub(crate) struct Followed {
    pub(crate) axes: Vec<Axis>,
    pub(crate) last: NetId,
}

/// The low 32 bits of a word, and a register that takes them where the start is 1.
fn keep(builder: &mut Builder, start: NetId, net: NetId) -> Result<Kept, NoMemory>
    requires start { HasNet builder.old start 1 }
    requires net { HasNet builder.old net 32 }
    ensures fills { OnOk result (Fills builder.old builder.new []) }
    ensures keeps { IfOk result (λ kept. KeepsLow builder.new start net kept.now kept.held) }
{
    let now = low(builder, net)?;
    let held = hold(builder, 32, 0, now, start)?;
    Ok(Kept { now, held })
}

/// The nets of a dimension.
fn follow_one(
    builder: &mut Builder,
    start: NetId,
    count: &Count,
    counter: &Counter,
) -> Result<Axis, NoMemory>
    requires start { HasNet builder.old start 1 }
    requires count { CountFits builder.old count.now }
    requires value { HasInt builder.old counter.now.value }
    ensures fills { OnOk result (Fills builder.old builder.new []) }
    ensures nets { IfOk result (IsAxis builder.new) }
    ensures follows { IfOk result (λ axis. (s : Signals) → RunsOn s builder.new.cells → FollowsAxis s (is_on s start) count.now counter.now axis) }
{
    let from = keep(builder, start, count.from)?;
    let until = keep(builder, start, count.until)?;
    let sum = moved(builder, counter.value, 1)?;
    let ahead = below(builder, sum, until.held)?;
    let ended = on_not(builder, ahead)?;
    let offset = operate(builder, Ty::int(), CellOp::Sub, counter.value, from.held)?;
    Ok(Axis {
        from: from.held,
        until: until.held,
        ended,
        offset,
    })
}

/// The nets of each dimension. `one` is always 1.
pub(crate) fn follow(
    alloc: Global,
    builder: &mut Builder,
    start: NetId,
    counts: &[Count],
    counters: &[Counter],
    one: NetId,
) -> Result<Followed, NoMemory>
    requires start { HasNet builder.old start 1 }
    requires counts { All (CountFits builder.old) counts.now }
    requires values { All (λ n. HasInt builder.old n.value) counters.now }
    requires one { IsOne builder.old one }
    ensures fills { OnOk result (Fills builder.old builder.new []) }
    ensures nets { IfOk result (λ followed. All (IsAxis builder.new) followed.axes.items) }
    ensures last_net { IfOk result (λ followed. HasNet builder.new followed.last 1) }
    ensures axes { IfOk result (λ followed. (s : Signals) → RunsOn s builder.new.cells → length counts.now ≡ length counters.now → FollowAxes s (is_on s start) counts.now counters.now followed.axes.items) }
    ensures last { IfOk result (λ followed. (s : Signals) → RunsOn s builder.new.cells → (t : ℕ) → is_on s followed.last t ≡ all_ended s counters.now followed.axes.items t) }
{
    let [count, counts @ ..] = counts else {
        return Ok(Followed {
            axes: Vec::new(alloc),
            last: one,
        });
    };
    let [counter, counters @ ..] = counters else {
        return Ok(Followed {
            axes: Vec::new(alloc),
            last: one,
        });
    };
    let own = follow_one(builder, start, count, counter)?;
    let others = follow(alloc, builder, start, counts, counters, one)?;
    let last = on_both(builder, own.ended, others.last)?;
    let mut axes = others.axes;
    axes.insert(0, own)?;
    Ok(Followed { axes, last })
}
