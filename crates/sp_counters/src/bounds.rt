//! The bounds of a counter.
ghost use Rattle.std.specs.Prelude.{◌≡◌, ℕ, suc, ◌<◌, ◌^◌, int_lt, if◌then◌else◌, [], IfOk, OnOk};
ghost use Rattle.sp_words.specs.Types.{int_type};
ghost use Rattle.sp_words.specs.Words.{wrap};
ghost use Rattle.sp_netlist.specs.Signals.{Signals};
ghost use Rattle.sp_gates.specs.Grows.{Fills};
ghost use Rattle.sp_gates.specs.Nets.{HasNet};
ghost use Rattle.sp_gates.specs.Runs.{RunsOn};
ghost use Rattle.sp_gates.specs.Tested.{is_on};
ghost use Rattle.sp_counters.specs.Pieces.{KeepsLow, TakesBounds};

use crate::part::Count;
use crate::wide::low;
use sp_gates::{hold, operate};
use sp_netlist::{Builder, CellOp, NetId, NoMemory};
use sp_words::Ty;

/// The nets of a counter's bounds: the first one as it is given, whether there is a value, and both as they were at the start.
#[derive(Clone, Copy, Debug)]
pub(crate) struct Bounds {
    pub(crate) first: NetId,
    pub(crate) some: NetId,
    pub(crate) from: NetId,
    pub(crate) until: NetId,
}

/// The low 32 bits of a word, and a register that takes them where the start is 1.
fn keep(builder: &mut Builder, start: NetId, net: NetId) -> Result<Kept, NoMemory>
    requires start { HasNet builder.old start 1 }
    requires net { HasNet builder.old net 32 }
    ensures fills { OnOk result (Fills builder.old builder.new []) }
    ensures keeps { IfOk result (λ kept. KeepsLow builder.new start net kept.now kept.held) }
{
    let now = low(builder, net)?;
    let held = hold(builder, 32, 0, now, start)?;
    Ok(Kept { now, held })
}

/// A word and what a register has of it.
#[derive(Clone, Copy, Debug)]
pub(crate) struct Kept {
    pub(crate) now: NetId,
    pub(crate) held: NetId,
}

/// The bounds of a counter.
pub(crate) fn take_bounds(
    builder: &mut Builder,
    start: NetId,
    count: &Count,
) -> Result<Bounds, NoMemory>
    requires start { HasNet builder.old start 1 }
    requires from { HasNet builder.old count.now.from 32 }
    requires until { HasNet builder.old count.now.until 32 }
    ensures fills { OnOk result (Fills builder.old builder.new []) }
    ensures takes { IfOk result (λ bounds. TakesBounds builder.new start count.now bounds) }
{
    let from = keep(builder, start, count.from)?;
    let until = keep(builder, start, count.until)?;
    let some = operate(builder, Ty::int(), CellOp::Lt, from.now, until.now)?;
    Ok(Bounds {
        first: from.now,
        some,
        from: from.held,
        until: until.held,
    })
}
