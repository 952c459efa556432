//! One counter.
ghost use Rattle.std.specs.Prelude.{◌≡◌, ℕ, suc, ◌*◌, ◌<◌, ◌^◌, if◌then◌else◌, [], ◌∷◌, IfOk, OnOk};
ghost use Rattle.sp_words.specs.Types.{int_type};
ghost use Rattle.sp_words.specs.Words.{value_of, wrap};
ghost use Rattle.sp_netlist.specs.Signals.{Signals};
ghost use Rattle.sp_gates.specs.Grows.{Fills};
ghost use Rattle.sp_gates.specs.Nets.{Awaits, HasNet};
ghost use Rattle.sp_gates.specs.Runs.{RunsOn};
ghost use Rattle.sp_gates.specs.Tested.{is_on};
ghost use Rattle.sp_counters.specs.Counting.{advance_of};
ghost use Rattle.sp_counters.specs.Fits.{CountFits, wide_type};
ghost use Rattle.sp_counters.specs.Pieces.{CountsOne};

use crate::bounds::{Bounds, take_bounds};
use crate::part::{Count, Counter};
use crate::wide::{below, moved, narrowed};
use sp_gates::{choose, drive, on_either, on_not, reserve};
use sp_netlist::{Builder, NetId, NoMemory};

/// A counter, whether it has a value by the bounds that are given, and whether it has its last one.
#[derive(Clone, Copy, Debug)]
pub(crate) struct One {
    pub(crate) counter: Counter,
    pub(crate) some: NetId,
    pub(crate) last: NetId,
}

/// How far a counter goes on from one group to the next.
fn advance(count: &Count) -> u64
    ensures { result ≡ advance_of count.now }
{
    u64::from(count.by) * u64::from(count.par)
}

/// How a value goes on: `sum` is it and the step.
fn drive_value(
    builder: &mut Builder,
    start: NetId,
    goes: NetId,
    bounds: &Bounds,
    value: NetId,
    sum: NetId,
    last: NetId,
) -> Result<(), NoMemory>
    requires start { HasNet builder.old start 1 }
    requires goes { HasNet builder.old goes 1 }
    requires first { HasNet builder.old bounds.now.first 32 }
    requires from { HasNet builder.old bounds.now.from 32 }
    requires value { Awaits builder.old value 32 }
    requires sum { HasNet builder.old sum 64 }
    requires last { HasNet builder.old last 1 }
    ensures fills { OnOk result (Fills builder.old builder.new (value ∷ [])) }
    ensures zero { OnOk result ((s : Signals) → RunsOn s builder.new.cells → s.net 0 value ≡ 0) }
    ensures word { OnOk result ((s : Signals) → RunsOn s builder.new.cells → (t : ℕ) → s.net (suc t) value
        ≡ (if is_on s start t then s.net t bounds.now.first else (if is_on s goes t then (if is_on s last t then s.net t bounds.now.from else wrap int_type (value_of wide_type (s.net t sum))) else s.net t value))) }
{
    let ahead = narrowed(builder, sum)?;
    let on = choose(builder, 32, last, bounds.from, ahead)?;
    let next = choose(builder, 32, start, bounds.first, on)?;
    let enable = on_either(builder, start, goes)?;
    drive(builder, value, 32, 0, next, enable)?;
    Ok(())
}

/// A counter that goes on where `goes` is 1.
pub(crate) fn count_one(
    builder: &mut Builder,
    start: NetId,
    goes: NetId,
    count: &Count,
) -> Result<One, NoMemory>
    requires start { HasNet builder.old start 1 }
    requires goes { HasNet builder.old goes 1 }
    requires count { CountFits builder.old count.now }
    ensures fills { OnOk result (Fills builder.old builder.new []) }
    ensures one { IfOk result (λ one. CountsOne builder.new start goes count.now one) }
{
    let bounds = take_bounds(builder, start, count)?;
    let value = reserve(builder, 32)?;
    let sum = moved(builder, value, advance(count))?;
    let ahead = below(builder, sum, bounds.until)?;
    let last = on_not(builder, ahead)?;
    drive_value(builder, start, goes, &bounds, value, sum, last)?;
    let counter = Counter {
        value,
        from: bounds.from,
        until: bounds.until,
    };
    Ok(One {
        counter,
        some: bounds.some,
        last,
    })
}
