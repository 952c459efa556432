//! A loop that writes a memory in banks, of which one element is read when it is done.
ghost use Rattle.std.specs.Prelude.{◌≡◌, ℕ, ◌∷◌, [], count_by, All, IfOk, OnOk};
ghost use Rattle.sp_netlist.specs.Draft.{Draft, IsDraft};
ghost use Rattle.sp_netlist.specs.Rules.{is_bank};
ghost use Rattle.sp_gates.specs.Grows.{Builds, Fills};
ghost use Rattle.sp_gates.specs.Nets.{Awaits, HasNet};
ghost use Rattle.sp_counters.specs.Fits.{IsCounter};
ghost use Rattle.sp_pipe.specs.Acts.{AreActs};
ghost use Rattle.sp_worked_parts.specs.Counted.{AreDoubled, StoreFits, IsStored};

use crate::machine::begin;
use crate::memory::layout;
use crate::outputs::output;
use crate::touches::{index, one_touch};
use sp_banked::{Banked, emit_banked};
use sp_counters::{Count, Counter, Counters};
use sp_gates::{constant, delay, one, reserve};
use sp_netlist::{Builder, Cell, NetId, Netlist, NoMemory};
use sp_pipe::{Act, Groups, Part, PipeOp};
use sp_taps::add_stores;
use sp_words::{BinOp, Ty};
use std::alloc::Global;

/// The element of the counter's value is written with twice that value: the sum stands in the cycle of the issue, and the write
/// is done a cycle later.
fn operations(alloc: Global, value: NetId) -> Result<Vec<PipeOp>, NoMemory>
    ensures { IfOk result (λ list. AreDoubled value list.items) }
{
    let none = Vec::new(alloc);
    let twice = vec![in alloc; 0, 0]?;
    let both = vec![in alloc; 0, 1]?;
    let given = PipeOp {
        act: Act::Given(value),
        ty: Ty::int(),
        args: none,
        mask: None,
        time: 0,
    };
    let sum = PipeOp {
        act: Act::Two(BinOp::Add),
        ty: Ty::int(),
        args: twice,
        mask: None,
        time: 0,
    };
    let write = PipeOp {
        act: Act::Write,
        ty: Ty::int(),
        args: both,
        mask: None,
        time: 1,
    };
    let list = vec![in alloc; given, sum, write]?;
    Ok(list)
}

/// The value of the first counter, or another net where there is none.
fn value_of(counters: &[Counter], other: NetId) -> NetId
    ensures { (d : Draft) → All (IsCounter d) counters.now → HasNet d other 32 → HasNet d result 32 }
{
    if counters.is_empty() {
        other
    } else {
        counters[0].value
    }
}

/// What the loop stores, and where it is done.
#[derive(Clone, Copy)]
struct Stored {
    enable: NetId,
    element: NetId,
    word: NetId,
    done: NetId,
}

/// A body of these operations under the counters.
fn body(
    alloc: Global,
    builder: &mut Builder,
    start: NetId,
    value: NetId,
    groups: Groups,
) -> Result<Stored, NoMemory>
    requires start { HasNet builder.old start 1 }
    requires value { HasNet builder.old value 32 }
    requires more { HasNet builder.old groups.more 1 }
    requires step { Awaits builder.old groups.step 1 }
    ensures fills { OnOk result (Fills builder.old builder.new (groups.step ∷ [])) }
    ensures fits { IfOk result (StoreFits builder.new) }
{
    let ops = operations(alloc, value)?;
    let part = Part {
        start,
        groups: Some(groups),
        ops,
        ii: 1,
        latency: 2,
    };
    let ends = sp_pipe::emit(alloc, builder, &part)?;
    let enable = ends.nets[0];
    let element = ends.nets[1];
    let word = ends.nets[2];
    Ok(Stored {
        enable,
        element,
        word,
        done: ends.done,
    })
}

/// A loop from 0 up to a bound, started in cycle 0.
fn looped(alloc: Global, builder: &mut Builder, bound: u32) -> Result<Stored, NoMemory>
    ensures fills { OnOk result (Fills builder.old builder.new []) }
    ensures fits { IfOk result (StoreFits builder.new) }
{
    let always = one(builder)?;
    let start = begin(builder, always)?;
    let from = constant(builder, 32, 0)?;
    let until = constant(builder, 32, u64::from(bound))?;
    let step = reserve(builder, 1)?;
    let counters = vec![in alloc;
        Count {
            from,
            until,
            by: 1,
            par: 1
        },
    ]?;
    let part = Counters {
        start,
        step,
        counters,
    };
    let counted = sp_counters::emit(alloc, builder, &part)?;
    let value = value_of(&counted.counters, from);
    let more = counted.more;
    let stored = body(alloc, builder, start, value, Groups { more, step })?;
    Ok(stored)
}

fn memory(alloc: Global, stored: &Stored, place: NetId, y: NetId) -> Result<Banked, NoMemory>
    ensures { IfOk result (IsStored stored.now place y) }
{
    let layout = layout(alloc)?;
    let element = index(alloc, stored.element)?;
    let asked = index(alloc, place)?;
    let writes = one_touch(alloc, stored.enable, element, stored.word)?;
    let reads = one_touch(alloc, stored.done, asked, y)?;
    Ok(Banked {
        start: stored.done,
        bank: 0,
        ty: Ty::int(),
        layout,
        copies: 1,
        duplicates: 1,
        writes,
        reads,
    })
}

/// The memory with the loop that writes it, behind its output. The net is 1 two cycles after the loop is done.
fn emit(alloc: Global, builder: &mut Builder, y: NetId, bound: u32) -> Result<NetId, NoMemory>
    requires draft { IsDraft builder.old }
    requires banks { count_by is_bank builder.old.cells ≡ 0 }
    requires y { Awaits builder.old y 32 }
    ensures fills { OnOk result (Builds builder.old builder.new (y ∷ [])) }
    ensures done { IfOk result (λ done. HasNet builder.new done 1) }
{
    let stores = add_stores(alloc, builder, 0, 2, 32, 2)?;
    let stored = looped(alloc, builder, bound)?;
    let place = constant(builder, 32, u64::from(bound.saturating_sub(1)))?;
    let always = one(builder)?;
    let done = delay(builder, 1, stored.done, 2, always)?;
    let part = memory(alloc, &stored, place, y)?;
    emit_banked(alloc, builder, &part, &stores)?;
    Ok(done)
}

/// The loop as a netlist that is done where the word of its last element is there, which is the output `y`.
pub fn worked_store(alloc: Global, bound: u32) -> Result<Netlist, NoMemory> {
    let mut builder = Builder::new(alloc);
    let y = output(alloc, &mut builder)?;
    let done = emit(alloc, &mut builder, y, bound)?;
    builder.add(Cell::Done(done))?;
    builder.finish(alloc)
}
