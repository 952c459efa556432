//! The copies of a queue.
ghost use Rattle.std.specs.Prelude.{◌≡◌, ℕ, ◌+◌, ◌^◌, ◌<◌, [], length, flat_map, All, IfOk, OnOk};
ghost use Rattle.sp_netlist.specs.Rules.{IsWidth, IsLength};
ghost use Rattle.sp_netlist.specs.Signals.{Signals};
ghost use Rattle.sp_gates.specs.Bits.{IsOne};
ghost use Rattle.sp_gates.specs.Grows.{Fills};
ghost use Rattle.sp_gates.specs.Runs.{RunsOn};
ghost use Rattle.sp_mem.specs.Fits.{FreshFits, WriteFits};
ghost use Rattle.sp_taps.specs.Wires.{AreInRow, AreInRows, AreWires, wires_of};
ghost use Rattle.sp_taps.specs.Stores.{IsStore, AreStores};
ghost use Rattle.sp_ring.specs.Rings.{AskedFits};
ghost use Rattle.sp_queue_copies.specs.Events.{TouchFits, IsAsked, RunsQueue, RunQueues};

use crate::events::{freshened, touched, word_put};
use sp_mem::{Fresh, Touch};
use sp_netlist::{Builder, NetId, NoMemory};
use sp_ring::{Asked, emit_ring};
use sp_taps::Store;

/// What is asked of one copy.
fn asked_of(
    builder: &mut Builder,
    width: u8,
    number: u32,
    fresh: &[Fresh],
    puts: &[Touch],
    takes: &[Touch],
) -> Result<Asked, NoMemory>
    requires width { IsWidth width }
    requires fresh { All (FreshFits builder.old) fresh.now }
    requires puts { All (WriteFits builder.old width) puts.now }
    requires takes { All (TouchFits builder.old) takes.now }
    ensures fills { OnOk result (Fills builder.old builder.new []) }
    ensures fits { IfOk result (AskedFits builder.new width) }
    ensures asked { IfOk result (λ asked. (s : Signals) → RunsOn s builder.new.cells → (t : ℕ) → IsAsked s t number fresh.now puts.now takes.now asked) }
{
    let made_fresh = freshened(builder, fresh, number)?;
    let put = touched(builder, puts, number)?;
    let take = touched(builder, takes, number)?;
    let word = word_put(builder, puts, number, width)?;
    Ok(Asked {
        put,
        word,
        take,
        fresh: made_fresh,
    })
}

/// One copy in its bank.
fn emit_copy(
    builder: &mut Builder,
    store: &Store,
    width: u8,
    depth: u32,
    number: u32,
    fresh: &[Fresh],
    puts: &[Touch],
    takes: &[Touch],
    one: NetId,
) -> Result<(), NoMemory>
    requires width { IsWidth width }
    requires depth { IsLength depth }
    requires wires { AreWires builder.old width store.now }
    requires row { AreInRow store.now.write store.now }
    requires fresh { All (FreshFits builder.old) fresh.now }
    requires puts { All (WriteFits builder.old width) puts.now }
    requires takes { All (TouchFits builder.old) takes.now }
    requires one { IsOne builder.old one }
    ensures fills { OnOk result (Fills builder.old builder.new (wires_of store.now)) }
    ensures runs { OnOk result ((bank : ℕ) → IsStore builder.old bank width depth store.now → (s : Signals) → RunsOn s builder.new.cells → RunsQueue s bank depth store.now number fresh.now puts.now takes.now) }
{
    let asked = asked_of(builder, width, number, fresh, puts, takes)?;
    emit_ring(builder, store, width, depth, &asked, one)?;
    Ok(())
}

/// Each copy in its bank. `one` is always 1.
pub fn emit_copies(
    builder: &mut Builder,
    stores: &[Store],
    width: u8,
    depth: u32,
    fresh: &[Fresh],
    puts: &[Touch],
    takes: &[Touch],
    one: NetId,
) -> Result<(), NoMemory>
    requires width { IsWidth width }
    requires depth { IsLength depth }
    requires few { length stores.now < 2 ^ 32 }
    requires rows { (first : ℕ) × AreInRows first stores.now }
    requires wires { All (AreWires builder.old width) stores.now }
    requires fresh { All (FreshFits builder.old) fresh.now }
    requires puts { All (WriteFits builder.old width) puts.now }
    requires takes { All (TouchFits builder.old) takes.now }
    requires one { IsOne builder.old one }
    ensures fills { OnOk result (Fills builder.old builder.new (flat_map wires_of stores.now)) }
    ensures runs { OnOk result ((first : ℕ) → AreStores builder.old first width depth stores.now → (s : Signals) → RunsOn s builder.new.cells → RunQueues s first depth stores.now fresh.now puts.now takes.now) }
{
    for (i, store) in stores.iter().enumerate() {
        emit_copy(
            builder, store, width, depth, i as u32, fresh, puts, takes, one,
        )?;
    }
    Ok(())
}
