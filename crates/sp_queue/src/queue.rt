//! A whole queue.
ghost use Rattle.std.specs.Prelude.{◌≡◌, ℕ, ◌^◌, ◌<◌, ◌++◌, [], length, flat_map, All, IfOk, OnOk};
ghost use Rattle.sp_words.specs.Types.{width_of};
ghost use Rattle.sp_netlist.specs.Signals.{Signals};
ghost use Rattle.sp_gates.specs.Bits.{IsOne};
ghost use Rattle.sp_gates.specs.Grows.{Fills};
ghost use Rattle.sp_gates.specs.Runs.{RunsOn};
ghost use Rattle.sp_mem.specs.Fits.{words_of};
ghost use Rattle.sp_taps.specs.Wires.{wires_of};
ghost use Rattle.sp_taps.specs.Stores.{AreStores};
ghost use Rattle.sp_queue.specs.Takes.{QueueFits, BanksFit, TakesFit, RunsTakes};
ghost use Rattle.sp_queue_copies.specs.Events.{RunQueues};

use crate::part::Queue;
use crate::takes::take_requests;
use sp_banked::emit_readers;
use sp_gates::{constant, one};
use sp_netlist::{Builder, Ends, NetId, NoMemory};
use sp_queue_copies::emit_copies;
use sp_taps::Store;
use std::alloc::Global;

/// Drives the nets of takes: each has the word that its copy's bank found a cycle before. `one` is always 1.
fn emit_takers(
    alloc: Global,
    builder: &mut Builder,
    part: &Queue,
    stores: &[Store],
    one: NetId,
) -> Result<(), NoMemory>
    requires takes { TakesFit builder.old part.now }
    requires banks { length stores.now ≡ part.now.copies }
    requires stores { AreStores builder.old part.now.bank (width_of part.now.ty) part.now.depth stores.now }
    requires one { IsOne builder.old one }
    ensures fills { OnOk result (Fills builder.old builder.new (words_of part.now.takes.items)) }
    ensures runs { OnOk result ((s : Signals) → RunsOn s builder.new.cells → All (RunsTakes s part.now.copies stores.now) part.now.takes.items) }
{
    let zero = constant(builder, 32, 0)?;
    let requests = take_requests(alloc, builder, &part.takes, zero)?;
    emit_readers(
        builder,
        part.ty.width(),
        &requests,
        stores,
        part.copies,
        1,
        one,
    )?;
    Ok(())
}

/// Emits a queue whose banks were added before, one for each copy, as long as the queue is deep. A take has its word two cycles
/// after it is enabled.
pub fn emit_queue(
    alloc: Global,
    builder: &mut Builder,
    part: &Queue,
    stores: &[Store],
) -> Result<Ends, NoMemory>
    requires fits { QueueFits builder.old part.now }
    requires stores { BanksFit builder.old part.now stores.now }
    ensures fills { OnOk result (Fills builder.old builder.new (flat_map wires_of stores.now ++ words_of part.now.takes.items)) }
    ensures start { IfOk result (λ ends. ends.start ≡ part.now.start) }
    ensures done { IfOk result (λ ends. ends.done ≡ part.now.start) }
    ensures nets { IfOk result (λ ends. ends.nets.items ≡ []) }
    ensures stores_stay { OnOk result (AreStores builder.new part.now.bank (width_of part.now.ty) part.now.depth stores.now) }
    ensures copies { OnOk result ((s : Signals) → RunsOn s builder.new.cells → RunQueues s part.now.bank part.now.depth stores.now part.now.fresh.items part.now.puts.items part.now.takes.items) }
    ensures takes { OnOk result ((s : Signals) → RunsOn s builder.new.cells → All (RunsTakes s part.now.copies stores.now) part.now.takes.items) }
{
    // Read, so that it is known to have 32 bits.
    let _copies = part.copies;
    let one = one(builder)?;
    emit_copies(
        builder,
        stores,
        part.ty.width(),
        part.depth,
        &part.fresh,
        &part.puts,
        &part.takes,
        one,
    )?;
    emit_takers(alloc, builder, part, stores, one)?;
    Ok(Ends {
        start: part.start,
        done: part.start,
        nets: Vec::new(alloc),
    })
}
