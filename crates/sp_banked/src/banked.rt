//! A whole memory in banks.
ghost use Rattle.std.specs.Prelude.{◌≡◌, ℕ, ◌+◌, ◌*◌, ◌/◌, ◌%◌, ◌^◌, ◌++◌, ◌<◌, ◌≤◌, [], length, flat_map, All, IfOk, OnOk};
ghost use Rattle.sp_words.specs.Types.{width_of};
ghost use Rattle.sp_netlist.specs.Signals.{Signals};
ghost use Rattle.sp_gates.specs.Bits.{IsOne};
ghost use Rattle.sp_gates.specs.Grows.{Fills};
ghost use Rattle.sp_gates.specs.Nets.{HasNet};
ghost use Rattle.sp_gates.specs.Runs.{RunsOn};
ghost use Rattle.sp_mem.specs.Fits.{words_of};
ghost use Rattle.sp_taps.specs.Wires.{AreInRows, AreWires, wires_of};
ghost use Rattle.sp_taps.specs.Stores.{AreStores};
ghost use Rattle.sp_requests.specs.Requests.{RequestFits};
ghost use Rattle.sp_stores.specs.Lines.{RunLines};
ghost use Rattle.sp_banked.specs.Fits.{bank_count, bank_size, IsShape, StoresFit, BankedFits};
ghost use Rattle.sp_banked.specs.Runs.{RunsBanked};

use crate::part::Banked;
use crate::readers::emit_readers;
use sp_gates::one;
use sp_netlist::{Builder, Ends, NetId, NoMemory};
use sp_requests::{Request, requests};
use sp_stores::{serve_all, write_lines};
use sp_taps::Store;
use std::alloc::Global;

/// Drives the ports of all banks, for these writes and reads. `one` is always 1.
fn emit_ports(
    alloc: Global,
    builder: &mut Builder,
    part: &Banked,
    stores: &[Store],
    writes: &[Request],
    reads: &[Request],
    one: NetId,
) -> Result<(), NoMemory>
    requires shape { IsShape part.now }
    requires stores { StoresFit builder.old part.now stores.now }
    requires writes { All (RequestFits builder.old) writes.now }
    requires words { All (λ r. HasNet builder.old r.word (width_of part.now.ty)) writes.now }
    requires reads { All (RequestFits builder.old) reads.now }
    requires one { IsOne builder.old one }
    ensures fills { OnOk result (Fills builder.old builder.new (flat_map wires_of stores.now)) }
    ensures runs { OnOk result ((s : Signals) → RunsOn s builder.new.cells → RunLines s part.now.bank (bank_size part.now) stores.now (part.now.copies * part.now.layout.banks) part.now.layout.banks writes.now reads.now) }
{
    let width = part.ty.width();
    let banks = part.layout.banks;
    let ports = write_lines(alloc, builder, width, writes, part.copies, banks)?;
    serve_all(
        alloc,
        builder,
        width,
        stores,
        &ports,
        reads,
        banks as usize,
        one,
    )?;
    Ok(())
}

/// Emits a memory whose banks were added before. A read finds its word two cycles after it is enabled.
pub fn emit_banked(
    alloc: Global,
    builder: &mut Builder,
    part: &Banked,
    stores: &[Store],
) -> Result<Ends, NoMemory>
    requires fits { BankedFits builder.old part.now }
    requires stores { StoresFit builder.old part.now stores.now }
    ensures fills { OnOk result (Fills builder.old builder.new (flat_map wires_of stores.now ++ words_of part.now.reads.items)) }
    ensures start { IfOk result (λ ends. ends.start ≡ part.now.start) }
    ensures done { IfOk result (λ ends. ends.done ≡ part.now.start) }
    ensures nets { IfOk result (λ ends. ends.nets.items ≡ []) }
    ensures stores_stay { OnOk result (AreStores builder.new part.now.bank (width_of part.now.ty) (bank_size part.now) stores.now) }
    ensures runs { OnOk result ((s : Signals) → RunsOn s builder.new.cells → RunsBanked s part.now) }
{
    let one = one(builder)?;
    let writes = requests(alloc, builder, &part.layout, &part.writes)?;
    let reads = requests(alloc, builder, &part.layout, &part.reads)?;
    emit_ports(alloc, builder, part, stores, &writes, &reads, one)?;
    let width = part.ty.width();
    let banks = part.layout.banks;
    let lines = part.copies * banks;
    emit_readers(builder, width, &reads, stores, lines, banks, one)?;
    Ok(Ends {
        start: part.start,
        done: part.start,
        nets: Vec::new(alloc),
    })
}
