//! A store of some words to a DRAM.
ghost use Rattle.std.specs.Prelude.{◌≡◌, ◌≢◌, ◌∷◌, [], count_by, IfOk, OnOk};
ghost use Rattle.sp_netlist.specs.Rules.{dram_width, is_dram, is_unit};
ghost use Rattle.sp_netlist.specs.Draft.{Draft, IsDraft};
ghost use Rattle.sp_gates.specs.Grows.{Builds, Fills};
ghost use Rattle.sp_gates.specs.Nets.{Awaits, HasNet};
ghost use Rattle.sp_xfer.specs.Fits.{IsStored};
ghost use Rattle.sp_worked_parts.specs.Slices.{IsStore, StoreSeen};

use crate::count::{collect, plus};
use crate::machine::begin;
use crate::outputs::{output, second_output};
use crate::slices::{dram, first_of, range, size};
use sp_channels::{StorePort, add_store};
use sp_gates::{constant, drive, hold, one};
use sp_netlist::{Builder, Cell, NetId, Netlist, NoMemory};
use sp_xfer::{Store, Stored, emit_store};
use std::alloc::Global;

fn store(
    alloc: Global,
    start: NetId,
    port: StorePort,
    from: NetId,
    until: NetId,
    found: NetId,
) -> Result<Store, NoMemory>
    ensures { IfOk result (IsStore start port from until found) }
{
    let dims = size(alloc)?;
    let moves = range(alloc, from, until)?;
    Ok(Store {
        start,
        port,
        dims,
        moves,
        found,
        width: 32,
    })
}

/// Drives the word that was read at an index two cycles before, which is 10 and the index. `one` is always 1.
fn reader(builder: &mut Builder, z: NetId, index: NetId, one: NetId) -> Result<(), NoMemory>
    requires z { Awaits builder.old z 32 }
    requires index { HasNet builder.old index 32 }
    requires one { HasNet builder.old one 1 }
    ensures fills { OnOk result (Fills builder.old builder.new (z ∷ [])) }
{
    let found = plus(builder, index, 10)?;
    let tap = hold(builder, 32, 0, found, one)?;
    drive(builder, z, 32, 0, tap, one)?;
    Ok(())
}

/// Where a word is read on the chip, at which index, and where the store is done.
#[derive(Clone, Copy)]
struct Seen {
    read: NetId,
    index: NetId,
    done: NetId,
}

fn look(nets: &Stored, other: NetId) -> Seen
    ensures { (d : Draft) → IsStored d nets.now → HasNet d other 32 → StoreSeen d result }
{
    let index = first_of(&nets.indices, other);
    Seen {
        read: nets.read,
        index,
        done: nets.moving.done,
    }
}

/// The store, which is started in cycle 0. Where a word is read, `y` takes its index as a digit; `z` is the word that was read two
/// cycles before.
fn emit(
    alloc: Global,
    builder: &mut Builder,
    y: NetId,
    z: NetId,
    from: u32,
    until: u32,
) -> Result<NetId, NoMemory>
    requires draft { IsDraft builder.old }
    requires units { count_by is_unit builder.old.cells ≡ 0 }
    requires drams { count_by is_dram builder.old.cells ≡ 1 }
    requires words { dram_width builder.old.cells 0 ≡ 32 }
    requires y { Awaits builder.old y 32 }
    requires z { Awaits builder.old z 32 }
    requires apart { y ≢ z }
    ensures fills { OnOk result (Builds builder.old builder.new (y ∷ z ∷ [])) }
    ensures done { IfOk result (λ done. HasNet builder.new done 1) }
{
    let port = add_store(builder, 0, 0, 32)?;
    let always = one(builder)?;
    let start = begin(builder, always)?;
    let first = constant(builder, 32, u64::from(from))?;
    let past = constant(builder, 32, u64::from(until))?;
    let part = store(alloc, start, port, first, past, z)?;
    let stored = emit_store(alloc, builder, &part)?;
    let nets = look(&stored, first);
    collect(builder, y, nets.index, nets.read)?;
    reader(builder, z, nets.index, always)?;
    Ok(nets.done)
}

/// A store to the words from one index up to another one as a netlist, which is done where the store is. Word k of the slice is
/// 10 + k, and the digits of its output `y` are the indices that were read on the chip; `z` has the words that were read.
pub fn worked_save(alloc: Global, from: u32, until: u32) -> Result<Netlist, NoMemory> {
    let mut builder = Builder::new(alloc);
    let y = output(alloc, &mut builder)?;
    let z = second_output(alloc, &mut builder)?;
    dram(alloc, &mut builder)?;
    let done = emit(alloc, &mut builder, y, z, from, until)?;
    builder.add(Cell::Done(done))?;
    builder.finish(alloc)
}
