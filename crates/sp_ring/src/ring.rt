//! A queue in one bank.
ghost use Rattle.std.specs.Prelude.{◌≡◌, ℕ, [], IfOk, OnOk};
ghost use Rattle.sp_netlist.specs.Rules.{IsWidth, IsLength};
ghost use Rattle.sp_netlist.specs.Signals.{Signals};
ghost use Rattle.sp_gates.specs.Bits.{IsOne};
ghost use Rattle.sp_gates.specs.Grows.{Fills};
ghost use Rattle.sp_gates.specs.Runs.{RunsOn};
ghost use Rattle.sp_taps.specs.Wires.{AreInRow, AreWires, wires_of};
ghost use Rattle.sp_taps.specs.Stores.{IsStore};
ghost use Rattle.sp_ring.specs.Rings.{AskedFits, RunsRing};

use crate::part::{Asked, Ring};
use crate::places::counted;
use sp_access::Access;
use sp_bank_ports::{WritePort, serve};
use sp_netlist::{Builder, NetId, NoMemory};
use sp_taps::Store;

/// Drives the nets of a bank's ports, so that it holds a queue of so many words at most. `one` is always 1.
pub fn emit_ring(
    builder: &mut Builder,
    store: &Store,
    width: u8,
    len: u32,
    asked: &Asked,
    one: NetId,
) -> Result<Ring, NoMemory>
    requires width { IsWidth width }
    requires length { IsLength len }
    requires wires { AreWires builder.old width store.now }
    requires row { AreInRow store.now.write store.now }
    requires asked { AskedFits builder.old width asked.now }
    requires one { IsOne builder.old one }
    ensures fills { OnOk result (Fills builder.old builder.new (wires_of store.now)) }
    ensures runs { IfOk result (λ ring. (bank : ℕ) → IsStore builder.old bank width len store.now → (s : Signals) → RunsOn s builder.new.cells → RunsRing s bank len store.now asked.now ring) }
{
    let head = counted(builder, len, asked.take, asked.fresh, one)?;
    let tail = counted(builder, len, asked.put, asked.fresh, one)?;
    let write = WritePort {
        access: Access {
            on: asked.put,
            place: tail,
        },
        word: asked.word,
    };
    let read = Access {
        on: asked.take,
        place: head,
    };
    serve(builder, store, width, &write, &read, one)?;
    Ok(Ring { head, tail })
}
