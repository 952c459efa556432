//! A bank whose ports serve two accesses.
ghost use Rattle.std.specs.Prelude.{◌≡◌, ℕ, [], ◌∷◌, OnOk};
ghost use Rattle.sp_netlist.specs.Rules.{IsWidth};
ghost use Rattle.sp_netlist.specs.Signals.{Signals};
ghost use Rattle.sp_gates.specs.Bits.{IsOne};
ghost use Rattle.sp_gates.specs.Grows.{Fills};
ghost use Rattle.sp_gates.specs.Runs.{RunsOn};
ghost use Rattle.sp_access.specs.Asking.{AccessFits};
ghost use Rattle.sp_taps.specs.Wires.{AreInRow, AreWires, wires_of};
ghost use Rattle.sp_taps.specs.Stores.{IsStore};
ghost use Rattle.sp_bank_ports.specs.Ports.{WriteFits, RunsServed, WriteConnected, ReadConnected, ReadWires};

use crate::port::WritePort;
use sp_access::Access;
use sp_netlist::{Builder, NetId, NoMemory};
use sp_taps::{Store, connect};

/// Drives the nets of a bank's port to write.
fn connect_write(
    builder: &mut Builder,
    store: &Store,
    width: u8,
    port: &WritePort,
    one: NetId,
) -> Result<(), NoMemory>
    requires width { IsWidth width }
    requires wires { AreWires builder.old width store.now }
    requires row { AreInRow store.now.write store.now }
    requires port { WriteFits builder.old width port.now }
    requires one { IsOne builder.old one }
    ensures fills { OnOk result (Fills builder.old builder.new (store.now.write ∷ store.now.write_at ∷ store.now.word ∷ [])) }
    ensures rest { OnOk result (ReadWires builder.new store.now) }
    ensures runs { OnOk result ((s : Signals) → RunsOn s builder.new.cells → (t : ℕ) → WriteConnected s t store.now port.now) }
{
    connect(builder, store.write, 1, port.access.on, one)?;
    connect(builder, store.write_at, 32, port.access.place, one)?;
    connect(builder, store.word, width, port.word, one)?;
    Ok(())
}

/// Drives the nets of a bank's port to read.
fn connect_read(
    builder: &mut Builder,
    store: &Store,
    port: &Access,
    one: NetId,
) -> Result<(), NoMemory>
    requires wires { ReadWires builder.old store.now }
    requires row { AreInRow store.now.write store.now }
    requires port { AccessFits builder.old port.now }
    requires one { IsOne builder.old one }
    ensures fills { OnOk result (Fills builder.old builder.new (store.now.read ∷ store.now.read_at ∷ [])) }
    ensures runs { OnOk result ((s : Signals) → RunsOn s builder.new.cells → (t : ℕ) → ReadConnected s t store.now port.now) }
{
    connect(builder, store.read, 1, port.on, one)?;
    connect(builder, store.read_at, 32, port.place, one)?;
    Ok(())
}

/// Drives the nets of a bank's ports. `one` is always 1.
pub fn serve(
    builder: &mut Builder,
    store: &Store,
    width: u8,
    write: &WritePort,
    read: &Access,
    one: NetId,
) -> Result<(), NoMemory>
    requires width { IsWidth width }
    requires wires { AreWires builder.old width store.now }
    requires row { AreInRow store.now.write store.now }
    requires write { WriteFits builder.old width write.now }
    requires read { AccessFits builder.old read.now }
    requires one { IsOne builder.old one }
    ensures fills { OnOk result (Fills builder.old builder.new (wires_of store.now)) }
    ensures runs { OnOk result ((bank len : ℕ) → IsStore builder.old bank width len store.now → (s : Signals) → RunsOn s builder.new.cells → RunsServed s bank len store.now write.now read.now) }
{
    connect_write(builder, store, width, write, one)?;
    connect_read(builder, store, read, one)?;
    Ok(())
}
