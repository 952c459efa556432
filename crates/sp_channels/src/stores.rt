//! Store units with their channels.
ghost use Rattle.std.specs.Prelude.{◌≡◌, ℕ, ◌+◌, ◌<◌, false, true, [], ◌∷◌, ◌++◌, length, filter, count_by, IfOk, OnOk};
ghost use Rattle.sp_netlist.specs.Cells.{store_unit};
ghost use Rattle.sp_netlist.specs.Rules.{IsWidth, is_bank, is_dram, is_unit, dram_width};
ghost use Rattle.sp_netlist.specs.Draft.{IsDraft, Keeps};
ghost use Rattle.sp_taps.specs.Wires.{Promises};
ghost use Rattle.sp_channels.specs.Ports.{store_wires, IsStoreRow, AreStoreWires};
ghost use Rattle.sp_channels.specs.Units.{IsStoreUnit};

use crate::ports::StorePort;
use sp_netlist::{Builder, Cell, NoMemory};

/// Promises the nets of a store unit.
fn promise_store(builder: &mut Builder, width: u8) -> Result<StorePort, NoMemory>
    requires { IsWidth width }
    ensures promised { OnOk result (builder.new.promised ≡ builder.old.promised ++ (1, false) ∷ (1, false) ∷ (32, false) ∷ (width, false) ∷ (1, true) ∷ []) }
    ensures row { IfOk result (IsStoreRow (length builder.old.promised)) }
    ensures same_cells { OnOk result (builder.new.cells ≡ builder.old.cells) }
    ensures keeps { OnOk result (Keeps builder.old builder.new) }
    ensures draft { OnOk result (IsDraft builder.new) }
{
    let request = builder.promise(1, false)?;
    let last = builder.promise(1, false)?;
    let address = builder.promise(32, false)?;
    let word = builder.promise(width, false)?;
    let ready = builder.promise(1, true)?;
    Ok(StorePort {
        request,
        last,
        address,
        word,
        ready,
    })
}

/// Adds the next channel with a store unit of that DRAM, with nets that are to be driven.
pub fn add_store(
    builder: &mut Builder,
    channel: u64,
    dram: u32,
    width: u8,
) -> Result<StorePort, NoMemory>
    requires draft { IsDraft builder.old }
    requires channel { channel ≡ count_by is_unit builder.old.cells }
    requires dram { dram < count_by is_dram builder.old.cells }
    requires words { dram_width builder.old.cells dram ≡ width }
    requires width { IsWidth width }
    ensures promises { IfOk result (λ port. Promises builder.old builder.new (store_wires port)) }
    ensures row { IfOk result (IsStoreRow (length builder.old.promised)) }
    ensures longer { OnOk result (length builder.new.promised ≡ length builder.old.promised + 5) }
    ensures wires { IfOk result (λ port. AreStoreWires builder.new width port) }
    ensures unit { IfOk result (IsStoreUnit builder.new channel dram) }
    ensures one_more { OnOk result (count_by is_unit builder.new.cells ≡ channel + 1) }
    ensures banks { OnOk result (filter is_bank builder.new.cells ≡ filter is_bank builder.old.cells) }
    ensures cells { IfOk result (λ port. builder.new.cells ≡ builder.old.cells ++ store_unit channel dram port.ready port.request port.last port.address port.word ∷ []) }
{
    let port = promise_store(builder, width)?;
    builder.add(Cell::StoreUnit(
        channel,
        dram,
        port.ready,
        port.request,
        port.last,
        port.address,
        port.word,
    ))?;
    Ok(port)
}
