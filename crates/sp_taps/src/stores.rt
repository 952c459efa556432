//! Banks with their ports.
ghost use Rattle.std.specs.Prelude.{◌≡◌, ℕ, ◌+◌, ◌*◌, ◌<◌, ◌≤◌, false, true, List, [], ◌∷◌, ◌++◌, length, filter, flat_map, ◌^◌, All, count_by, Some, slice_get, IfOk, OnOk};
ghost use Rattle.sp_netlist.specs.Cells.{bank_cell, write_tap, read_tap};
ghost use Rattle.sp_netlist.specs.Rules.{IsWidth, IsLength, is_bank};
ghost use Rattle.sp_netlist.specs.Draft.{IsDraft, Keeps, driver_count, net_count};
ghost use Rattle.sp_taps.specs.declared.store.Store.{Store};
ghost use Rattle.sp_taps.specs.Wires.{Promises, AreInRow, AreInRows, AreWires, wires_of};
ghost use Rattle.sp_taps.specs.Stores.{IsStore, AreStores, AddsBanks, bank_cells};

use crate::store::Store;
use sp_netlist::{Builder, Cell, NoMemory};
use std::alloc::Global;

/// Promises the nets of a bank's ports.
fn promise_ports(builder: &mut Builder, width: u8) -> Result<Store, NoMemory>
    requires { IsWidth width }
    ensures promised { OnOk result (builder.new.promised ≡ builder.old.promised ++ (1, false) ∷ (32, false) ∷ (width, false) ∷ (1, false) ∷ (32, false) ∷ (width, true) ∷ []) }
    ensures row { IfOk result (AreInRow (length builder.old.promised)) }
    ensures same_cells { OnOk result (builder.new.cells ≡ builder.old.cells) }
    ensures keeps { OnOk result (Keeps builder.old builder.new) }
    ensures draft { OnOk result (IsDraft builder.new) }
{
    let write = builder.promise(1, false)?;
    let write_at = builder.promise(32, false)?;
    let word = builder.promise(width, false)?;
    let read = builder.promise(1, false)?;
    let read_at = builder.promise(32, false)?;
    let found = builder.promise(width, true)?;
    Ok(Store {
        write,
        write_at,
        word,
        read,
        read_at,
        found,
    })
}

/// Adds a bank with a tap on each port.
fn add_taps(
    builder: &mut Builder,
    bank: u64,
    width: u8,
    len: u32,
    store: &Store,
) -> Result<(), NoMemory>
    requires bank { bank ≡ count_by is_bank builder.old.cells }
    requires width { IsWidth width }
    requires length { IsLength len }
    requires write { slice_get builder.old.promised store.now.write ≡ Some (1, false) }
    requires write_at { slice_get builder.old.promised store.now.write_at ≡ Some (32, false) }
    requires word { slice_get builder.old.promised store.now.word ≡ Some (width, false) }
    requires read { slice_get builder.old.promised store.now.read ≡ Some (1, false) }
    requires read_at { slice_get builder.old.promised store.now.read_at ≡ Some (32, false) }
    requires found { slice_get builder.old.promised store.now.found ≡ Some (width, true) }
    requires undriven { driver_count builder.old.cells store.now.found ≡ 0 }
    ensures added { OnOk result (builder.new.cells ≡ builder.old.cells ++ bank_cell bank width len ∷ write_tap bank store.now.write store.now.write_at store.now.word ∷ read_tap store.now.found bank store.now.read store.now.read_at ∷ []) }
    ensures drivers { OnOk result ((net : ℕ) → driver_count builder.new.cells net ≡ driver_count builder.old.cells net + net_count ((store.now.found, width) ∷ []) net) }
    ensures same_nets { OnOk result (builder.new.promised ≡ builder.old.promised) }
    ensures keeps { OnOk result (Keeps builder.old builder.new) }
    ensures draft { OnOk result (IsDraft builder.new) }
{
    builder.add(Cell::Bank(bank, width, len))?;
    builder.add(Cell::WriteTap(bank, store.write, store.write_at, store.word))?;
    builder.add(Cell::ReadTap(store.found, bank, store.read, store.read_at))?;
    Ok(())
}

/// Adds the next bank, with nets for its ports that are to be driven.
pub fn add_store(builder: &mut Builder, bank: u64, width: u8, len: u32) -> Result<Store, NoMemory>
    requires draft { IsDraft builder.old }
    requires bank { bank ≡ count_by is_bank builder.old.cells }
    requires width { IsWidth width }
    requires length { IsLength len }
    ensures promises { IfOk result (λ store. Promises builder.old builder.new (wires_of store)) }
    ensures row { IfOk result (AreInRow (length builder.old.promised)) }
    ensures longer { OnOk result (length builder.new.promised ≡ length builder.old.promised + 6) }
    ensures wires { IfOk result (AreWires builder.new width) }
    ensures store { IfOk result (IsStore builder.new bank width len) }
    ensures banks { OnOk result (filter is_bank builder.new.cells ≡ filter is_bank builder.old.cells ++ bank_cell bank width len ∷ []) }
    ensures one_more { OnOk result (count_by is_bank builder.new.cells ≡ bank + 1) }
    ensures cells { OnOk result (AddsBanks builder.old builder.new) }
{
    let store = promise_ports(builder, width)?;
    add_taps(builder, bank, width, len, &store)?;
    Ok(store)
}

/// Adds so many banks of one length, from the number of the next one on.
pub fn add_stores(
    alloc: Global,
    builder: &mut Builder,
    first: u64,
    count: u32,
    width: u8,
    len: u32,
) -> Result<Vec<Store>, NoMemory>
    requires draft { IsDraft builder.old }
    requires first { first ≡ count_by is_bank builder.old.cells }
    requires numbers { first + count < 2 ^ 64 }
    requires width { IsWidth width }
    requires length { IsLength len }
    ensures promises { IfOk result (λ stores. Promises builder.old builder.new (flat_map wires_of stores.items)) }
    ensures each { IfOk result (λ stores. length stores.items ≡ count) }
    ensures rows { IfOk result (λ stores. AreInRows (length builder.old.promised) stores.items) }
    ensures wires { IfOk result (λ stores. All (AreWires builder.new width) stores.items) }
    ensures stores { IfOk result (λ stores. AreStores builder.new first width len stores.items) }
    ensures banks { OnOk result (filter is_bank builder.new.cells ≡ filter is_bank builder.old.cells ++ bank_cells first width len count) }
    ensures more { OnOk result (count_by is_bank builder.new.cells ≡ first + count) }
    ensures cells { OnOk result (AddsBanks builder.old builder.new) }
{
    let mut stores = Vec::new(alloc);
    for i in 0..count {
        let store = add_store(builder, first + u64::from(i), width, len)?;
        stores.push(store)?;
    }
    Ok(stores)
}
