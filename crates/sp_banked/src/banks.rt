//! The banks of a memory.
ghost use Rattle.std.specs.Prelude.{◌≡◌, ◌+◌, ◌*◌, ◌++◌, ◌^◌, ◌<◌, ◌≤◌, length, filter, flat_map, count_by, All, IfOk, OnOk};
ghost use Rattle.sp_words.specs.Types.{width_of};
ghost use Rattle.sp_netlist.specs.Rules.{IsLength, is_bank};
ghost use Rattle.sp_netlist.specs.Draft.{IsDraft};
ghost use Rattle.sp_bank.specs.Places.{product_of, bank_length};
ghost use Rattle.sp_places.specs.Layouts.{IsLayout, banking_of};
ghost use Rattle.sp_taps.specs.Wires.{Promises, AreInRows, AreWires, wires_of};
ghost use Rattle.sp_taps.specs.Stores.{AreStores, AddsBanks, bank_cells};
ghost use Rattle.sp_banked.specs.Fits.{bank_count, bank_size, IsShape};

use crate::part::Banked;
use sp_netlist::{Builder, NoMemory};
use sp_places::Layout;
use sp_taps::{Store, add_stores};
use std::alloc::Global;

/// How many elements there are of these sizes.
fn size_of(sizes: &[u32]) -> u64
    requires lengths { All IsLength sizes.now }
    requires small { product_of sizes.now < 2 ^ 31 }
    ensures { result ≡ product_of sizes.now }
{
    let [size, rest @ ..] = sizes else { return 1 };
    u64::from(*size) * size_of(rest)
}

/// How many places a bank has.
fn bank_len(layout: &Layout) -> u32
    requires { IsLayout layout.now }
    ensures value { result ≡ bank_length (banking_of layout.now) layout.now.dims.items }
    ensures length { IsLength result }
{
    let hinge = layout.hinge as usize;
    let before = size_of(&layout.dims[..hinge]);
    let after = size_of(&layout.dims[hinge + 1..]);
    let period = layout.banks * layout.block;
    let periods = layout.dims[hinge].div_ceil(period);
    let row = u64::from(periods) * u64::from(layout.block);
    (before * after * row) as u32
}

/// Adds the banks of a memory, with nets for their ports that are to be driven.
pub fn add_banks(
    alloc: Global,
    builder: &mut Builder,
    part: &Banked,
) -> Result<Vec<Store>, NoMemory>
    requires draft { IsDraft builder.old }
    requires bank { part.now.bank ≡ count_by is_bank builder.old.cells }
    requires shape { IsShape part.now }
    ensures promises { IfOk result (λ stores. Promises builder.old builder.new (flat_map wires_of stores.items)) }
    ensures each { IfOk result (λ stores. length stores.items ≡ bank_count part.now) }
    ensures rows { IfOk result (λ stores. AreInRows (length builder.old.promised) stores.items) }
    ensures wires { IfOk result (λ stores. All (AreWires builder.new (width_of part.now.ty)) stores.items) }
    ensures stores { IfOk result (λ stores. AreStores builder.new part.now.bank (width_of part.now.ty) (bank_size part.now) stores.items) }
    ensures banks { OnOk result (filter is_bank builder.new.cells ≡ filter is_bank builder.old.cells ++ bank_cells part.now.bank (width_of part.now.ty) (bank_size part.now) (bank_count part.now)) }
    ensures more { OnOk result (count_by is_bank builder.new.cells ≡ part.now.bank + bank_count part.now) }
    ensures cells { OnOk result (AddsBanks builder.old builder.new) }
{
    let len = bank_len(&part.layout);
    let count = part.duplicates * (part.copies * part.layout.banks);
    let stores = add_stores(alloc, builder, part.bank, count, part.ty.width(), len)?;
    Ok(stores)
}
