//! The banks of all SRAMs and FIFOs of a core.
ghost use Rattle.std.specs.Prelude.{◌≡◌, true, ◌+◌, ◌++◌, ◌<◌, ◌≤◌, ◌^◌, [], length, filter, flat_map, count_by, IfOk, OnOk};
ghost use Rattle.sp_words.specs.Types.{width_of};
ghost use Rattle.sp_words.specs.declared.kind.Kind.TheVariants.{Sram};
ghost use Rattle.sp_netlist.specs.Draft.{IsDraft};
ghost use Rattle.sp_netlist.specs.Rules.{is_bank};
ghost use Rattle.sp_core.specs.CoreParts.{plain_core};
ghost use Rattle.sp_core.specs.Declarations.{mem, kind_of};
ghost use Rattle.sp_plan.specs.Plain.{plain_plan};
ghost use Rattle.sp_taps.specs.Wires.{Promises, wires_of};
ghost use Rattle.sp_taps.specs.Stores.{AddsBanks, bank_cells};
ghost use Rattle.sp_banked.specs.Fits.{bank_count};
ghost use Rattle.sp_memory_nets.specs.ArrayBanks.{HasArrayPlan, ArrayStands, ArraysStand, AreNumbered, banks_before, array_banks, array_size, array_cells, wires_in};

use crate::array_array::Array;
use crate::array_shape::{banked, memory};
use crate::fifo_adding::add_fifo;
use sp_banked::{Banked, add_banks};
use sp_core::Core;
use sp_netlist::{Builder, NetId, NoMemory};
use sp_plan::Plan;
use sp_words::Kind;
use std::alloc::Global;

/// Whether the number of a memory's banks has 32 bits, and the number of each bank 64.
fn is_numbered(part: &Banked) -> bool
    requires { 1 ≤ part.now.duplicates }
    ensures few { result ≡ true → bank_count part.now < 2 ^ 32 }
    ensures numbers { result ≡ true → part.now.bank + bank_count part.now < 2 ^ 64 }
{
    let lines = u64::from(part.copies) * u64::from(part.layout.banks);
    if lines >= 1 << 32 {
        return false;
    }
    let count = u64::from(part.duplicates) * lines;
    count < 1 << 32 && part.bank < 1 << 63
}

/// The banks of an SRAM, from the next number on.
fn add_sram(
    alloc: Global,
    builder: &mut Builder,
    core: &Core,
    plan: &Plan,
    bank: u64,
    m: u32,
) -> Result<Array, NoMemory>
    requires draft { IsDraft builder.old }
    requires bank { bank ≡ count_by is_bank builder.old.cells }
    requires within { m < length (plain_core core.now).mems }
    requires sram { kind_of (plain_core core.now) m ≡ Sram }
    requires planned { HasArrayPlan (plain_core core.now) (plain_plan plan.now) }
    ensures promises { IfOk result (λ array. Promises builder.old builder.new (flat_map wires_of array.stores.items)) }
    ensures bank { IfOk result (λ array. array.bank ≡ bank) }
    ensures stands { IfOk result (λ array. ArrayStands builder.new (plain_core core.now) (plain_plan plan.now) m bank array.stores.items) }
    ensures banks { OnOk result (filter is_bank builder.new.cells ≡ filter is_bank builder.old.cells ++ bank_cells bank (width_of (mem (plain_core core.now) m).ty) (array_size (plain_core core.now) (plain_plan plan.now) m) (array_banks (plain_core core.now) (plain_plan plan.now) m)) }
    ensures more { OnOk result (count_by is_bank builder.new.cells ≡ bank + array_banks (plain_core core.now) (plain_plan plan.now) m) }
    ensures cells { OnOk result (AddsBanks builder.old builder.new) }
{
    let writes = Vec::new(alloc);
    let reads = Vec::new(alloc);
    let part = banked(alloc, core, plan, m, NetId::new(0), bank, writes, reads)?;
    if !is_numbered(&part) {
        return Err(NoMemory);
    }
    let stores = add_banks(alloc, builder, &part)?;
    Ok(Array { bank, stores })
}

/// The banks of a memory, from the next number on.
fn add_array(
    alloc: Global,
    builder: &mut Builder,
    core: &Core,
    plan: &Plan,
    bank: u64,
    m: u32,
) -> Result<Array, NoMemory>
    requires draft { IsDraft builder.old }
    requires bank { bank ≡ count_by is_bank builder.old.cells }
    requires within { m < length (plain_core core.now).mems }
    requires planned { HasArrayPlan (plain_core core.now) (plain_plan plan.now) }
    ensures promises { IfOk result (λ array. Promises builder.old builder.new (flat_map wires_of array.stores.items)) }
    ensures bank { IfOk result (λ array. array.bank ≡ bank) }
    ensures stands { IfOk result (λ array. ArrayStands builder.new (plain_core core.now) (plain_plan plan.now) m bank array.stores.items) }
    ensures banks { OnOk result (filter is_bank builder.new.cells ≡ filter is_bank builder.old.cells ++ bank_cells bank (width_of (mem (plain_core core.now) m).ty) (array_size (plain_core core.now) (plain_plan plan.now) m) (array_banks (plain_core core.now) (plain_plan plan.now) m)) }
    ensures more { OnOk result (count_by is_bank builder.new.cells ≡ bank + array_banks (plain_core core.now) (plain_plan plan.now) m) }
    ensures cells { OnOk result (AddsBanks builder.old builder.new) }
{
    match memory(core, m).kind {
        Kind::Sram => {
            let array = add_sram(alloc, builder, core, plan, bank, m)?;
            Ok(array)
        }
        Kind::Fifo => {
            let stores = add_fifo(alloc, builder, core, plan, bank, m)?;
            Ok(Array { bank, stores })
        }
        _ => Ok(Array {
            bank,
            stores: Vec::new(alloc),
        }),
    }
}

/// Adds the banks of each SRAM and FIFO of a core by a plan, in the order of memories, with nets for their ports that are to be driven.
/// `first` is the number of the next bank. Where the banks of a memory are 2^32 or more, or a number passes 2^64, it answers want
/// of memory.
pub fn add_arrays(
    alloc: Global,
    builder: &mut Builder,
    core: &Core,
    plan: &Plan,
    first: u64,
) -> Result<Vec<Array>, NoMemory>
    requires draft { IsDraft builder.old }
    requires first { first ≡ count_by is_bank builder.old.cells }
    requires planned { HasArrayPlan (plain_core core.now) (plain_plan plan.now) }
    ensures promises { IfOk result (λ arrays. Promises builder.old builder.new (wires_in arrays.items)) }
    ensures stand { IfOk result (λ arrays. ArraysStand builder.new (plain_core core.now) (plain_plan plan.now) arrays.items) }
    ensures banks { OnOk result (filter is_bank builder.new.cells ≡ filter is_bank builder.old.cells ++ array_cells (plain_core core.now) (plain_plan plan.now) first (length (plain_core core.now).mems)) }
    ensures numbers { IfOk result (λ arrays. AreNumbered (plain_core core.now) (plain_plan plan.now) first arrays.items) }
    ensures count { OnOk result (count_by is_bank builder.new.cells ≡ first + banks_before (plain_core core.now) (plain_plan plan.now) (length (plain_core core.now).mems)) }
    ensures cells { OnOk result (AddsBanks builder.old builder.new) }
{
    let mut arrays = Vec::new(alloc);
    let mut bank = first;
    for m in 0..core.mems().len() {
        let array = add_array(alloc, builder, core, plan, bank, m as u32)?;
        bank += array.stores.len() as u64;
        arrays.push(array)?;
    }
    Ok(arrays)
}
