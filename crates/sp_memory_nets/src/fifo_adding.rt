//! The banks of a FIFO.
ghost use Rattle.std.specs.Prelude.{◌≡◌, ◌+◌, ◌++◌, ◌<◌, ◌^◌, length, filter, flat_map, All, count_by, IfOk, OnOk};
ghost use Rattle.sp_words.specs.declared.kind.Kind.TheVariants.{Fifo};
ghost use Rattle.sp_words.specs.Types.{width_of};
ghost use Rattle.sp_netlist.specs.Draft.{IsDraft};
ghost use Rattle.sp_netlist.specs.Rules.{is_bank};
ghost use Rattle.sp_core.specs.CoreParts.{plain_core};
ghost use Rattle.sp_core.specs.Declarations.{mem, kind_of, depth};
ghost use Rattle.sp_plan.specs.Plain.{plain_plan};
ghost use Rattle.sp_plan.specs.PlainPlan.{mem_plan};
ghost use Rattle.sp_taps.specs.Wires.{Promises, AreInRows, AreWires, wires_of};
ghost use Rattle.sp_taps.specs.Stores.{AreStores, AddsBanks, bank_cells};

use crate::fifo_shape::depth_of;
use crate::scalar_scalars::{copies_of, memory};
use sp_core::Core;
use sp_netlist::{Builder, NoMemory};
use sp_plan::Plan;
use sp_taps::{Store, add_stores};
use std::alloc::Global;

/// Adds the banks of a FIFO, one for each copy by a plan, each as long as the FIFO is deep, with nets for their ports that are to be
/// driven. `bank` is the number of the next bank. Where the number behind the last one passes 64 bits it answers want of memory.
pub fn add_fifo(
    alloc: Global,
    builder: &mut Builder,
    core: &Core,
    plan: &Plan,
    bank: u64,
    m: u32,
) -> Result<Vec<Store>, NoMemory>
    requires draft { IsDraft builder.old }
    requires bank { bank ≡ count_by is_bank builder.old.cells }
    requires within { m < length (plain_core core.now).mems }
    requires planned { m < length (plain_plan plan.now).mems }
    requires fifo { kind_of (plain_core core.now) m ≡ Fifo }
    ensures few { OnOk result ((mem_plan (plain_plan plan.now) m).depth < 2 ^ 32) }
    ensures numbers { OnOk result (bank + (mem_plan (plain_plan plan.now) m).depth < 2 ^ 64) }
    ensures promises { IfOk result (λ stores. Promises builder.old builder.new (flat_map wires_of stores.items)) }
    ensures each { IfOk result (λ stores. length stores.items ≡ (mem_plan (plain_plan plan.now) m).depth) }
    ensures rows { IfOk result (λ stores. AreInRows (length builder.old.promised) stores.items) }
    ensures wires { IfOk result (λ stores. All (AreWires builder.new (width_of (mem (plain_core core.now) m).ty)) stores.items) }
    ensures stores { IfOk result (λ stores. AreStores builder.new bank (width_of (mem (plain_core core.now) m).ty) (depth (plain_core core.now) m) stores.items) }
    ensures banks { OnOk result (filter is_bank builder.new.cells ≡ filter is_bank builder.old.cells ++ bank_cells bank (width_of (mem (plain_core core.now) m).ty) (depth (plain_core core.now) m) (mem_plan (plain_plan plan.now) m).depth) }
    ensures more { OnOk result (count_by is_bank builder.new.cells ≡ bank + (mem_plan (plain_plan plan.now) m).depth) }
    ensures cells { OnOk result (AddsBanks builder.old builder.new) }
{
    let copies = copies_of(plan, m);
    if bank.checked_add(u64::from(copies)).is_none() {
        return Err(NoMemory);
    }
    let width = memory(core, m).ty.width();
    let depth = depth_of(core, m);
    let stores = add_stores(alloc, builder, bank, copies, width, depth)?;
    Ok(stores)
}
