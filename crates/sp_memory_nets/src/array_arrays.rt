//! The circuit of an SRAM of a core.
ghost use Rattle.std.specs.Prelude.{◌≡◌, ℕ, ◌<◌, ◌++◌, length, flat_map, IfOk, OnOk};
ghost use Rattle.sp_words.specs.declared.kind.Kind.TheVariants.{Sram};
ghost use Rattle.sp_netlist.specs.Signals.{Signals};
ghost use Rattle.sp_gates.specs.Grows.{Fills};
ghost use Rattle.sp_gates.specs.Runs.{RunsOn};
ghost use Rattle.sp_core.specs.CoreParts.{plain_core};
ghost use Rattle.sp_core.specs.Declarations.{kind_of};
ghost use Rattle.sp_plan.specs.Plain.{plain_plan};
ghost use Rattle.sp_taps.specs.Wires.{wires_of};
ghost use Rattle.sp_banked.specs.declared.part.Banked.{Banked};
ghost use Rattle.sp_banked.specs.Runs.{RunsBanked};
ghost use Rattle.sp_tree_handed.specs.declared.owners.OwnerNets.{OwnerNets};
ghost use Rattle.sp_memory_nets.specs.ScalarLists.{answers_to};
ghost use Rattle.sp_memory_nets.specs.ArrayArrays.{IsArrayOf};
ghost use Rattle.sp_memory_nets.specs.ArrayFits.{MemoryFits};

use crate::array_array::Array;
use crate::array_lists::{reads_to, writes_to};
use crate::array_shape::banked;
use sp_access_nets::{AccessNets, picks_accesses_to};
use sp_banked::{Banked, emit_banked};
use sp_core::Core;
use sp_netlist::{Builder, NetId, NoMemory};
use sp_plan::Plan;
use std::alloc::Global;

/// The memory in banks that has what accesses do to an SRAM.
fn array_of(
    alloc: Global,
    core: &Core,
    plan: &Plan,
    accesses: &[AccessNets],
    start: NetId,
    bank: u64,
    m: u32,
) -> Result<Banked, NoMemory>
    requires within { m < length (plain_core core.now).mems }
    requires planned { m < length (plain_plan plan.now).mems }
    ensures array { IfOk result (IsArrayOf (plain_core core.now) (plain_plan plan.now) accesses.now m) }
    ensures start { IfOk result (λ part. part.start ≡ start) }
    ensures bank { IfOk result (λ part. part.bank ≡ bank) }
{
    let writes = writes_to(alloc, m, accesses)?;
    let reads = reads_to(alloc, core, plan, m, accesses)?;
    let part = banked(alloc, core, plan, m, start, bank, writes, reads)?;
    Ok(part)
}

/// Emits an SRAM, whose banks were added before. Each access that is to be answered is so two cycles later.
pub(crate) fn emit_array(
    alloc: Global,
    builder: &mut Builder,
    core: &Core,
    plan: &Plan,
    accesses: &[AccessNets],
    array: &Array,
    start: NetId,
    m: u32,
) -> Result<(), NoMemory>
    requires fits { (owners : OwnerNets) × (port : ℕ) × MemoryFits builder.old (plain_core core.now) (plain_plan plan.now) accesses.now owners port array.now.bank array.now.stores.items start m }
    requires sram { kind_of (plain_core core.now) m ≡ Sram }
    ensures fills { OnOk result (Fills builder.old builder.new (flat_map wires_of array.now.stores.items ++ answers_to m accesses.now)) }
    ensures runs { OnOk result ((s : Signals) → RunsOn s builder.new.cells → (part : Banked) × IsArrayOf (plain_core core.now) (plain_plan plan.now) accesses.now m part × RunsBanked s part) }
{
    picks_accesses_to();
    let part = array_of(alloc, core, plan, accesses, start, array.bank, m)?;
    emit_banked(alloc, builder, &part, &array.stores)?;
    Ok(())
}
