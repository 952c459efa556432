//! The circuit of a FIFO of a core.
ghost use Rattle.std.specs.Prelude.{◌≡◌, ℕ, ◌<◌, ◌++◌, length, flat_map, IfOk, OnOk};
ghost use Rattle.sp_words.specs.declared.kind.Kind.TheVariants.{Fifo};
ghost use Rattle.sp_netlist.specs.Rules.{IsLength};
ghost use Rattle.sp_netlist.specs.Signals.{Signals};
ghost use Rattle.sp_gates.specs.Grows.{Fills};
ghost use Rattle.sp_gates.specs.Runs.{RunsOn};
ghost use Rattle.sp_core.specs.CoreParts.{plain_core};
ghost use Rattle.sp_core.specs.Declarations.{kind_of};
ghost use Rattle.sp_plan.specs.Plain.{plain_plan};
ghost use Rattle.sp_taps.specs.Wires.{wires_of};
ghost use Rattle.sp_memory_nets.specs.ScalarLists.{answers_to};
ghost use Rattle.sp_memory_nets.specs.FifoFits.{FifoFits};
ghost use Rattle.sp_memory_nets.specs.FifoRuns.{IsFifoOf, RunsFifo};

use crate::fifo_puts::puts_to;
use crate::fifo_shape::depth_of;
use crate::scalar_lists::{fresh_to, has_reset, reads_to};
use crate::scalar_scalars::{copies_of, memory};
use sp_access_nets::{AccessNets, picks_accesses_to};
use sp_core::Core;
use sp_netlist::{Builder, NetId, NoMemory};
use sp_plan::Plan;
use sp_queue::{Queue, emit_queue};
use sp_taps::Store;
use sp_tree_handed::OwnerNets;
use std::alloc::Global;

/// The queue of a FIFO, from the number of a bank on, with all that accesses and owners do to it.
fn queue_of(
    alloc: Global,
    core: &Core,
    plan: &Plan,
    accesses: &[AccessNets],
    owners: &OwnerNets,
    bank: u64,
    start: NetId,
    m: u32,
) -> Result<Queue, NoMemory>
    requires within { m < length (plain_core core.now).mems }
    requires planned { m < length (plain_plan plan.now).mems }
    requires fifo { kind_of (plain_core core.now) m ≡ Fifo }
    ensures start { IfOk result (λ part. part.start ≡ start) }
    ensures bank { IfOk result (λ part. part.bank ≡ bank) }
    ensures depth { IfOk result (λ part. IsLength part.depth) }
    ensures fifo { IfOk result (IsFifoOf (plain_core core.now) (plain_plan plan.now) accesses.now owners.now m) }
{
    let mem = memory(core, m);
    let fresh = fresh_to(alloc, m, has_reset(mem.kind, mem.start), accesses, owners)?;
    let puts = puts_to(alloc, m, accesses)?;
    let takes = reads_to(alloc, m, accesses)?;
    Ok(Queue {
        start,
        bank,
        ty: mem.ty,
        depth: depth_of(core, m),
        copies: copies_of(plan, m),
        fresh,
        puts,
        takes,
    })
}

/// Emits a FIFO, whose banks were added before. Each access that is to be answered is so two cycles later. `start` is 1 in the cycle
/// in which a run begins.
pub fn emit_fifo(
    alloc: Global,
    builder: &mut Builder,
    core: &Core,
    plan: &Plan,
    accesses: &[AccessNets],
    owners: &OwnerNets,
    bank: u64,
    stores: &[Store],
    start: NetId,
    m: u32,
) -> Result<(), NoMemory>
    requires { FifoFits builder.old (plain_core core.now) (plain_plan plan.now) accesses.now owners.now bank stores.now start m }
    ensures fills { OnOk result (Fills builder.old builder.new (flat_map wires_of stores.now ++ answers_to m accesses.now)) }
    ensures runs { OnOk result ((s : Signals) → RunsOn s builder.new.cells → RunsFifo (plain_core core.now) (plain_plan plan.now) s accesses.now owners.now m bank) }
{
    picks_accesses_to();
    let part = queue_of(alloc, core, plan, accesses, owners, bank, start, m)?;
    emit_queue(alloc, builder, &part, stores)?;
    Ok(())
}
