//! The circuit of a core of registers, arguments, outputs, SRAMs and FIFOs, with its loads and its stores.
ghost use Rattle.std.specs.Prelude.{◌++◌, IfOk, OnOk, ◌≡◌};
ghost use Rattle.sp_netlist.specs.Signals.{Signals};
ghost use Rattle.sp_gates.specs.Grows.{Fills};
ghost use Rattle.sp_gates.specs.Nets.{HasNet};
ghost use Rattle.sp_gates.specs.Runs.{RunsOn};
ghost use Rattle.sp_core.specs.CoreParts.{plain_core};
ghost use Rattle.sp_plan.specs.Plain.{plain_plan};
ghost use Rattle.sp_memory_nets.specs.ArrayBanks.{ArraysStand, wires_in};
ghost use Rattle.sp_load_units.specs.Units.{unit_wires_in};
ghost use Rattle.sp_lower.specs.TreesFits.{ArgumentsStand, CanEmitStored, RunsWithUnits, TransfersStand, WordsStand};

use crate::stores_laws::transfers_are_had;
use crate::stores_transfers::emit_transfers;
use sp_core::Core;
use sp_load_units::{TransferUnits, units_are_open, units_stay};
use sp_memory_nets::{Array, arrays_are_open, arrays_stay, emit_memories};
use sp_netlist::{Builder, Child, NetId, NoMemory};
use sp_plan::Plan;
use sp_tree_accesses::{answers_are_of_reads, append, tree_accesses};
use sp_tree_copies::emit_copies;
use sp_tree_nets::emit_core;
use std::alloc::Global;

/// The start and the end of the circuit of a core, and by each memory's number the net of its word; an SRAM and a FIFO have none, and
/// any net stands for them.
#[derive(Debug, Drop)]
pub struct StoredTree {
    pub child: Child,
    pub words: Vec<NetId>,
}

/// Emits the circuit of a core all of whose memories are registers, arguments, outputs, SRAMs and FIFOs, by a valid plan: its tree, the
/// numbers of copies of memories, its loads and its stores, and for each memory a register, or its banks' ports, in its copies, which
/// answer the reads and takes of the tree and of stores. It is started where `start` is 1. `arguments` has the net of each argument's port, and `arrays` the banks of each SRAM and FIFO, by the memory's number; `transfers` has the unit of
/// each load and each store.
pub fn emit_stored_core(
    alloc: Global,
    builder: &mut Builder,
    core: &Core,
    plan: &Plan,
    arguments: &[NetId],
    arrays: &[Array],
    transfers: &TransferUnits,
    start: NetId,
) -> Result<StoredTree, NoMemory>
    requires can { CanEmitStored (plain_core core.now) (plain_plan plan.now) }
    requires arguments { ArgumentsStand builder.old (plain_core core.now) arguments.now }
    requires arrays { ArraysStand builder.old (plain_core core.now) (plain_plan plan.now) arrays.now }
    requires transfers { TransfersStand builder.old (plain_core core.now) transfers.now.units.items transfers.now.ends.items (wires_in arrays.now) }
    requires start { HasNet builder.old start 1 }
    ensures fills { OnOk result (Fills builder.old builder.new (unit_wires_in transfers.now.units.items ++ wires_in arrays.now)) }
    ensures start { IfOk result (λ tree. tree.child.start ≡ start) }
    ensures done { IfOk result (λ tree. HasNet builder.new tree.child.done 1) }
    ensures words { IfOk result (λ tree. WordsStand builder.new (plain_core core.now) tree.words.items) }
    ensures circuit { IfOk result (λ tree. (s : Signals) → (run : RunsOn s builder.new.cells) → RunsWithUnits (plain_core core.now) (plain_plan plan.now) run.setting s tree.child arguments.now tree.words.items transfers.now.units.items) }
{
    answers_are_of_reads();
    arrays_are_open();
    arrays_stay();
    transfers_are_had();
    units_are_open();
    units_stay();
    // (what is asked of accesses is that the core keeps its rules, as each does whose root is given)
    let _root = core.root();
    let tree = emit_core(alloc, builder, core, plan, &transfers.ends, start)?;
    let copies = emit_copies(alloc, builder, core, plan, &tree.owners)?;
    let mut accesses = tree_accesses(alloc, core, &tree.acted, &copies.names)?;
    let moving = emit_transfers(
        alloc,
        builder,
        core,
        &transfers.units,
        &tree.moves,
        &copies.names,
    )?;
    append(&mut accesses, moving)?;
    let nets = emit_memories(
        alloc,
        builder,
        core,
        plan,
        &accesses,
        &copies.owners,
        arguments,
        arrays,
        start,
    )?;
    Ok(StoredTree {
        child: tree.child,
        words: nets.words,
    })
}
