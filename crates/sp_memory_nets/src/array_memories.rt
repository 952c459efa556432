//! The circuits of all memories of a core.
ghost use Rattle.std.specs.Prelude.{◌≡◌, ◌≢◌, ℕ, ◌<◌, ◌++◌, length, slice_index, flat_map, IfOk, OnOk};
ghost use Rattle.sp_words.specs.Types.{width_of};
ghost use Rattle.sp_words.specs.declared.kind.Kind.TheVariants.{Sram, Fifo};
ghost use Rattle.sp_netlist.specs.Signals.{Signals};
ghost use Rattle.sp_gates.specs.Grows.{Fills};
ghost use Rattle.sp_gates.specs.Nets.{HasNet};
ghost use Rattle.sp_gates.specs.Runs.{RunsOn};
ghost use Rattle.sp_core.specs.CoreParts.{plain_core};
ghost use Rattle.sp_core.specs.Declarations.{mem, kind_of};
ghost use Rattle.sp_plan.specs.Plain.{plain_plan};
ghost use Rattle.sp_taps.specs.Wires.{wires_of};
ghost use Rattle.sp_access_nets.specs.Laws.{answer_nets};
ghost use Rattle.sp_memory_nets.specs.ScalarLists.{answers_to};
ghost use Rattle.sp_memory_nets.specs.ArrayBanks.{wires_in};
ghost use Rattle.sp_memory_nets.specs.ArrayFits.{MemoryFits, MemoriesFit};
ghost use Rattle.sp_memory_nets.specs.ArrayRuns.{RunsMemory, RunMemories};

use crate::array_array::Array;
use crate::array_arrays::emit_array;
use crate::array_shape::memory;
use crate::fifo_fifos::emit_fifo;
use crate::scalar_scalars::emit_scalar;
use sp_access_nets::AccessNets;
use sp_core::Core;
use sp_netlist::{Builder, NetId, NoMemory};
use sp_plan::Plan;
use sp_taps::tap_laws;
use sp_tree_handed::OwnerNets;
use sp_words::Kind;
use std::alloc::Global;

/// The nets of the words of a core's memories in their copies 0, by the memory's number; of an SRAM or a FIFO any net.
#[derive(Debug, Drop)]
pub struct MemoryNets {
    pub words: Vec<NetId>,
}

/// Emits a memory. The net has the word of its copy 0; that of an argument is its port, and for an SRAM or a FIFO any net stands.
fn emit_memory(
    alloc: Global,
    builder: &mut Builder,
    core: &Core,
    plan: &Plan,
    accesses: &[AccessNets],
    owners: &OwnerNets,
    port: NetId,
    array: &Array,
    start: NetId,
    m: u32,
) -> Result<NetId, NoMemory>
    requires fits { MemoryFits builder.old (plain_core core.now) (plain_plan plan.now) accesses.now owners.now port array.now.bank array.now.stores.items start m }
    ensures fills { OnOk result (Fills builder.old builder.new (flat_map wires_of array.now.stores.items ++ answers_to m accesses.now)) }
    ensures net { IfOk result (λ net. kind_of (plain_core core.now) m ≢ Sram → kind_of (plain_core core.now) m ≢ Fifo → HasNet builder.new net (width_of (mem (plain_core core.now) m).ty)) }
    ensures runs { IfOk result (λ net. (s : Signals) → RunsOn s builder.new.cells → RunsMemory (plain_core core.now) (plain_plan plan.now) s accesses.now owners.now port m net) }
{
    match memory(core, m).kind {
        Kind::Sram => {
            emit_array(alloc, builder, core, plan, accesses, array, start, m)?;
            Ok(start)
        }
        Kind::Fifo => {
            emit_fifo(
                alloc,
                builder,
                core,
                plan,
                accesses,
                owners,
                array.bank,
                &array.stores,
                start,
                m,
            )?;
            Ok(start)
        }
        _ => {
            let net = emit_scalar(alloc, builder, core, plan, accesses, owners, port, start, m)?;
            Ok(net)
        }
    }
}

/// Emits the memories of a core of which each is a register, an argument, an output, an SRAM or a FIFO, each in as many copies as a plan
/// has: an SRAM and a FIFO in banks that were added before. Each access that is to be answered is so a cycle later, and two cycles later
/// by an SRAM or a FIFO.
/// `arguments` has the nets of the arguments' ports by the memory's number, and anything else at other numbers; `start` is 1 in
/// the cycle in which a run begins.
pub fn emit_memories(
    alloc: Global,
    builder: &mut Builder,
    core: &Core,
    plan: &Plan,
    accesses: &[AccessNets],
    owners: &OwnerNets,
    arguments: &[NetId],
    arrays: &[Array],
    start: NetId,
) -> Result<MemoryNets, NoMemory>
    requires { MemoriesFit builder.old (plain_core core.now) (plain_plan plan.now) accesses.now owners.now arguments.now arrays.now start }
    ensures fills { OnOk result (Fills builder.old builder.new (answer_nets accesses.now ++ wires_in arrays.now)) }
    ensures each { IfOk result (λ nets. length nets.words.items ≡ length (plain_core core.now).mems) }
    ensures nets { IfOk result (λ nets. (m : ℕ) → m < length (plain_core core.now).mems → kind_of (plain_core core.now) m ≢ Sram → kind_of (plain_core core.now) m ≢ Fifo → HasNet builder.new (slice_index nets.words.items m) (width_of (mem (plain_core core.now) m).ty)) }
    ensures runs { IfOk result (λ nets. (s : Signals) → RunsOn s builder.new.cells → RunMemories (plain_core core.now) (plain_plan plan.now) s accesses.now owners.now arguments.now nets.words.items) }
{
    tap_laws();
    let mut words = Vec::new(alloc);
    for m in 0..core.mems().len() {
        let net = emit_memory(
            alloc,
            builder,
            core,
            plan,
            accesses,
            owners,
            arguments[m],
            &arrays[m],
            start,
            m as u32,
        )?;
        words.push(net)?;
    }
    Ok(MemoryNets { words })
}
