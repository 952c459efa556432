//! What is done to an SRAM, as the lists of its banks.
ghost use Rattle.std.specs.Prelude.{◌≡◌, ◌++◌, map, IfOk, OnOk};
ghost use Rattle.sp_core.specs.CoreParts.{plain_core};
ghost use Rattle.sp_core.specs.declared.operation.OpKind.TheVariants.{Write};
ghost use Rattle.sp_plan.specs.Plain.{plain_plan};
ghost use Rattle.sp_part_runs.specs.ActsEntries.{index_words, word_that_changes};
ghost use Rattle.sp_memory_nets.specs.ScalarLists.{answer_net};
ghost use Rattle.sp_memory_nets.specs.ArrayTouches.{plain_touch, write_of, read_of, writes_to, reads_to};

use crate::array_duplicates::duplicate_of;
use sp_access_nets::{AccessNets, is_to};
use sp_core::{Core, OpKind};
use sp_mem::Touch;
use sp_netlist::{NetId, NoMemory};
use sp_plan::Plan;
use std::alloc::Global;

/// The nets of the indices of a write: all operands but the last.
fn written_index(operands: &[NetId]) -> &[NetId]
    ensures { result.now ≡ index_words Write operands.now }
{
    match operands {
        [index @ .., _] => index,
        [] => &[],
    }
}

/// The net of the word that a write writes: its last operand.
fn written_net(operands: &[NetId]) -> NetId
    ensures { result ≡ word_that_changes Write operands.now }
{
    match operands {
        [.., word] => *word,
        [] => NetId::new(0),
    }
}

/// A write, which goes to all duplicates.
fn write_of(alloc: Global, access: &AccessNets) -> Result<Touch, NoMemory>
    ensures { IfOk result (λ touch. plain_touch touch ≡ write_of access.now) }
{
    Ok(Touch {
        enable: access.enable,
        index: Vec::from_slice(alloc, written_index(&access.operands))?,
        copy: access.copy,
        duplicate: 0,
        tap: 0,
        word: written_net(&access.operands),
    })
}

/// A read that is answered on a net, in the duplicate of its reader.
fn read_of(
    alloc: Global,
    core: &Core,
    plan: &Plan,
    access: &AccessNets,
    word: NetId,
) -> Result<Touch, NoMemory>
    requires { word ≡ answer_net access.now.answer }
    ensures { IfOk result (λ touch. plain_touch touch ≡ read_of (plain_core core.now) (plain_plan plan.now) access.now) }
{
    Ok(Touch {
        enable: access.enable,
        index: Vec::from_slice(alloc, &access.operands)?,
        copy: access.copy,
        duplicate: duplicate_of(core, plan, access.mem, access.number),
        tap: 0,
        word,
    })
}

fn add_writes(
    alloc: Global,
    writes: &mut Vec<Touch>,
    mem: u32,
    accesses: &[AccessNets],
) -> Result<(), NoMemory>
    ensures { OnOk result (map plain_touch writes.new.items ≡ map plain_touch writes.old.items ++ writes_to mem accesses.now) }
{
    let [access, rest @ ..] = accesses else {
        return Ok(());
    };
    if is_to(access, mem, OpKind::Write) {
        writes.push(write_of(alloc, access)?)?;
    }
    add_writes(alloc, writes, mem, rest)
}

/// What writes a memory.
pub(crate) fn writes_to(
    alloc: Global,
    mem: u32,
    accesses: &[AccessNets],
) -> Result<Vec<Touch>, NoMemory>
    ensures { IfOk result (λ writes. map plain_touch writes.items ≡ writes_to mem accesses.now) }
{
    let mut writes = Vec::new(alloc);
    add_writes(alloc, &mut writes, mem, accesses)?;
    Ok(writes)
}

fn add_reads(
    alloc: Global,
    reads: &mut Vec<Touch>,
    core: &Core,
    plan: &Plan,
    mem: u32,
    accesses: &[AccessNets],
) -> Result<(), NoMemory>
    ensures { OnOk result (map plain_touch reads.new.items ≡ map plain_touch reads.old.items ++ reads_to (plain_core core.now) (plain_plan plan.now) mem accesses.now) }
{
    let [access, rest @ ..] = accesses else {
        return Ok(());
    };
    if access.mem == mem {
        if let Some(word) = access.answer {
            reads.push(read_of(alloc, core, plan, access, word.net)?)?;
        }
    }
    add_reads(alloc, reads, core, plan, mem, rest)
}

/// The accesses to a memory that are to be answered.
pub(crate) fn reads_to(
    alloc: Global,
    core: &Core,
    plan: &Plan,
    mem: u32,
    accesses: &[AccessNets],
) -> Result<Vec<Touch>, NoMemory>
    ensures { IfOk result (λ reads. map plain_touch reads.items ≡ reads_to (plain_core core.now) (plain_plan plan.now) mem accesses.now) }
{
    let mut reads = Vec::new(alloc);
    add_reads(alloc, &mut reads, core, plan, mem, accesses)?;
    Ok(reads)
}
