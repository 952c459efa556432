//! What is done to a memory, as the lists of its register.
ghost use Rattle.std.specs.Prelude.{◌≡◌, ◌++◌, map, IfOk, OnOk};
ghost use Rattle.std.specs.List.{filter};
ghost use Rattle.sp_core.specs.CoreParts.{plain_core};
ghost use Rattle.sp_core.specs.Sequential.{has_reset};
ghost use Rattle.sp_core.specs.declared.operation.OpKind.TheVariants.{Write, Reset};
ghost use Rattle.sp_part_runs.specs.ActsEntries.{word_that_changes};
ghost use Rattle.sp_access_nets.specs.Picking.{is_to};
ghost use Rattle.sp_memory_nets.specs.ScalarLists.{plain_touch, touch_by, write_of, state_of, reset_of, renewal_of, read_of, is_kept, is_renewed, is_reader, writes_to, renewals_to, reads_to};

use sp_access_nets::{AccessNets, is_to};
use sp_core::OpKind;
use sp_mem::{Fresh, Touch};
use sp_netlist::{NetId, NoMemory};
use sp_tree_handed::{Keeping, OwnerNets, Renewal};
use sp_words::Kind;
use std::alloc::Global;

/// Whether a loop makes a memory fresh.
pub fn has_reset(kind: Kind, start: Option<u64>) -> bool
    ensures { result ≡ has_reset kind start }
{
    match kind {
        Kind::Fifo => true,
        Kind::Reg => start.is_some(),
        _ => false,
    }
}

/// An access of a memory of one word.
pub fn touch(alloc: Global, enable: NetId, copy: Option<NetId>, word: NetId) -> Touch
    ensures { plain_touch result ≡ touch_by enable copy word }
{
    Touch {
        enable,
        index: Vec::new(alloc),
        copy,
        duplicate: 0,
        tap: 0,
        word,
    }
}

/// The net of the word that a write writes: its last operand.
fn written_net(operands: &[NetId]) -> NetId
    ensures { result ≡ word_that_changes Write operands.now }
{
    match operands {
        [.., word] => *word,
        [] => NetId::new(0),
    }
}

fn add_writes(
    alloc: Global,
    writes: &mut Vec<Touch>,
    mem: u32,
    accesses: &[AccessNets],
) -> Result<(), NoMemory>
    ensures { OnOk result (map plain_touch writes.new.items ≡ map plain_touch writes.old.items ++ map write_of (filter (is_to mem Write) accesses.now)) }
{
    let [access, rest @ ..] = accesses else {
        return Ok(());
    };
    if is_to(access, mem, OpKind::Write) {
        let word = written_net(&access.operands);
        writes.push(touch(alloc, access.enable, access.copy, word))?;
    }
    add_writes(alloc, writes, mem, rest)
}

fn add_states(
    alloc: Global,
    writes: &mut Vec<Touch>,
    mem: u32,
    kept: &[Keeping],
) -> Result<(), NoMemory>
    ensures { OnOk result (map plain_touch writes.new.items ≡ map plain_touch writes.old.items ++ map state_of (filter (is_kept mem) kept.now)) }
{
    let [keeping, rest @ ..] = kept else {
        return Ok(());
    };
    if keeping.mem == mem {
        writes.push(touch(alloc, keeping.done, keeping.copy, keeping.word))?;
    }
    add_states(alloc, writes, mem, rest)
}

/// What writes a memory.
pub(crate) fn writes_to(
    alloc: Global,
    mem: u32,
    accesses: &[AccessNets],
    owners: &OwnerNets,
) -> Result<Vec<Touch>, NoMemory>
    ensures { IfOk result (λ writes. map plain_touch writes.items ≡ writes_to mem accesses.now owners.now) }
{
    let mut writes = Vec::new(alloc);
    add_writes(alloc, &mut writes, mem, accesses)?;
    add_states(alloc, &mut writes, mem, &owners.kept)?;
    Ok(writes)
}

fn add_resets(fresh: &mut Vec<Fresh>, mem: u32, accesses: &[AccessNets]) -> Result<(), NoMemory>
    ensures { OnOk result (fresh.new.items ≡ fresh.old.items ++ map reset_of (filter (is_to mem Reset) accesses.now)) }
{
    let [access, rest @ ..] = accesses else {
        return Ok(());
    };
    if is_to(access, mem, OpKind::Reset) {
        fresh.push(Fresh {
            enable: access.enable,
            copy: access.copy,
        })?;
    }
    add_resets(fresh, mem, rest)
}

fn add_renewals(fresh: &mut Vec<Fresh>, mem: u32, renewed: &[Renewal]) -> Result<(), NoMemory>
    ensures { OnOk result (fresh.new.items ≡ fresh.old.items ++ map renewal_of (filter (is_renewed mem) renewed.now)) }
{
    let [renewal, rest @ ..] = renewed else {
        return Ok(());
    };
    if renewal.mem == mem {
        fresh.push(Fresh {
            enable: renewal.first,
            copy: renewal.copy,
        })?;
    }
    add_renewals(fresh, mem, rest)
}

/// What makes a memory fresh, of which this says whether loops do.
pub fn fresh_to(
    alloc: Global,
    mem: u32,
    has_reset: bool,
    accesses: &[AccessNets],
    owners: &OwnerNets,
) -> Result<Vec<Fresh>, NoMemory>
    ensures { IfOk result (λ fresh. fresh.items ≡ map reset_of (filter (is_to mem Reset) accesses.now) ++ renewals_to has_reset mem owners.now.renewed.items) }
{
    let mut fresh = Vec::new(alloc);
    add_resets(&mut fresh, mem, accesses)?;
    if has_reset {
        add_renewals(&mut fresh, mem, &owners.renewed)?;
    }
    Ok(fresh)
}

fn add_reads(
    alloc: Global,
    reads: &mut Vec<Touch>,
    mem: u32,
    accesses: &[AccessNets],
) -> Result<(), NoMemory>
    ensures { OnOk result (map plain_touch reads.new.items ≡ map plain_touch reads.old.items ++ map read_of (filter (is_reader mem) accesses.now)) }
{
    let [access, rest @ ..] = accesses else {
        return Ok(());
    };
    if access.mem == mem {
        if let Some(word) = access.answer {
            reads.push(touch(alloc, access.enable, access.copy, word.net))?;
        }
    }
    add_reads(alloc, reads, mem, rest)
}

/// The accesses to a memory that are to be answered.
pub fn reads_to(alloc: Global, mem: u32, accesses: &[AccessNets]) -> Result<Vec<Touch>, NoMemory>
    ensures { IfOk result (λ reads. map plain_touch reads.items ≡ reads_to mem accesses.now) }
{
    let mut reads = Vec::new(alloc);
    add_reads(alloc, &mut reads, mem, accesses)?;
    Ok(reads)
}
