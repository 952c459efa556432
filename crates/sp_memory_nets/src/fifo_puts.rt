//! What is put into a FIFO, as a list of its queue.
ghost use Rattle.std.specs.Prelude.{◌≡◌, ◌++◌, map, IfOk, OnOk};
ghost use Rattle.sp_core.specs.declared.operation.OpKind.TheVariants.{Enq};
ghost use Rattle.sp_part_runs.specs.ActsEntries.{word_that_changes};
ghost use Rattle.sp_memory_nets.specs.ScalarLists.{plain_touch};
ghost use Rattle.sp_memory_nets.specs.FifoLists.{puts_to};

use crate::scalar_lists::touch;
use sp_access_nets::{AccessNets, is_to};
use sp_core::OpKind;
use sp_mem::Touch;
use sp_netlist::{NetId, NoMemory};
use std::alloc::Global;

/// The net of the word that a put puts: its first operand.
fn put_net(operands: &[NetId]) -> NetId
    ensures { result ≡ word_that_changes Enq operands.now }
{
    match operands {
        [word, ..] => *word,
        [] => NetId::new(0),
    }
}

fn add_puts(
    alloc: Global,
    puts: &mut Vec<Touch>,
    mem: u32,
    accesses: &[AccessNets],
) -> Result<(), NoMemory>
    ensures { OnOk result (map plain_touch puts.new.items ≡ map plain_touch puts.old.items ++ puts_to mem accesses.now) }
{
    let [access, rest @ ..] = accesses else {
        return Ok(());
    };
    if is_to(access, mem, OpKind::Enq) {
        let word = put_net(&access.operands);
        puts.push(touch(alloc, access.enable, access.copy, word))?;
    }
    add_puts(alloc, puts, mem, rest)
}

/// What puts words into a FIFO.
pub(crate) fn puts_to(
    alloc: Global,
    mem: u32,
    accesses: &[AccessNets],
) -> Result<Vec<Touch>, NoMemory>
    ensures { IfOk result (λ puts. map plain_touch puts.items ≡ puts_to mem accesses.now) }
{
    let mut puts = Vec::new(alloc);
    add_puts(alloc, &mut puts, mem, accesses)?;
    Ok(puts)
}
