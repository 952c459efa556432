//! The end of a run: whether it is there, and the words that stand then.
ghost use Rattle.std.specs.Prelude.{◌≡◌, ◌++◌, map, IfOk, OnOk, [], ◌∷◌};
ghost use Rattle.sp_netlist.specs.Cells.{plain_cell, plain_cells};
ghost use Rattle.sp_netlist.specs.Cycle as cycle;
ghost use Rattle.sp_sim.specs.Rows.{word_of};

use crate::NoMemory;
use crate::memory::Memory;
use crate::row::Row;
use sp_netlist::Cell;
use std::alloc::Global;

fn is_done(cell: &Cell, row: &Row) -> bool
    ensures { result ≡ cycle.cell_is_done (word_of row.now) (plain_cell cell.now) }
{
    match cell {
        Cell::Done(net) => row.get(*net) == 1,
        _ => false,
    }
}

/// Whether the done net is 1.
pub(crate) fn is_over(cells: &[Cell], row: &Row) -> bool
    ensures { result ≡ cycle.is_over (plain_cells cells.now) (word_of row.now) }
{
    let mut over = false;
    for cell in cells {
        over = over || is_done(cell, row);
    }
    over
}

fn push_out(cell: &Cell, row: &Row, outs: &mut Vec<u64>) -> Result<(), NoMemory>
    ensures { OnOk result (outs.new.items ≡ outs.old.items ++ cycle.out_words (plain_cell cell.now ∷ []) (word_of row.now)) }
{
    if let Cell::Out(_, net, _) = cell {
        outs.push(row.get(*net))?;
    }
    Ok(())
}

/// The words of the outs in order.
pub(crate) fn out_words(alloc: Global, cells: &[Cell], row: &Row) -> Result<Vec<u64>, NoMemory>
    ensures { IfOk result (λ outs. outs.items ≡ cycle.out_words (plain_cells cells.now) (word_of row.now)) }
{
    let mut outs = Vec::new(alloc);
    for cell in cells {
        push_out(cell, row, &mut outs)?;
    }
    Ok(outs)
}

/// The words of all memories in order.
pub(crate) fn contents(alloc: Global, memories: &[Memory]) -> Result<Vec<Vec<u64>>, NoMemory>
    ensures { IfOk result (λ all. map (λ v. v.items) all.items ≡ map (λ m. m.words) memories.now) }
{
    let mut all = Vec::with_capacity(alloc, memories.len())?;
    for memory in memories {
        all.push(memory.contents(alloc)?)?;
    }
    Ok(all)
}
