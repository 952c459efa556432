//! The memories of a program.
ghost use Rattle.std.specs.Prelude.{◌≡◌, ℕ, map, Option};
ghost use Rattle.sp_words.specs.declared.kind.Kind.{Kind};
ghost use Rattle.sp_tree.specs.PlainProgram.{PlainMem};
ghost use Rattle.sp_seq.specs.States.{blank, cleared, contents_of, CanBegin, IsStorage};

use crate::cells::Cells;
use crate::ring::Ring;
use crate::words::Words;

/// Where the contents of a memory lie: the cells of a register or of an SRAM, a FIFO's queue, the rows of a
/// line buffer, the oldest first, or the words of a DRAM, an argument or an output.
#[derive(Drop)]
pub(crate) enum Storage {
    Cells(Cells),
    Queue(Ring),
    Rows(Vec<Cells>),
    Words(Words),
}

/// A memory, whose storage is there from the start. It is live from its declaration on.
#[derive(Drop)]
pub(crate) struct Memory {
    pub(crate) live: bool,
    pub(crate) storage: Storage,
}

/// From now on none of the cells is written.
fn clear_rows(rows: &mut Vec<Cells>)
    ensures { rows.new.items ≡ map blank rows.old.items }
{
    for row in rows.iter_mut() {
        row.clear();
    }
}

/// Nothing lies in the storage any more but the start of a register, if it has one.
pub(crate) fn clear(storage: &mut Storage, start: Option<u64>)
    requires { CanBegin start storage.old }
    ensures contents { contents_of storage.new ≡ cleared start storage.old }
    ensures stored { (d : PlainMem) (n : ℕ) (kind : Kind) → IsStorage d n kind storage.old → IsStorage d n kind storage.new }
{
    match storage {
        Storage::Cells(cells) => {
            cells.clear();
            if let Some(word) = start {
                cells.set(0, word);
            }
        }
        Storage::Queue(queue) => queue.clear(),
        Storage::Rows(rows) => clear_rows(rows),
        Storage::Words(_) => unreachable!(),
    }
}
