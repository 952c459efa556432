//! Accesses to one memory. Each memory is live, and of the kind that the access is for.
ghost use Rattle.std.specs.Prelude.{◌≡◌, ℕ, ◌<◌, ◌^◌, true, length, slice_set, slice_index, slice_index_or, IfOk, OnOk};
ghost use Rattle.sp_tree.specs.Accesses as accesses;
ghost use Rattle.sp_tree.specs.Step as steps;
ghost use Rattle.sp_tree.specs.Step.{went};
ghost use Rattle.sp_tree.specs.Store.{hold, name_value, set_counter};
ghost use Rattle.sp_seq.specs.declared.memory.Storage.TheVariants as storages;
ghost use Rattle.sp_seq.specs.Rows.{CellRow, WordRow, WordQueue, no_cells};
ghost use Rattle.sp_seq.specs.States.{CellRows, CanBegin, cleared, memory_of, store_of, word_or_fault, Ran, IsLive, Keeps};

use crate::memory::{Storage, clear};
use crate::state::{State, Stop};
use sp_tree::FaultKind;

/// The word of a cell that is written.
fn written(cell: Option<u64>, place: u32) -> Result<u64, Stop>
    ensures { result ≡ word_or_fault cell place }
{
    match cell {
        Some(word) => Ok(word),
        None => Err(Stop::Fault(FaultKind::Unwritten, place)),
    }
}

impl State {
    /// The word of a cell of a register or an SRAM.
    pub(crate) fn read_cell(&self, memory: u32, at: usize, place: u32) -> Result<u64, Stop>
        requires { (c : CellRow) × IsLive self.now memory (storages.Cells c) × (at < length c.cells) }
        ensures ran { Ran (accesses.read_cell memory at place self.now.left (store_of self.now)) result self.now }
        ensures fits { IfOk result (λ w. (c : CellRow) → IsLive self.now memory (storages.Cells c) → w < 2 ^ c.width) }
    {
        let Storage::Cells(cells) = &self.memories[memory as usize].storage else {
            unreachable!()
        };
        written(cells.get(at), place)
    }

    /// Writes a cell of a register or an SRAM.
    pub(crate) fn write_cell(&mut self, memory: u32, at: usize, word: u64)
        requires { (c : CellRow) × IsLive self.old memory (storages.Cells c) × (at < length c.cells) × (word < 2 ^ c.width) }
        ensures ran { accesses.write_cell memory at word self.old.left (store_of self.old) ≡ went tt self.new.left (store_of self.new) }
        ensures keeps { Keeps self.old self.new }
    {
        let Storage::Cells(cells) = &mut self.memories[memory as usize].storage else {
            unreachable!()
        };
        cells.set(at, word);
    }

    /// The word of a cell of a line buffer.
    pub(crate) fn read_line(
        &self,
        memory: u32,
        row: usize,
        column: usize,
        place: u32,
    ) -> Result<u64, Stop>
        requires { (rs : CellRows) × IsLive self.now memory (storages.Rows rs) × (row < length rs.items) × (column < length (slice_index_or rs.items row no_cells).cells) }
        ensures ran { Ran (accesses.read_line memory row column place self.now.left (store_of self.now)) result self.now }
        ensures fits { IfOk result (λ w. (rs : CellRows) → IsLive self.now memory (storages.Rows rs) → w < 2 ^ (slice_index_or rs.items row no_cells).width) }
    {
        let Storage::Rows(rows) = &self.memories[memory as usize].storage else {
            unreachable!()
        };
        written(rows[row].get(column), place)
    }

    /// The oldest word of a FIFO, which leaves it.
    pub(crate) fn dequeue(&mut self, memory: u32, place: u32) -> Result<u64, Stop>
        requires { (q : WordQueue) × IsLive self.old memory (storages.Queue q) }
        ensures ran { Ran (accesses.dequeue memory place self.old.left (store_of self.old)) result self.new }
        ensures keeps { OnOk result (Keeps self.old self.new) }
        ensures fits { IfOk result (λ w. (q : WordQueue) → IsLive self.old memory (storages.Queue q) → w < 2 ^ q.width) }
    {
        let Storage::Queue(queue) = &mut self.memories[memory as usize].storage else {
            unreachable!()
        };
        match queue.pop() {
            Some(word) => Ok(word),
            None => Err(Stop::Fault(FaultKind::FifoEmpty, place)),
        }
    }

    /// A word enters a FIFO.
    pub(crate) fn enqueue(&mut self, memory: u32, word: u64, place: u32) -> Result<(), Stop>
        requires { (q : WordQueue) × IsLive self.old memory (storages.Queue q) × (word < 2 ^ q.width) }
        ensures ran { (q : WordQueue) → IsLive self.old memory (storages.Queue q) → Ran (accesses.enqueue memory q.room word place self.old.left (store_of self.old)) result self.new }
        ensures keeps { OnOk result (Keeps self.old self.new) }
    {
        let Storage::Queue(queue) = &mut self.memories[memory as usize].storage else {
            unreachable!()
        };
        if queue.is_full() {
            return Err(Stop::Fault(FaultKind::FifoFull, place));
        }
        queue.push(word);
        Ok(())
    }

    /// A word of a DRAM, or at 0 that of an argument.
    pub(crate) fn read_word(&self, memory: u32, at: usize) -> u64
        requires { (r : WordRow) × IsLive self.now memory (storages.Words r) × (at < length r.words) }
        ensures ran { accesses.read_word memory at self.now.left (store_of self.now) ≡ went result self.now.left (store_of self.now) }
        ensures fits { (r : WordRow) → IsLive self.now memory (storages.Words r) → result < 2 ^ r.width }
    {
        let Storage::Words(words) = &self.memories[memory as usize].storage else {
            unreachable!()
        };
        words.get(at)
    }

    /// Writes a word of a DRAM, or at 0 that of an output.
    pub(crate) fn write_word(&mut self, memory: u32, at: usize, word: u64)
        requires { (r : WordRow) × IsLive self.old memory (storages.Words r) × (at < length r.words) × (word < 2 ^ r.width) }
        ensures ran { accesses.write_word memory at word self.old.left (store_of self.old) ≡ went tt self.new.left (store_of self.new) }
        ensures keeps { Keeps self.old self.new }
    {
        let Storage::Words(words) = &mut self.memories[memory as usize].storage else {
            unreachable!()
        };
        words.set(at, word);
    }

    /// A turn is taken, where one is left.
    pub(crate) fn turn(&mut self) -> Result<(), Stop>
        ensures ran { Ran (steps.turn self.old.left (store_of self.old)) result self.new }
        ensures keeps { OnOk result (Keeps self.old self.new) }
        ensures taken { OnOk result (self.new.left < self.old.left) }
    {
        if self.left == 0 {
            return Err(Stop::Turns);
        }
        self.left -= 1;
        Ok(())
    }

    /// The memory begins: from now on it is live, and it holds what a fresh one does.
    pub(crate) fn begin(&mut self, memory: u32, start: Option<u64>)
        requires { (memory < length self.old.memories.items) × CanBegin start (memory_of self.old memory).storage }
        ensures store { store_of self.new ≡ hold (store_of self.old) memory (cleared start (memory_of self.old memory).storage) }
        ensures keeps { Keeps self.old self.new }
        ensures live { (memory_of self.new memory).live ≡ true }
        ensures same_left { self.new.left ≡ self.old.left }
    {
        let slot = &mut self.memories[memory as usize];
        slot.live = true;
        clear(&mut slot.storage, start);
    }

    /// A value stands for a word.
    pub(crate) fn name(&mut self, value: u32, word: u64)
        requires { value < length self.old.values.items }
        ensures store { store_of self.new ≡ name_value (store_of self.old) value word }
        ensures values { self.new.values.items ≡ slice_set self.old.values.items value word }
        ensures others { (self.new.counts.items ≡ self.old.counts.items) × (self.new.memories.items ≡ self.old.memories.items) × (self.new.left ≡ self.old.left) }
    {
        self.values[value as usize] = word;
    }

    /// A counter stands for a word.
    pub(crate) fn count(&mut self, counter: u32, word: u64)
        requires { counter < length self.old.counts.items }
        ensures store { store_of self.new ≡ set_counter (store_of self.old) counter word }
        ensures counts { self.new.counts.items ≡ slice_set self.old.counts.items counter word }
        ensures others { (self.new.values.items ≡ self.old.values.items) × (self.new.memories.items ≡ self.old.memories.items) × (self.new.left ≡ self.old.left) }
    {
        self.counts[counter as usize] = word;
    }
}
