//! Loads of line buffers.
ghost use Rattle.std.specs.Prelude.{◌≡◌, ℕ, ◌-◌, ◌<◌, ◌^◌, ◌++◌, ◌∷◌, [], map, length, drop, slice_index, slice_index_or, slice_set, OnOk};
ghost use Rattle.sp_words.specs.declared.kind.Kind.{Kind};
ghost use Rattle.sp_words.specs.Interface.{word_count};
ghost use Rattle.sp_words.specs.Memory.{rows};
ghost use Rattle.sp_tree.specs.Expressions.{dims};
ghost use Rattle.sp_tree.specs.Plain.{plain_mem};
ghost use Rattle.sp_tree.specs.PlainProgram.{PlainMem};
ghost use Rattle.sp_tree.specs.PlainStatement as plain;
ghost use Rattle.sp_tree.specs.PlainTree.{plain_span};
ghost use Rattle.sp_tree.specs.Store.{hold};
ghost use Rattle.sp_tree.specs.Transfers as transfers;
ghost use Rattle.sp_seq.specs.declared.memory.Storage.TheVariants as storages;
ghost use Rattle.sp_seq.specs.Controlling.{Runs};
ghost use Rattle.sp_seq.specs.Lines.{newest, with_word, word_of_slice, CanFill, Took, Wrote};
ghost use Rattle.sp_seq.specs.Rows.{no_cells};
ghost use Rattle.sp_seq.specs.Running.{CanRun};
ghost use Rattle.sp_seq.specs.Slices.{offsets_at, plain_parts, RanSome};
ghost use Rattle.sp_seq.specs.States.{blank, store_of, CellRows, IsLive, IsStorage, Keeps};

use crate::cells::Cells;
use crate::memory::Storage;
use crate::slice::{Part, word_places};
use crate::state::{State, Stop};
use crate::transfer::extent;
use sp_tree::{FaultKind, MemDecl, Span};

/// The oldest row leaves, and a row without words becomes the newest.
fn shift(rows: &mut Vec<Cells>)
    requires { 0 < length rows.old.items }
    ensures rows { rows.new.items ≡ drop 1 rows.old.items ++ blank (slice_index_or rows.old.items 0 no_cells) ∷ [] }
    ensures stored { (d : PlainMem) (n : ℕ) (kind : Kind) → IsStorage d n kind (storages.Rows rows.old) → IsStorage d n kind (storages.Rows rows.new) }
{
    rows.rotate_left(1);
    let last = rows.len() - 1;
    rows[last].clear();
}

/// Writes a cell of the newest row.
fn write_newest(rows: &mut Vec<Cells>, column: usize, word: u64)
    requires some { 0 < length rows.old.items }
    requires inside { column < length (newest rows.old.items).cells }
    requires fits { word < 2 ^ (newest rows.old.items).width }
    ensures rows { rows.new.items ≡ slice_set rows.old.items (length rows.old.items - 1) (with_word (newest rows.old.items) column word) }
    ensures stored { (d : PlainMem) (n : ℕ) (kind : Kind) → IsStorage d n kind (storages.Rows rows.old) → IsStorage d n kind (storages.Rows rows.new) }
{
    let last = rows.len() - 1;
    rows[last].set(column, word);
}

impl State {
    /// So many turns are taken, where they are left.
    fn turns(&mut self, turns: usize) -> Result<(), Stop>
        ensures took { Took turns self.old result self.new }
        ensures keeps { OnOk result (Keeps self.old self.new) }
    {
        let turns = turns as u64;
        if self.left < turns {
            return Err(Stop::Turns);
        }
        self.left -= turns;
        Ok(())
    }

    /// The oldest row of a line buffer leaves, and a row without words becomes the newest.
    fn shift_line(&mut self, line: u32)
        requires { (rs : CellRows) × IsLive self.old line (storages.Rows rs) × (0 < length rs.items) }
        ensures store { (rs : CellRows) → IsLive self.old line (storages.Rows rs) → hold (store_of self.old) line (rows (map (λ r. r.cells) (drop 1 rs.items ++ blank (slice_index_or rs.items 0 no_cells) ∷ []))) ≡ store_of self.new }
        ensures keeps { Keeps self.old self.new }
        ensures same_left { self.new.left ≡ self.old.left }
    {
        let Storage::Rows(rows) = &mut self.memories[line as usize].storage else {
            unreachable!()
        };
        shift(rows);
    }

    /// Writes a cell of the newest row of a line buffer.
    fn write_line(&mut self, line: u32, column: usize, word: u64)
        requires { (rs : CellRows) × IsLive self.old line (storages.Rows rs) × (0 < length rs.items) × (column < length (newest rs.items).cells) × (word < 2 ^ (newest rs.items).width) }
        ensures wrote { Wrote line column word (store_of self.old) (store_of self.new) }
        ensures keeps { Keeps self.old self.new }
        ensures same_left { self.new.left ≡ self.old.left }
    {
        let Storage::Rows(rows) = &mut self.memories[line as usize].storage else {
            unreachable!()
        };
        write_newest(rows, column, word);
    }

    /// One word of a load, whose turn is taken.
    fn load_column(&mut self, decls: &[MemDecl], line: u32, dram: u32, parts: &[Part], k: usize)
        requires can { CanFill (map plain_mem decls.now) self.old line dram (plain_parts parts.now) }
        requires below { k < word_count (transfers.lengths (plain_parts parts.now)) }
        ensures wrote { Wrote line k (word_of_slice (map plain_mem decls.now) dram (plain_parts parts.now) (store_of self.old) (offsets_at (plain_parts parts.now) k)) (store_of self.old) (store_of self.new) }
        ensures keeps { Keeps self.old self.new }
        ensures same_left { self.new.left ≡ self.old.left }
    {
        let limits = &decls[line as usize].dims[1..];
        let places = word_places(parts, &decls[dram as usize].dims, limits, k);
        let word = self.read_word(dram, places.dram);
        self.write_line(line, k, word);
    }

    /// The words of a load. All turns are taken first, since no word of a DRAM can fault.
    fn load_row(
        &mut self,
        decls: &[MemDecl],
        line: u32,
        dram: u32,
        parts: &[Part],
        words: usize,
    ) -> Result<(), Stop>
        requires can { CanFill (map plain_mem decls.now) self.old line dram (plain_parts parts.now) }
        requires count { words ≡ word_count (transfers.lengths (plain_parts parts.now)) }
        ensures ran { RanSome (transfers.load_row line (slice_index (dims (map plain_mem decls.now) line) 1) dram (dims (map plain_mem decls.now) dram) (plain_parts parts.now) self.old.left (store_of self.old)) result self.new }
        ensures keeps { OnOk result (Keeps self.old self.new) }
    {
        self.turns(words)?;
        self.shift_line(line);
        for k in 0..words {
            self.load_column(decls, line, dram, parts, k);
        }
        Ok(())
    }

    /// Words of a slice of a DRAM as the newest row of a line buffer.
    pub(crate) fn load_line(
        &mut self,
        decls: &[MemDecl],
        line: u32,
        dram: u32,
        spans: &[Span],
        at: u32,
    ) -> Result<(), Stop>
        requires { CanRun (map plain_mem decls.now) (plain.load_line line dram (map plain_span spans.now)) self.old }
        ensures { Runs (map plain_mem decls.now) (plain.load_line line dram (map plain_span spans.now)) at self.old result self.new }
    {
        let mut found = [Part {
            ranged: false,
            from: 0,
            until: 0,
        }; 3];
        self.parts(decls, spans, &mut found)?;
        let parts = &found[..spans.len()];
        let words = extent(
            parts,
            &decls[dram as usize].dims,
            &decls[line as usize].dims[1..],
            FaultKind::RowLength,
            at,
        )?;
        if words == 0 {
            return Ok(());
        }
        self.load_row(decls, line, dram, parts, words)
    }
}
