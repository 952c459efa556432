//! Cells side by side, each of which has a word or isn't written yet.
ghost use Rattle.std.specs.Prelude.{◌≡◌, ◌<◌, ◌≤◌, ◌^◌, ◌==◌, length, replicate, slice_index_or, slice_set, Some, None, IfOk, IfSome};
ghost use Rattle.sp_seq.specs.Rows.{IsBits};

use crate::NoMemory;
use crate::words::Words;
use sp_packed::Packed;
use std::alloc::Global;
use std::marker::Model;

/// The words of the cells, and for each of them a byte that is 1 where it is written.
#[derive(Drop)]
pub(crate) struct Cells {
    words: Words,
    marks: Packed,
}

impl Model for Cells {
    ghost use Rattle.std.specs.Prelude.{◌≡◌, length};
    ghost use Rattle.sp_seq.specs.Rows.{CellRow, cells_from};

    ghost Value = { CellRow };

    ghost view = { λ c. record { width = c.words.width; cells = cells_from c.marks.numbers c.words.words } };

    ghost invariant = { λ c. (length c.marks.numbers ≡ length c.words.words) × (c.marks.bytes_each ≡ 1) };
}

impl Cells {
    /// So many cells, none of them written.
    pub(crate) fn new(alloc: Global, width: u8, len: usize) -> Result<Cells, NoMemory>
        requires { IsBits width }
        ensures width { IfOk result (λ c. c.width ≡ width) }
        ensures cells { IfOk result (λ c. c.cells ≡ replicate len None) }
    {
        let words = Words::new(alloc, width, len)?;
        let marks = Packed::new(alloc, 1, len)?;
        Ok(Cells { words, marks })
    }

    /// The word of a cell, if it is written.
    #[inline]
    pub(crate) fn get(&self, at: usize) -> Option<u64>
        requires { at < length self.now.cells }
        ensures cell { result ≡ slice_index_or self.now.cells at None }
        ensures fits { IfSome result (λ w. w < 2 ^ self.now.width) }
    {
        if self.marks.get(at) == 1 {
            Some(self.words.get(at))
        } else {
            None
        }
    }

    /// Writes a word into a cell.
    #[inline]
    pub(crate) fn set(&mut self, at: usize, word: u64)
        requires inside { at < length self.old.cells }
        requires fits { word < 2 ^ self.old.width }
        ensures width { self.new.width ≡ self.old.width }
        ensures cells { self.new.cells ≡ slice_set self.old.cells at (Some word) }
    {
        self.words.set(at, word);
        self.marks.set(at, 1);
    }

    /// From now on none of the cells is written.
    pub(crate) fn clear(&mut self)
        ensures width { self.new.width ≡ self.old.width }
        ensures cells { self.new.cells ≡ replicate (length self.old.cells) None }
    {
        self.marks.fill(0);
    }
}
