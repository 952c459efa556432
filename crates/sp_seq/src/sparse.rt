//! Gathers and scatters: words of a DRAM at places that an SRAM holds.
ghost use Rattle.std.specs.Prelude.{◌≡◌, ℕ, ◌<◌, ◌^◌, map, length, All, IfOk, OnOk};
ghost use Rattle.sp_words.specs.Interface.{IsCount, word_count};
ghost use Rattle.sp_tree.specs.Expressions.{dims};
ghost use Rattle.sp_tree.specs.Plain.{plain_expr, plain_mem};
ghost use Rattle.sp_tree.specs.PlainStatement as plain;
ghost use Rattle.sp_tree.specs.Sequential.{run_kind};
ghost use Rattle.sp_seq.specs.Moving.{CanMove, place_at, gathered, scattered};
ghost use Rattle.sp_seq.specs.Running.{CanRun, Finished};
ghost use Rattle.sp_seq.specs.States.{store_of, Ran, Keeps};

use crate::element::{count, is_below, natural};
use crate::state::{State, Stop};
use sp_tree::{Expr, FaultKind, MemDecl};

/// How many words a memory has.
pub(crate) fn size(decls: &[MemDecl], memory: u32) -> usize
    requires inside { memory < length decls.now }
    requires dims { All IsCount (dims (map plain_mem decls.now) memory) }
    requires small { word_count (dims (map plain_mem decls.now) memory) < 2 ^ 32 }
    ensures { result ≡ word_count (dims (map plain_mem decls.now) memory) }
{
    count(&decls[memory as usize].dims)
}

impl State {
    /// The k-th place of a DRAM that an SRAM holds.
    fn place_held(
        &self,
        decls: &[MemDecl],
        dram: u32,
        places: u32,
        k: usize,
        at: u32,
    ) -> Result<usize, Stop>
        requires { (sram : ℕ) × CanMove (map plain_mem decls.now) self.now sram dram places }
        ensures ran { (sram : ℕ) → Ran (place_at (map plain_mem decls.now) at sram dram places k self.now.left (store_of self.now)) result self.now }
        ensures inside { IfOk result (λ place. place < word_count (dims (map plain_mem decls.now) dram)) }
    {
        if k >= size(decls, places) {
            return Err(Stop::Fault(FaultKind::Bounds, at));
        }
        let word = self.read_cell(places, k, at)?;
        if !is_below(word, size(decls, dram)) {
            return Err(Stop::Fault(FaultKind::DramBounds, at));
        }
        Ok(natural(word))
    }

    /// The k-th word of a gather.
    fn gather_one(
        &mut self,
        decls: &[MemDecl],
        sram: u32,
        dram: u32,
        places: u32,
        k: usize,
        at: u32,
    ) -> Result<(), Stop>
        requires { CanMove (map plain_mem decls.now) self.old sram dram places }
        ensures ran { Ran (gathered (map plain_mem decls.now) at sram dram places k self.old.left (store_of self.old)) result self.new }
        ensures keeps { OnOk result (Keeps self.old self.new) }
    {
        let place = self.place_held(decls, dram, places, k, at)?;
        if k >= size(decls, sram) {
            return Err(Stop::Fault(FaultKind::Bounds, at));
        }
        let word = self.read_word(dram, place);
        self.turn()?;
        self.write_cell(sram, k, word);
        Ok(())
    }

    /// The k-th word of a scatter.
    fn scatter_one(
        &mut self,
        decls: &[MemDecl],
        dram: u32,
        places: u32,
        sram: u32,
        k: usize,
        at: u32,
    ) -> Result<(), Stop>
        requires { CanMove (map plain_mem decls.now) self.old sram dram places }
        ensures ran { Ran (scattered (map plain_mem decls.now) at sram dram places k self.old.left (store_of self.old)) result self.new }
        ensures keeps { OnOk result (Keeps self.old self.new) }
    {
        let place = self.place_held(decls, dram, places, k, at)?;
        if k >= size(decls, sram) {
            return Err(Stop::Fault(FaultKind::Bounds, at));
        }
        let word = self.read_cell(sram, k, at)?;
        self.turn()?;
        self.write_word(dram, place, word);
        Ok(())
    }

    /// Words of a DRAM at the places that an SRAM holds, into another SRAM.
    pub(crate) fn gather(
        &mut self,
        decls: &[MemDecl],
        sram: u32,
        dram: u32,
        places: u32,
        count: &Expr,
        at: u32,
    ) -> Result<(), Stop>
        requires { CanRun (map plain_mem decls.now) (plain.gather sram dram places (plain_expr count.now)) self.old }
        ensures { (can : CanRun (map plain_mem decls.now) (plain.gather sram dram places (plain_expr count.now)) self.old)
            → Finished (map plain_mem decls.now) can.setting.roomy can.setting.scope self.old (run_kind (map plain_mem decls.now) can.setting.roomy (plain.gather sram dram places (plain_expr count.now)) at self.old.left (store_of self.old)) result self.new }
    {
        let words = natural(self.word(decls, count)?);
        for k in 0..words {
            self.gather_one(decls, sram, dram, places, k, at)?;
        }
        Ok(())
    }

    /// Words of an SRAM, into a DRAM at the places that another SRAM holds.
    pub(crate) fn scatter(
        &mut self,
        decls: &[MemDecl],
        dram: u32,
        places: u32,
        count: &Expr,
        sram: u32,
        at: u32,
    ) -> Result<(), Stop>
        requires { CanRun (map plain_mem decls.now) (plain.scatter dram places (plain_expr count.now) sram) self.old }
        ensures { (can : CanRun (map plain_mem decls.now) (plain.scatter dram places (plain_expr count.now) sram) self.old)
            → Finished (map plain_mem decls.now) can.setting.roomy can.setting.scope self.old (run_kind (map plain_mem decls.now) can.setting.roomy (plain.scatter dram places (plain_expr count.now) sram) at self.old.left (store_of self.old)) result self.new }
    {
        let words = natural(self.word(decls, count)?);
        for k in 0..words {
            self.scatter_one(decls, dram, places, sram, k, at)?;
        }
        Ok(())
    }
}
