//! Transfers of slices between DRAMs and SRAMs.
ghost use Rattle.std.specs.Prelude.{◌≡◌, ℕ, ◌<◌, ◌≤◌, ◌^◌, [], ◌∷◌, map, length, take, All, true, IfOk, OnOk};
ghost use Rattle.sp_words.specs.Interface.{IsCount, word_count};
ghost use Rattle.sp_tree.specs.Expressions.{dims};
ghost use Rattle.sp_tree.specs.Plain.{plain_expr, plain_mem};
ghost use Rattle.sp_tree.specs.PlainStatement as plain;
ghost use Rattle.sp_tree.specs.PlainTree.{plain_span};
ghost use Rattle.sp_tree.specs.Sequential as sequential;
ghost use Rattle.sp_tree.specs.Step.{in_order};
ghost use Rattle.sp_tree.specs.Transfers as transfers;
ghost use Rattle.sp_tree.specs.Typing.{range_count};
ghost use Rattle.sp_seq.specs.Evaluating.{with_answer};
ghost use Rattle.sp_seq.specs.Running.{CanRun, Finished};
ghost use Rattle.sp_seq.specs.Slices.{plain_part, plain_parts, ranges_in, shown, offsets_at, extent_of, CanSlice, CanSpan, loaded, stored, RanSome};
ghost use Rattle.sp_seq.specs.States.{store_of, Ran, Keeps};

use crate::slice::{
    Part, are_inside, do_fit, has_none, index_part, range_part, total, word_places,
};
use crate::state::{State, Stop};
use sp_tree::{Expr, FaultKind, MemDecl, Span};

/// How many words a transfer moves: none where a range is empty.
pub(crate) fn extent(
    parts: &[Part],
    dims: &[u32],
    limits: &[u32],
    too_long: FaultKind,
    at: u32,
) -> Result<usize, Stop>
    requires spans { length parts.now ≡ length dims.now }
    requires ranges { length (transfers.lengths (plain_parts parts.now)) ≡ length limits.now }
    requires counts { All IsCount limits.now }
    requires small { word_count limits.now < 2 ^ 32 }
    ensures { result ≡ extent_of dims.now (plain_parts parts.now) too_long limits.now at }
{
    if has_none(parts) {
        return Ok(0);
    }
    if !are_inside(parts, dims) {
        return Err(Stop::Fault(FaultKind::DramBounds, at));
    }
    if !do_fit(parts, limits) {
        return Err(Stop::Fault(too_long, at));
    }
    Ok(total(parts, limits))
}

impl State {
    /// The index of a span.
    fn single(&mut self, decls: &[MemDecl], e: &Expr) -> Result<Part, Stop>
        requires { CanSpan (map plain_mem decls.now) (plain.single (plain_expr e.now) ∷ []) self.old }
        ensures ran { Ran (sequential.part (map plain_mem decls.now) (plain.single (plain_expr e.now)) self.old.left (store_of self.old)) (shown result) self.new }
        ensures keeps { OnOk result (Keeps self.old self.new) }
        ensures ranges { IfOk result (λ p. ranges_in (plain_part p) ≡ 0) }
    {
        let at = self.word(decls, e)?;
        Ok(index_part(at))
    }

    /// The range of a span.
    fn range(&mut self, decls: &[MemDecl], a: &Expr, b: &Expr, par: u32) -> Result<Part, Stop>
        requires { CanSpan (map plain_mem decls.now) (plain.range (plain_expr a.now) (plain_expr b.now) par ∷ []) self.old }
        ensures ran { Ran (sequential.part (map plain_mem decls.now) (plain.range (plain_expr a.now) (plain_expr b.now) par) self.old.left (store_of self.old)) (shown result) self.new }
        ensures keeps { OnOk result (Keeps self.old self.new) }
        ensures ranges { IfOk result (λ p. ranges_in (plain_part p) ≡ 1) }
    {
        let from = self.word(decls, a)?;
        let until = self.word(decls, b)?;
        Ok(range_part(from, until))
    }

    /// What a span takes.
    fn part(&mut self, decls: &[MemDecl], span: &Span) -> Result<Part, Stop>
        requires { CanSpan (map plain_mem decls.now) (plain_span span.now ∷ []) self.old }
        ensures ran { Ran (sequential.part (map plain_mem decls.now) (plain_span span.now) self.old.left (store_of self.old)) (shown result) self.new }
        ensures keeps { OnOk result (Keeps self.old self.new) }
        ensures ranges { IfOk result (λ p. ranges_in (plain_part p) ≡ range_count (plain_span span.now ∷ [])) }
    {
        match span {
            Span::One(e) => self.single(decls, e),
            Span::Range(a, b, par) => self.range(decls, a, b, *par),
        }
    }

    /// What spans take, in order.
    pub(crate) fn parts(
        &mut self,
        decls: &[MemDecl],
        spans: &[Span],
        found: &mut [Part],
    ) -> Result<(), Stop>
        requires few { length spans.now ≤ length found.old }
        requires can { CanSpan (map plain_mem decls.now) (map plain_span spans.now) self.old }
        ensures ran { Ran (in_order (sequential.part (map plain_mem decls.now)) (map plain_span spans.now) self.old.left (store_of self.old)) (with_answer (plain_parts (take (length spans.now) found.new)) result) self.new }
        ensures keeps { OnOk result (Keeps self.old self.new) }
        ensures ranges { OnOk result (length (transfers.lengths (plain_parts (take (length spans.now) found.new))) ≡ range_count (map plain_span spans.now)) }
    {
        for (k, span) in spans.iter().enumerate() {
            let part = self.part(decls, span)?;
            found[k] = part;
        }
        Ok(())
    }

    /// One word of a load.
    fn load_one(
        &mut self,
        decls: &[MemDecl],
        sram: u32,
        dram: u32,
        parts: &[Part],
        k: usize,
    ) -> Result<(), Stop>
        requires can { CanSlice (map plain_mem decls.now) self.old sram dram (plain_parts parts.now) }
        requires below { k < word_count (transfers.lengths (plain_parts parts.now)) }
        ensures ran { (at : ℕ) → Ran (loaded (map plain_mem decls.now) at sram dram (plain_parts parts.now) (offsets_at (plain_parts parts.now) k) self.old.left (store_of self.old)) result self.new }
        ensures keeps { OnOk result (Keeps self.old self.new) }
    {
        let places = word_places(
            parts,
            &decls[dram as usize].dims,
            &decls[sram as usize].dims,
            k,
        );
        let word = self.read_word(dram, places.dram);
        self.turn()?;
        self.write_cell(sram, places.chip, word);
        Ok(())
    }

    /// One word of a store.
    fn store_one(
        &mut self,
        decls: &[MemDecl],
        sram: u32,
        dram: u32,
        parts: &[Part],
        k: usize,
        at: u32,
    ) -> Result<(), Stop>
        requires can { CanSlice (map plain_mem decls.now) self.old sram dram (plain_parts parts.now) }
        requires below { k < word_count (transfers.lengths (plain_parts parts.now)) }
        ensures ran { Ran (stored (map plain_mem decls.now) at sram dram (plain_parts parts.now) (offsets_at (plain_parts parts.now) k) self.old.left (store_of self.old)) result self.new }
        ensures keeps { OnOk result (Keeps self.old self.new) }
    {
        let places = word_places(
            parts,
            &decls[dram as usize].dims,
            &decls[sram as usize].dims,
            k,
        );
        let word = self.read_cell(sram, places.chip, at)?;
        self.turn()?;
        self.write_word(dram, places.dram, word);
        Ok(())
    }

    /// The words of a load.
    fn load_words(
        &mut self,
        decls: &[MemDecl],
        sram: u32,
        dram: u32,
        parts: &[Part],
        words: usize,
    ) -> Result<(), Stop>
        requires can { CanSlice (map plain_mem decls.now) self.old sram dram (plain_parts parts.now) }
        requires count { words ≡ word_count (transfers.lengths (plain_parts parts.now)) }
        ensures ran { RanSome (transfers.load_words sram (dims (map plain_mem decls.now) sram) dram (dims (map plain_mem decls.now) dram) (plain_parts parts.now) self.old.left (store_of self.old)) result self.new }
        ensures keeps { OnOk result (Keeps self.old self.new) }
    {
        for k in 0..words {
            self.load_one(decls, sram, dram, parts, k)?;
        }
        Ok(())
    }

    /// The words of a store.
    fn store_words(
        &mut self,
        decls: &[MemDecl],
        sram: u32,
        dram: u32,
        parts: &[Part],
        words: usize,
        at: u32,
    ) -> Result<(), Stop>
        requires can { CanSlice (map plain_mem decls.now) self.old sram dram (plain_parts parts.now) }
        requires count { words ≡ word_count (transfers.lengths (plain_parts parts.now)) }
        ensures ran { RanSome (transfers.store_words at sram (dims (map plain_mem decls.now) sram) dram (dims (map plain_mem decls.now) dram) (plain_parts parts.now) self.old.left (store_of self.old)) result self.new }
        ensures keeps { OnOk result (Keeps self.old self.new) }
    {
        for k in 0..words {
            self.store_one(decls, sram, dram, parts, k, at)?;
        }
        Ok(())
    }

    /// Words of a slice of a DRAM into an SRAM.
    pub(crate) fn load_sram(
        &mut self,
        decls: &[MemDecl],
        sram: u32,
        dram: u32,
        spans: &[Span],
        at: u32,
    ) -> Result<(), Stop>
        requires { CanRun (map plain_mem decls.now) (plain.load_sram sram dram (map plain_span spans.now)) self.old }
        ensures { (can : CanRun (map plain_mem decls.now) (plain.load_sram sram dram (map plain_span spans.now)) self.old)
            → Finished (map plain_mem decls.now) can.setting.roomy can.setting.scope self.old (sequential.run_kind (map plain_mem decls.now) can.setting.roomy (plain.load_sram sram dram (map plain_span spans.now)) at self.old.left (store_of self.old)) result self.new }
    {
        let mut found = [Part {
            ranged: false,
            from: 0,
            until: 0,
        }; 3];
        self.parts(decls, spans, &mut found)?;
        let parts = &found[..spans.len()];
        let words = extent(
            parts,
            &decls[dram as usize].dims,
            &decls[sram as usize].dims,
            FaultKind::Bounds,
            at,
        )?;
        if words == 0 {
            return Ok(());
        }
        self.load_words(decls, sram, dram, parts, words)
    }

    /// Words of an SRAM into a slice of a DRAM.
    pub(crate) fn store(
        &mut self,
        decls: &[MemDecl],
        dram: u32,
        spans: &[Span],
        sram: u32,
        at: u32,
    ) -> Result<(), Stop>
        requires { CanRun (map plain_mem decls.now) (plain.store dram (map plain_span spans.now) sram) self.old }
        ensures { (can : CanRun (map plain_mem decls.now) (plain.store dram (map plain_span spans.now) sram) self.old)
            → Finished (map plain_mem decls.now) can.setting.roomy can.setting.scope self.old (sequential.run_kind (map plain_mem decls.now) can.setting.roomy (plain.store dram (map plain_span spans.now) sram) at self.old.left (store_of self.old)) result self.new }
    {
        let mut found = [Part {
            ranged: false,
            from: 0,
            until: 0,
        }; 3];
        self.parts(decls, spans, &mut found)?;
        let parts = &found[..spans.len()];
        let words = extent(
            parts,
            &decls[dram as usize].dims,
            &decls[sram as usize].dims,
            FaultKind::Bounds,
            at,
        )?;
        if words == 0 {
            return Ok(());
        }
        self.store_words(decls, sram, dram, parts, words, at)
    }
}
