//! Whether nodes keep their rules, beside what the nodes in them do.

ghost use Rattle.std.specs.Prelude.{◌≡◌, ◌==◌, [], ◌∷◌, map, length, IfOk};
ghost use Rattle.std.specs.List.{list_all};
ghost use Rattle.sp_core.specs.NodeRules.{is_sram, is_line, range_count, ends_in_range, are_counters_right, is_span_right, is_slice_right, is_sram_here, fits_sram, fits_line, are_places, is_pick_right, is_wide_right, is_sparse_right};
ghost use Rattle.sp_core.specs.OperationRules.{is_counter_right};
ghost use Rattle.sp_core.specs.Declarations.{dram};
ghost use Rattle.sp_core.specs.PartsPlain.{core_of, around_of};
ghost use Rattle.sp_core.specs.Plain.{plain_op, plain_counter, plain_span};

use crate::node::{CoreCounter, CoreSpan, SparseKind};
use crate::operation::Op;
use crate::operation_rules::{is_bound, is_counter_right};
use crate::parts::{Around, Parts};
use crate::typed::is_type;
use sp_words::{Kind, Ty};
use std::alloc::{AllocError, Global};

impl Parts {
    /// How many DRAMs there are.
    fn dram_count(&self) -> usize
        ensures { result ≡ length (core_of self.now).ports.drams }
    {
        self.ports.drams.len()
    }

    /// How many dimensions a DRAM has; none where there is no such.
    fn dram_rank(&self, r: u32) -> usize
        ensures { result ≡ length (dram (core_of self.now) r).dims }
    {
        match self.ports.drams.get(r as usize) {
            Some(dram) => dram.dims.len(),
            None => 0,
        }
    }

    /// The type of its words.
    fn dram_ty(&self, r: u32) -> Ty
        ensures { result ≡ (dram (core_of self.now) r).ty }
    {
        match self.ports.drams.get(r as usize) {
            Some(dram) => dram.ty,
            None => Ty::Bit,
        }
    }
}

/// Whether counters keep their rules, and aren't too many.
pub(crate) fn are_counters_right(
    alloc: Global,
    parts: &Parts,
    around: &Around,
    counters: &[CoreCounter],
) -> Result<bool, AllocError>
    ensures { IfOk result (λ right. right ≡ are_counters_right (core_of parts.now) (around_of around.now) (map plain_counter counters.now)) }
{
    if counters.len() > 4 || around.counters.len() > 1000 - counters.len() {
        return Ok(false);
    }
    for counter in counters {
        if !is_counter_right(alloc, parts, around, counter)? {
            return Ok(false);
        }
    }
    Ok(true)
}

fn is_span_right(
    alloc: Global,
    parts: &Parts,
    around: &Around,
    span: &CoreSpan,
) -> Result<bool, AllocError>
    ensures { IfOk result (λ right. right ≡ is_span_right (core_of parts.now) (around_of around.now) (plain_span span.now)) }
{
    match span {
        CoreSpan::One(ops) => is_bound(alloc, parts, around, ops),
        CoreSpan::Range(from, until) => {
            Ok(is_bound(alloc, parts, around, from)? && is_bound(alloc, parts, around, until)?)
        }
    }
}

fn are_spans_right(
    alloc: Global,
    parts: &Parts,
    around: &Around,
    spans: &[CoreSpan],
) -> Result<bool, AllocError>
    ensures { IfOk result (λ right. right ≡ list_all (is_span_right (core_of parts.now) (around_of around.now)) (map plain_span spans.now)) }
{
    for span in spans {
        if !is_span_right(alloc, parts, around, span)? {
            return Ok(false);
        }
    }
    Ok(true)
}

/// Whether a slice has a span for each dimension of its DRAM.
pub(crate) fn is_slice_right(
    alloc: Global,
    parts: &Parts,
    around: &Around,
    dram: u32,
    spans: &[CoreSpan],
) -> Result<bool, AllocError>
    ensures { IfOk result (λ right. right ≡ is_slice_right (core_of parts.now) (around_of around.now) dram (map plain_span spans.now)) }
{
    Ok(
        ((dram as usize) < parts.dram_count() && spans.len() == parts.dram_rank(dram))
            && are_spans_right(alloc, parts, around, spans)?,
    )
}

/// How many ranges there are.
fn range_count(spans: &[CoreSpan]) -> usize
    ensures { result ≡ range_count (map plain_span spans.now) }
{
    let mut count = 0;
    for span in spans {
        if let CoreSpan::Range(_, _) = span {
            count += 1;
        }
    }
    count
}

fn is_range(span: &CoreSpan) -> bool
    ensures { result ≡ ends_in_range (plain_span span.now ∷ []) }
{
    match span {
        CoreSpan::One(_) => false,
        CoreSpan::Range(_, _) => true,
    }
}

/// Whether the last span is a range.
fn ends_in_range(spans: &[CoreSpan]) -> bool
    ensures { result ≡ ends_in_range (map plain_span spans.now) }
{
    match spans.last() {
        Some(span) => is_range(span),
        None => false,
    }
}

fn is_sram(kind: Kind) -> bool
    ensures { result ≡ is_sram kind }
{
    match kind {
        Kind::Sram => true,
        _ => false,
    }
}

fn is_line(kind: Kind) -> bool
    ensures { result ≡ is_line kind }
{
    match kind {
        Kind::LineBuf => true,
        _ => false,
    }
}

/// Whether an SRAM of the DRAM's type is usable here.
fn is_sram_here(parts: &Parts, around: &Around, dram: u32, mem: u32) -> bool
    ensures { result ≡ is_sram_here (core_of parts.now) (around_of around.now) dram mem }
{
    (parts.is_usable(around, mem) && is_sram(parts.kind(mem)))
        && is_type(parts.ty(mem), parts.dram_ty(dram))
}

/// Whether it has as many dimensions as the slice has ranges.
pub(crate) fn fits_sram(
    parts: &Parts,
    around: &Around,
    dram: u32,
    mem: u32,
    spans: &[CoreSpan],
) -> bool
    ensures { result ≡ fits_sram (core_of parts.now) (around_of around.now) dram mem (map plain_span spans.now) }
{
    is_sram_here(parts, around, dram, mem) && range_count(spans) == parts.rank(mem)
}

/// Whether a line buffer takes the slice.
pub(crate) fn fits_line(
    parts: &Parts,
    around: &Around,
    dram: u32,
    mem: u32,
    spans: &[CoreSpan],
) -> bool
    ensures { result ≡ fits_line (core_of parts.now) (around_of around.now) dram mem (map plain_span spans.now) }
{
    ((parts.is_usable(around, mem) && is_line(parts.kind(mem)))
        && is_type(parts.ty(mem), parts.dram_ty(dram)))
        && (range_count(spans) == 1 && ends_in_range(spans))
}

/// Whether places are those of an SRAM of one dimension.
fn are_places(parts: &Parts, around: &Around, index: Option<u32>) -> bool
    ensures { result ≡ are_places (core_of parts.now) (around_of around.now) index }
{
    match index {
        None => false,
        Some(p) => {
            (parts.is_usable(around, p) && is_sram(parts.kind(p)))
                && (is_type(parts.ty(p), Ty::int()) && parts.rank(p) == 1)
        }
    }
}

/// Whether a gather or scatter keeps its rules.
fn is_pick_right(
    alloc: Global,
    parts: &Parts,
    around: &Around,
    dram: u32,
    mem: u32,
    index: Option<u32>,
    spans: &[CoreSpan],
    count: &[Op],
    par: u32,
) -> Result<bool, AllocError>
    ensures { IfOk result (λ right. right ≡ is_pick_right (core_of parts.now) (around_of around.now) dram mem index (map plain_span spans.now) (map plain_op count.now) par) }
{
    Ok(
        (((dram as usize) < parts.dram_count() && parts.dram_rank(dram) == 1)
            && (is_sram_here(parts, around, dram, mem) && parts.rank(mem) == 1))
            && ((are_places(parts, around, index) && is_bound(alloc, parts, around, count)?)
                && (spans.is_empty() && par == 1)),
    )
}

/// Whether a wide transfer does.
fn is_wide_right(
    alloc: Global,
    parts: &Parts,
    around: &Around,
    dram: u32,
    mem: u32,
    index: Option<u32>,
    spans: &[CoreSpan],
    count: &[Op],
    par: u32,
) -> Result<bool, AllocError>
    ensures { IfOk result (λ right. right ≡ is_wide_right (core_of parts.now) (around_of around.now) dram mem index (map plain_span spans.now) (map plain_op count.now) par) }
{
    Ok(
        (is_slice_right(alloc, parts, around, dram, spans)?
            && fits_sram(parts, around, dram, mem, spans))
            && ((index.is_none() && count.is_empty()) && (1 <= par && par <= 16)),
    )
}

/// Whether one of the two does.
pub(crate) fn is_sparse_right(
    alloc: Global,
    parts: &Parts,
    around: &Around,
    kind: SparseKind,
    dram: u32,
    mem: u32,
    index: Option<u32>,
    spans: &[CoreSpan],
    count: &[Op],
    par: u32,
) -> Result<bool, AllocError>
    ensures { IfOk result (λ right. right ≡ is_sparse_right (core_of parts.now) (around_of around.now) kind dram mem index (map plain_span spans.now) (map plain_op count.now) par) }
{
    match kind {
        SparseKind::Gather | SparseKind::Scatter => {
            is_pick_right(alloc, parts, around, dram, mem, index, spans, count, par)
        }
        SparseKind::WideLoad | SparseKind::WideStore => {
            is_wide_right(alloc, parts, around, dram, mem, index, spans, count, par)
        }
    }
}
