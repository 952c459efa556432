//! Transfers.
ghost use Rattle.std.specs.Prelude.{◌≡◌, map, IfOk};
ghost use Rattle.sp_core.specs.Plain as core;
ghost use Rattle.sp_core.specs.PlainCore.{sparse};
ghost use Rattle.std.specs.Prelude.{ℕ, [], Some};
ghost use Rattle.sp_tree.specs.Plain.{plain_expr, plain_mem};
ghost use Rattle.sp_tree.specs.PlainTree.{plain_span};
ghost use Rattle.sp_tree.specs.Structure.{slice_lanes};
ghost use Rattle.sp_sugar.specs.Early.{is_early, from_register, spans_of};
ghost use Rattle.sp_sugar.specs.Numbers.{mem_number, dram_number};
ghost use Rattle.sp_sugar.specs.Stages.{load_node, store_node};
ghost use Rattle.sp_operations.specs.Sources.{sources_of};

use crate::NoMemory;
use crate::early::{Crossing, from_register, is_early_slice, push_spans};
use sp_core::{CoreSpan, Node, SparseKind};
use sp_operations::{Source, dram_number, mem_number};
use sp_tree::{Expr, MemDecl, Span};
use std::alloc::{AllocError, Global};

/// The lanes of a slice.
fn slice_lanes(spans: &[Span]) -> Result<u32, NoMemory>
    ensures { IfOk result (λ n. n ≡ slice_lanes (map plain_span spans.now)) }
{
    let [span, rest @ ..] = spans else {
        return Ok(1);
    };
    let others = slice_lanes(rest)?;
    match span {
        Span::One(_) => Ok(others),
        Span::Range(_, _, par) => par.checked_mul(others).ok_or(AllocError),
    }
}

/// The spans of a slice, whose early parts cross in registers from a number on.
fn spans_of(
    alloc: Global,
    mems: &[MemDecl],
    sources: &[Source],
    r: u32,
    spans: &[Span],
) -> Result<Vec<CoreSpan>, NoMemory>
    ensures { IfOk result (λ all. map core.plain_span all.items ≡ spans_of (map plain_mem mems.now) (sources_of sources.now) r (map plain_span spans.now)) }
{
    let early = is_early_slice(spans);
    let mut all = Vec::new(alloc);
    push_spans(
        alloc,
        &mut all,
        mems,
        sources,
        Crossing::Part(early),
        r,
        spans,
    )?;
    Ok(all)
}

/// A slice of a DRAM into an SRAM or a line buffer.
pub(crate) fn load_node(
    alloc: Global,
    mems: &[MemDecl],
    sources: &[Source],
    r: u32,
    mem: u32,
    dram: u32,
    spans: &[Span],
) -> Result<Node, NoMemory>
    ensures { IfOk result (λ node. (counters : ℕ) → core.plain_node node ≡ load_node (map plain_mem mems.now) counters (sources_of sources.now) r mem dram (map plain_span spans.now)) }
{
    let par = slice_lanes(spans)?;
    let span = spans_of(alloc, mems, sources, r, spans)?;
    let dram = dram_number(mems, dram);
    let mem = mem_number(mems, mem);
    if par == 1 {
        return Ok(Node::Load { dram, mem, span });
    }
    Ok(Node::Sparse {
        kind: SparseKind::WideLoad,
        dram,
        mem,
        index: None,
        span,
        count: Vec::new(alloc),
        par,
    })
}

/// An SRAM into a slice of a DRAM.
pub(crate) fn store_node(
    alloc: Global,
    mems: &[MemDecl],
    sources: &[Source],
    r: u32,
    dram: u32,
    mem: u32,
    spans: &[Span],
) -> Result<Node, NoMemory>
    ensures { IfOk result (λ node. (counters : ℕ) → core.plain_node node ≡ store_node (map plain_mem mems.now) counters (sources_of sources.now) r dram mem (map plain_span spans.now)) }
{
    let par = slice_lanes(spans)?;
    let span = spans_of(alloc, mems, sources, r, spans)?;
    let dram = dram_number(mems, dram);
    let mem = mem_number(mems, mem);
    if par == 1 {
        return Ok(Node::Store { dram, mem, span });
    }
    Ok(Node::Sparse {
        kind: SparseKind::WideStore,
        dram,
        mem,
        index: None,
        span,
        count: Vec::new(alloc),
        par,
    })
}

/// A transfer of words whose places stand in an SRAM.
pub(crate) fn places_node(
    alloc: Global,
    mems: &[MemDecl],
    sources: &[Source],
    r: u32,
    kind: SparseKind,
    dram: u32,
    mem: u32,
    places: u32,
    count: &Expr,
) -> Result<Node, NoMemory>
    ensures { IfOk result (λ node. core.plain_node node ≡ sparse kind (dram_number (map plain_mem mems.now) dram) (mem_number (map plain_mem mems.now) mem) (Some (mem_number (map plain_mem mems.now) places)) [] (from_register (map plain_mem mems.now) (sources_of sources.now) is_early r (plain_expr count.now)) 1) }
{
    let count = from_register(alloc, mems, sources, Crossing::Bound, r, count)?;
    Ok(Node::Sparse {
        kind,
        dram: dram_number(mems, dram),
        mem: mem_number(mems, mem),
        index: Some(mem_number(mems, places)),
        span: Vec::new(alloc),
        count,
        par: 1,
    })
}
