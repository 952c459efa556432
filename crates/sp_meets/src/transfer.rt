//! What transfers touch.
ghost use Rattle.std.specs.Prelude.{◌≡◌, ◌++◌, ◌+◌, ◌∷◌, [], map, length, slice_index_or, IfOk, OnOk};
ghost use Rattle.sp_words.specs.Ports.{plain_port, plain_ports};
ghost use Rattle.sp_core.specs.CoreParts.{plain_core};
ghost use Rattle.sp_core.specs.Declarations.{kind_of, dims, dram, dram_number};
ghost use Rattle.sp_core.specs.Plain.{plain_span, plain_mem};
ghost use Rattle.sp_meets.specs.Plain.{plain_path, plain_target, plain_spot};
ghost use Rattle.sp_meets.specs.Spots.{are_ranges, range_sizes, slice_places, slice_targets, slice_spot, word_target, pick_targets, pick_spot, sparse_spot};

use crate::spot::{Level, Places, Spot, Target, copy_path};
use sp_core::{Core, CoreSpan, SparseKind};
use sp_words::Kind;
use std::alloc::{AllocError, Global};

fn add_ranges(spans: &[CoreSpan], ranges: &mut Vec<bool>) -> Result<(), AllocError>
    ensures { OnOk result (ranges.new.items ≡ ranges.old.items ++ are_ranges (map plain_span spans.now)) }
{
    let [span, rest @ ..] = spans else {
        return Ok(());
    };
    ranges.push(is_range(span))?;
    add_ranges(rest, ranges)
}

fn is_range(span: &CoreSpan) -> bool
    ensures { result ∷ [] ≡ are_ranges (plain_span span.now ∷ []) }
{
    match span {
        CoreSpan::One(_) => false,
        CoreSpan::Range(_, _) => true,
    }
}

fn are_ranges(alloc: Global, spans: &[CoreSpan]) -> Result<Vec<bool>, AllocError>
    ensures { IfOk result (λ r. r.items ≡ are_ranges (map plain_span spans.now)) }
{
    let mut ranges = Vec::new(alloc);
    add_ranges(spans, &mut ranges)?;
    Ok(ranges)
}

fn add_size(span: &CoreSpan, dim: u32, sizes: &mut Vec<u32>) -> Result<(), AllocError>
    ensures { OnOk result (sizes.new.items ≡ sizes.old.items ++ range_sizes (plain_span span.now ∷ []) (dim ∷ [])) }
{
    if is_range(span) {
        sizes.push(dim)?;
    }
    Ok(())
}

fn add_sizes(spans: &[CoreSpan], dims: &[u32], sizes: &mut Vec<u32>) -> Result<(), AllocError>
    ensures { OnOk result (sizes.new.items ≡ sizes.old.items ++ range_sizes (map plain_span spans.now) dims.now) }
{
    let [span, rest @ ..] = spans else {
        return Ok(());
    };
    let [dim, others @ ..] = dims else {
        return Ok(());
    };
    add_size(span, *dim, sizes)?;
    add_sizes(rest, others, sizes)
}

fn dram_dims(core: &Core, r: u32) -> &[u32]
    ensures { result.now ≡ (dram (plain_core core.now) r).dims }
{
    match core.ports().drams.get(r as usize) {
        Some(port) => &port.dims,
        None => &[],
    }
}

fn range_sizes(
    alloc: Global,
    core: &Core,
    r: u32,
    spans: &[CoreSpan],
) -> Result<Vec<u32>, AllocError>
    ensures { IfOk result (λ s. s.items ≡ range_sizes (map plain_span spans.now) (dram (plain_core core.now) r).dims) }
{
    let mut sizes = Vec::new(alloc);
    add_sizes(spans, dram_dims(core, r), &mut sizes)?;
    Ok(sizes)
}

fn kind_of(core: &Core, m: u32) -> Kind
    ensures { result ≡ kind_of (plain_core core.now) m }
{
    match core.mems().get(m as usize) {
        Some(mem) => mem.kind,
        None => Kind::Dram,
    }
}

fn dims(core: &Core, m: u32) -> &[u32]
    ensures { result.now ≡ dims (plain_core core.now) m }
{
    match core.mems().get(m as usize) {
        Some(mem) => &mem.dims,
        None => dram_dims(core, m - core.mems().len() as u32),
    }
}

fn slice_places(kind: Kind) -> Places
    ensures { result ≡ slice_places kind }
{
    match kind {
        Kind::LineBuf => Places::Anywhere,
        Kind::Reg => Places::Counters,
        Kind::Sram => Places::Counters,
        Kind::Fifo => Places::Counters,
        Kind::Dram => Places::Counters,
        Kind::ArgIn => Places::Counters,
        Kind::ArgOut => Places::Counters,
    }
}

fn dram_number(core: &Core, r: u32) -> Result<u32, AllocError>
    ensures { IfOk result (λ n. n ≡ dram_number (plain_core core.now) r) }
{
    let mems = u32::try_from(core.mems().len()).ok().ok_or(AllocError)?;
    mems.checked_add(r).ok_or(AllocError)
}

fn slice_targets(
    alloc: Global,
    core: &Core,
    loads: bool,
    dram: u32,
    mem: u32,
    sizes: &[u32],
) -> Result<Vec<Target>, AllocError>
    ensures { IfOk result (λ targets. map plain_target targets.items ≡ slice_targets (plain_core core.now) loads dram mem sizes.now) }
{
    let mut targets = Vec::new(alloc);
    targets.push(Target {
        mem: dram_number(core, dram)?,
        writes: !loads,
        places: Places::Slice,
        sizes: Vec::from_slice(alloc, sizes)?,
    })?;
    targets.push(Target {
        mem,
        writes: loads,
        places: slice_places(kind_of(core, mem)),
        sizes: Vec::from_slice(alloc, sizes)?,
    })?;
    Ok(targets)
}

/// A slice of a DRAM, and the words of a memory that go there or come from there.
pub fn slice_spot(
    alloc: Global,
    core: &Core,
    path: &[Level],
    number: u32,
    loads: bool,
    dram: u32,
    mem: u32,
    spans: &[CoreSpan],
) -> Result<Spot, AllocError>
    ensures { IfOk result (λ s. plain_spot s ≡ slice_spot (plain_core core.now) (plain_path path.now) number loads dram mem (map plain_span spans.now)) }
{
    let sizes = range_sizes(alloc, core, dram, spans)?;
    Ok(Spot {
        number,
        path: copy_path(alloc, path)?,
        targets: slice_targets(alloc, core, loads, dram, mem, &sizes)?,
        spans: are_ranges(alloc, spans)?,
        lengths: sizes.len(),
    })
}

fn first_dim(core: &Core, m: u32) -> u32
    ensures { result ≡ slice_index_or (dims (plain_core core.now) m) 0 1 }
{
    match dims(core, m).first() {
        Some(dim) => *dim,
        None => 1,
    }
}

fn word_target(alloc: Global, core: &Core, writes: bool, m: u32) -> Result<Target, AllocError>
    ensures { IfOk result (λ t. plain_target t ≡ word_target (plain_core core.now) writes m) }
{
    let mut sizes = Vec::new(alloc);
    sizes.push(first_dim(core, m))?;
    Ok(Target {
        mem: m,
        writes,
        places: Places::Counters,
        sizes,
    })
}

fn pick_targets(
    alloc: Global,
    core: &Core,
    gathers: bool,
    dram: u32,
    mem: u32,
    index: Option<u32>,
) -> Result<Vec<Target>, AllocError>
    ensures { IfOk result (λ targets. map plain_target targets.items ≡ pick_targets (plain_core core.now) gathers dram mem index) }
{
    let mut targets = Vec::new(alloc);
    targets.push(Target {
        mem: dram_number(core, dram)?,
        writes: !gathers,
        places: Places::Anywhere,
        sizes: Vec::new(alloc),
    })?;
    targets.push(word_target(alloc, core, gathers, mem)?)?;
    if let Some(p) = index {
        targets.push(word_target(alloc, core, false, p)?)?;
    }
    Ok(targets)
}

fn pick_spot(
    alloc: Global,
    core: &Core,
    path: &[Level],
    number: u32,
    gathers: bool,
    dram: u32,
    mem: u32,
    index: Option<u32>,
) -> Result<Spot, AllocError>
    ensures { IfOk result (λ s. plain_spot s ≡ pick_spot (plain_core core.now) (plain_path path.now) number gathers dram mem index) }
{
    Ok(Spot {
        number,
        path: copy_path(alloc, path)?,
        targets: pick_targets(alloc, core, gathers, dram, mem, index)?,
        spans: Vec::new(alloc),
        lengths: 1,
    })
}

/// A gather, a scatter, or a slice in several lanes.
pub fn sparse_spot(
    alloc: Global,
    core: &Core,
    path: &[Level],
    number: u32,
    kind: SparseKind,
    dram: u32,
    mem: u32,
    index: Option<u32>,
    spans: &[CoreSpan],
) -> Result<Spot, AllocError>
    ensures { IfOk result (λ s. plain_spot s ≡ sparse_spot (plain_core core.now) (plain_path path.now) number kind dram mem index (map plain_span spans.now)) }
{
    match kind {
        SparseKind::Gather => pick_spot(alloc, core, path, number, true, dram, mem, index),
        SparseKind::Scatter => pick_spot(alloc, core, path, number, false, dram, mem, index),
        SparseKind::WideLoad => slice_spot(alloc, core, path, number, true, dram, mem, spans),
        SparseKind::WideStore => slice_spot(alloc, core, path, number, false, dram, mem, spans),
    }
}
