//! The forms of the indices at which an access touches its memories, over the counters around and its own.
ghost use Rattle.std.specs.Prelude.{◌≡◌, ◌≤◌, ◌++◌, drop, pos, replicate, slice_index_or, option_map, Some, None, IfOk, OnOk};
ghost use Rattle.sp_patterns.specs.Indices.{rows_of};
ghost use Rattle.sp_meets.specs.Sites.{from_zero, size_of, own_counters, unit, with_more, slice_indices, counter_indices, indices_by};

use crate::spot::Places;
use sp_affine::Form;
use sp_deps::LoopRange;
use std::alloc::{AllocError, Global};

/// A counter from 0 on, below a length.
fn from_zero(length: u64) -> Result<LoopRange, AllocError>
    ensures { IfOk result (λ l. l ≡ from_zero length) }
{
    let greatest = i64::try_from(length.max(1) - 1).ok().ok_or(AllocError)?;
    Ok(LoopRange {
        from: Some((0, greatest)),
        by: 1,
        par: 1,
    })
}

fn size_of(length: Option<u64>, size: u32) -> u64
    ensures { result ≡ size_of length size }
{
    match length {
        Some(known) => known,
        None => u64::from(size),
    }
}

fn first_length(lengths: &[Option<u64>]) -> Option<u64>
    ensures { result ≡ slice_index_or lengths.now 0 None }
{
    match lengths.first() {
        Some(length) => *length,
        None => None,
    }
}

fn rest_of(lengths: &[Option<u64>]) -> &[Option<u64>]
    ensures { result.now ≡ drop 1 lengths.now }
{
    match lengths.split_first() {
        Some((_, rest)) => rest,
        None => lengths,
    }
}

fn add_own(
    lengths: &[Option<u64>],
    sizes: &[u32],
    own: &mut Vec<LoopRange>,
) -> Result<(), AllocError>
    ensures { OnOk result (own.new.items ≡ own.old.items ++ own_counters lengths.now sizes.now) }
{
    let [size, rest @ ..] = sizes else {
        return Ok(());
    };
    own.push(from_zero(size_of(first_length(lengths), *size))?)?;
    add_own(rest_of(lengths), rest, own)
}

/// The counters of an access's own.
pub fn own_counters(
    alloc: Global,
    lengths: &[Option<u64>],
    sizes: &[u32],
) -> Result<Vec<LoopRange>, AllocError>
    ensures { IfOk result (λ own. own.items ≡ own_counters lengths.now sizes.now) }
{
    let mut own = Vec::new(alloc);
    add_own(lengths, sizes, &mut own)?;
    Ok(own)
}

fn add_zeros(count: usize, coefs: &mut Vec<i64>) -> Result<(), AllocError>
    ensures { OnOk result (coefs.new.items ≡ coefs.old.items ++ replicate count (pos 0)) }
{
    if count == 0 {
        return Ok(());
    }
    coefs.push(0)?;
    add_zeros(count - 1, coefs)
}

fn add_unit(count: usize, at: usize, coefs: &mut Vec<i64>) -> Result<(), AllocError>
    ensures { OnOk result (coefs.new.items ≡ coefs.old.items ++ unit count at) }
{
    if count == 0 {
        return Ok(());
    }
    if at == 0 {
        coefs.push(1)?;
        return add_zeros(count - 1, coefs);
    }
    coefs.push(0)?;
    add_unit(count - 1, at - 1, coefs)
}

/// A form over more counters, of which the one at a place counts.
fn with_unit(alloc: Global, f: &Form, count: usize, at: usize) -> Result<Form, AllocError>
    ensures { IfOk result (λ r. r ≡ with_more (unit count at) f.now) }
{
    let mut coefs = Vec::from_slice(alloc, &f.coefs)?;
    add_unit(count, at, &mut coefs)?;
    Ok(Form {
        coefs,
        constant: f.constant,
        symbol: f.symbol,
    })
}

/// A form over more counters, of which none counts.
fn with_zeros(alloc: Global, f: &Form, count: usize) -> Result<Form, AllocError>
    ensures { IfOk result (λ r. r ≡ with_more (replicate count (pos 0)) f.now) }
{
    let mut coefs = Vec::from_slice(alloc, &f.coefs)?;
    add_zeros(count, &mut coefs)?;
    Ok(Form {
        coefs,
        constant: f.constant,
        symbol: f.symbol,
    })
}

fn add_slice(
    alloc: Global,
    count: usize,
    at: usize,
    spans: &[bool],
    forms: &[Form],
    indices: &mut Vec<Form>,
) -> Result<(), AllocError>
    ensures { OnOk result (indices.new.items ≡ indices.old.items ++ slice_indices count at spans.now forms.now) }
{
    let [is_range, rest @ ..] = spans else {
        return Ok(());
    };
    let [f, others @ ..] = forms else {
        return Ok(());
    };
    if *is_range {
        indices.push(with_unit(alloc, f, count, at)?)?;
        let next = at.checked_add(1).ok_or(AllocError)?;
        add_slice(alloc, count, next, rest, others, indices)
    } else {
        indices.push(with_zeros(alloc, f, count)?)?;
        add_slice(alloc, count, at, rest, others, indices)
    }
}

fn slice_indices(
    alloc: Global,
    count: usize,
    spans: &[bool],
    forms: &[Form],
) -> Result<Vec<Form>, AllocError>
    ensures { IfOk result (λ v. v.items ≡ slice_indices count 0 spans.now forms.now) }
{
    let mut indices = Vec::new(alloc);
    add_slice(alloc, count, 0, spans, forms, &mut indices)?;
    Ok(indices)
}

fn counter_index(alloc: Global, around: usize, count: usize, at: usize) -> Result<Form, AllocError>
    ensures { IfOk result (λ f. f ≡ record { coefs = replicate around (pos 0) ++ unit count at; constant = pos 0; symbol = None }) }
{
    let mut coefs = Vec::new(alloc);
    add_zeros(around, &mut coefs)?;
    add_unit(count, at, &mut coefs)?;
    Ok(Form {
        coefs,
        constant: 0,
        symbol: None,
    })
}

fn add_counters(
    alloc: Global,
    around: usize,
    count: usize,
    last: usize,
    indices: &mut Vec<Form>,
) -> Result<(), AllocError>
    requires { last ≤ count }
    ensures { OnOk result (indices.new.items ≡ indices.old.items ++ counter_indices around count last) }
{
    if last == 0 {
        return Ok(());
    }
    indices.push(counter_index(alloc, around, count, count - last)?)?;
    add_counters(alloc, around, count, last - 1, indices)
}

fn counter_indices(alloc: Global, around: usize, count: usize) -> Result<Vec<Form>, AllocError>
    ensures { IfOk result (λ v. v.items ≡ counter_indices around count count) }
{
    let mut indices = Vec::new(alloc);
    add_counters(alloc, around, count, count, &mut indices)?;
    Ok(indices)
}

fn add_copies(alloc: Global, forms: &[Form], copies: &mut Vec<Form>) -> Result<(), AllocError>
    ensures { OnOk result (copies.new.items ≡ copies.old.items ++ forms.now) }
{
    let [f, rest @ ..] = forms else {
        return Ok(());
    };
    copies.push(with_zeros(alloc, f, 0)?)?;
    add_copies(alloc, rest, copies)
}

/// The same forms.
pub fn copy_forms(alloc: Global, forms: &[Form]) -> Result<Vec<Form>, AllocError>
    ensures { IfOk result (λ v. v.items ≡ forms.now) }
{
    let mut copies = Vec::new(alloc);
    add_copies(alloc, forms, &mut copies)?;
    Ok(copies)
}

// Those of the operands of an operation.
fn operand_indices(
    alloc: Global,
    rows: &[Option<Vec<Form>>],
) -> Result<Option<Vec<Form>>, AllocError>
    ensures { IfOk result (λ r. option_map (λ v. v.items) r ≡ slice_index_or (rows_of rows.now) 0 None) }
{
    let Some(Some(forms)) = rows.first() else {
        return Ok(None);
    };
    Ok(Some(copy_forms(alloc, forms)?))
}

// Those of a slice.
fn range_indices(
    alloc: Global,
    rows: &[Option<Vec<Form>>],
    spans: &[bool],
    count: usize,
) -> Result<Option<Vec<Form>>, AllocError>
    ensures { IfOk result (λ r. option_map (λ v. v.items) r ≡ option_map (slice_indices count 0 spans.now) (slice_index_or (rows_of rows.now) 0 None)) }
{
    let Some(Some(forms)) = rows.first() else {
        return Ok(None);
    };
    Ok(Some(slice_indices(alloc, count, spans, forms)?))
}

/// The indices at which an access touches a memory, where they are known: by the first row of forms, which of its spans are
/// ranges, how many counters are around, and how many are its own.
pub fn indices_by(
    alloc: Global,
    places: Places,
    rows: &[Option<Vec<Form>>],
    spans: &[bool],
    around: usize,
    count: usize,
) -> Result<Option<Vec<Form>>, AllocError>
    ensures { IfOk result (λ r. option_map (λ v. v.items) r ≡ indices_by spans.now around (slice_index_or (rows_of rows.now) 0 None) places count) }
{
    match places {
        Places::Operands => operand_indices(alloc, rows),
        Places::Slice => range_indices(alloc, rows, spans, count),
        Places::Counters => Ok(Some(counter_indices(alloc, around, count)?)),
        Places::Anywhere => Ok(None),
    }
}
