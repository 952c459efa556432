//! The forms of slices, and how long their ranges are.
ghost use Rattle.std.specs.Prelude.{◌≡◌, ◌≤◌, ◌++◌, ◌^◌, ◌<ℤ◌, pos, map, length, option_map, IfOk, OnOk};
ghost use Rattle.sp_affine.specs.Equality.{linear_parts_equal};
ghost use Rattle.sp_core.specs.Plain.{plain_ops, plain_span, plain_mem};
ghost use Rattle.sp_patterns.specs.Indices.{bound_form, first_form, slice_forms, range_lengths, length_between, length_up_to, at_least_one};
ghost use Rattle.sp_patterns.specs.Ranges.{plain_around};

use crate::around::{Around, word_form};
use crate::combine::is_constant;
use crate::index::index_form;
use sp_affine::Form;
use sp_core::{CoreMem, CoreSpan, Op};
use std::alloc::{AllocError, Global};

/// The form of a bound or a first index.
pub fn bound_form(
    alloc: Global,
    mems: &[CoreMem],
    around: &Around,
    ops: &[Op],
) -> Result<Option<Form>, AllocError>
    requires { length around.now.ranges.items ≤ 1024 }
    ensures { IfOk result (λ r. r ≡ bound_form (map plain_mem mems.now) (plain_around around.now) (plain_ops ops.now)) }
{
    let form = word_form(alloc, mems, &around.places, ops)?;
    Ok(index_form(&around.ranges, form))
}

fn first_form(
    alloc: Global,
    mems: &[CoreMem],
    around: &Around,
    span: &CoreSpan,
) -> Result<Option<Form>, AllocError>
    requires { length around.now.ranges.items ≤ 1024 }
    ensures { IfOk result (λ r. r ≡ first_form (map plain_mem mems.now) (plain_around around.now) (plain_span span.now)) }
{
    match span {
        CoreSpan::One(ops) => bound_form(alloc, mems, around, ops),
        CoreSpan::Range(from, _) => bound_form(alloc, mems, around, from),
    }
}

/// The forms of the first indices of a slice, where all are known.
pub fn slice_forms(
    alloc: Global,
    mems: &[CoreMem],
    around: &Around,
    spans: &[CoreSpan],
) -> Result<Option<Vec<Form>>, AllocError>
    requires { length around.now.ranges.items ≤ 1024 }
    ensures { IfOk result (λ r. option_map (λ row. row.items) r ≡ slice_forms (map plain_mem mems.now) (plain_around around.now) (map plain_span spans.now)) }
{
    let mut row = Vec::with_capacity(alloc, spans.len())?;
    for span in spans {
        let Some(form) = first_form(alloc, mems, around, span)? else {
            return Ok(None);
        };
        row.push(form)?;
    }
    Ok(Some(row))
}

fn have_one_linear_part(f: &Form, g: &Form) -> bool
    ensures { result ≡ linear_parts_equal f.now g.now }
{
    f.has_linear_part_of(g)
}

fn at_least_one(z: &i128) -> u64
    requires below { z.now <ℤ pos (2 ^ 64) }
    ensures { result ≡ at_least_one z.now }
{
    if *z < 1 { 1 } else { *z as u64 }
}

fn length_between(from: Option<Form>, until: Option<Form>) -> Option<u64>
    ensures { result ≡ length_between from until }
{
    let f = from?;
    let g = until?;
    if have_one_linear_part(&f, &g) {
        let length = i128::from(g.constant) - i128::from(f.constant);
        Some(at_least_one(&length))
    } else {
        None
    }
}

/// How long a count is, as a range from 0.
pub fn length_up_to(count: Option<Form>) -> Option<u64>
    ensures { result ≡ length_up_to count }
{
    let f = count?;
    if is_constant(&f) {
        Some(at_least_one(&i128::from(f.constant)))
    } else {
        None
    }
}

fn range_length(
    alloc: Global,
    mems: &[CoreMem],
    around: &Around,
    from: &[Op],
    until: &[Op],
) -> Result<Option<u64>, AllocError>
    requires { length around.now.ranges.items ≤ 1024 }
    ensures { IfOk result (λ r. r ≡ length_between
        (bound_form (map plain_mem mems.now) (plain_around around.now) (plain_ops from.now))
        (bound_form (map plain_mem mems.now) (plain_around around.now) (plain_ops until.now))) }
{
    let first = bound_form(alloc, mems, around, from)?;
    let end = bound_form(alloc, mems, around, until)?;
    Ok(length_between(first, end))
}

/// What the lengths of the ranges of a slice never pass.
pub fn add_lengths(
    alloc: Global,
    mems: &[CoreMem],
    around: &Around,
    spans: &[CoreSpan],
    lengths: &mut Vec<Option<u64>>,
) -> Result<(), AllocError>
    requires { length around.now.ranges.items ≤ 1024 }
    ensures { OnOk result (lengths.new.items ≡ lengths.old.items ++ range_lengths (map plain_mem mems.now) (plain_around around.now) (map plain_span spans.now)) }
{
    for span in spans {
        if let CoreSpan::Range(from, until) = span {
            let length = range_length(alloc, mems, around, from, until)?;
            lengths.push(length)?;
        }
    }
    Ok(())
}
