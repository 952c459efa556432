//! The forms of operations that have no operands.
ghost use Rattle.std.specs.Prelude.{◌≡◌, ◌*◌, length, map, pos, IfOk, IfSome, MatchOption, slice_index_or, if◌then◌else◌, Some, None, IsTrue, false};
ghost use Rattle.sp_words.specs.Types.{int_type};
ghost use Rattle.sp_words.specs.Words.{value_of};
ghost use Rattle.sp_core.specs.Plain.{plain_ops, plain_mem};
ghost use Rattle.sp_core.specs.PlainCore.{no_mem};
ghost use Rattle.sp_patterns.specs.Forms.{no_counters, fits, constant_form, counter_form, read_form, is_around, nearest_coefs, lane_step};

use crate::memory::is_steady;
use crate::place::CounterPlace;
use sp_affine::Form;
use sp_core::{CoreMem, Op};
use sp_words::Kind;
use std::alloc::{AllocError, Global};

/// The form of a word of `Int`.
pub fn literal(alloc: Global, places: &[CounterPlace], w: u64) -> Result<Option<Form>, AllocError>
    ensures form { IfOk result (λ r. r ≡ constant_form places.now (value_of int_type w)) }
    ensures counters { IfOk result (λ r. IfSome r (λ f. length f.coefs ≡ length places.now)) }
{
    let Some(constant) = narrow(&int_value(w)) else {
        return Ok(None);
    };
    Ok(Some(Form {
        coefs: zeros(alloc, places)?,
        constant,
        symbol: None,
    }))
}

fn int_value(w: u64) -> i128
    ensures { result ≡ value_of int_type w }
{
    if w < 1 << 31 {
        i128::from(w)
    } else {
        i128::from(w) - (1 << 32)
    }
}

fn narrow(z: &i128) -> Option<i64>
    ensures { result ≡ (if fits z.now then Some z.now else None) }
{
    i64::try_from(*z).ok()
}

/// The form of a counter in a lane.
pub fn counter(
    alloc: Global,
    places: &[CounterPlace],
    c: u32,
    lane: u32,
) -> Result<Option<Form>, AllocError>
    ensures form { IfOk result (λ r. r ≡ counter_form places.now c lane) }
    ensures counters { IfOk result (λ r. IfSome r (λ f. length f.coefs ≡ length places.now)) }
{
    if !is_around(places, c) {
        return Ok(None);
    }
    let more = u64::from(lane) * u64::from(lane_step(places, c));
    let Some(constant) = narrow(&i128::from(more)) else {
        return Ok(None);
    };
    Ok(Some(Form {
        coefs: nearest_coefs(alloc, places, c)?,
        constant,
        symbol: None,
    }))
}

fn is_around(places: &[CounterPlace], c: u32) -> bool
    ensures { result ≡ is_around places.now c }
{
    let [p, rest @ ..] = places else {
        return false;
    };
    p.id == c || is_around(rest, c)
}

fn lane_step(places: &[CounterPlace], c: u32) -> u32
    ensures { result ≡ lane_step places.now c }
{
    let [p, rest @ ..] = places else {
        return 0;
    };
    if p.id == c && !is_around(rest, c) {
        p.lane_step
    } else {
        lane_step(rest, c)
    }
}

fn zeros(alloc: Global, places: &[CounterPlace]) -> Result<Vec<i64>, AllocError>
    ensures { IfOk result (λ v. v.items ≡ no_counters places.now) }
{
    vec![in alloc; 0i64; places.len()]
}

fn nearest_coefs(alloc: Global, places: &[CounterPlace], c: u32) -> Result<Vec<i64>, AllocError>
    ensures { IfOk result (λ v. v.items ≡ nearest_coefs places.now c) }
{
    let mut coefs = Vec::with_capacity(alloc, places.len())?;
    for (i, p) in places.iter().enumerate() {
        let is_nearest = p.id == c && !is_around(&places[i + 1..], c);
        coefs.push(i64::from(is_nearest))?;
    }
    Ok(coefs)
}

/// The form of a word that is read from a memory.
pub fn symbol(
    alloc: Global,
    mems: &[CoreMem],
    ops: &[Op],
    places: &[CounterPlace],
    mem: Option<u32>,
) -> Result<Option<Form>, AllocError>
    ensures form { IfOk result (λ r. r ≡ read_form (map plain_mem mems.now) (plain_ops ops.now) places.now mem) }
    ensures counters { IfOk result (λ r. IfSome r (λ f. length f.coefs ≡ length places.now)) }
{
    let Some(m) = mem else {
        return Ok(None);
    };
    if !is_steady(kind_at(mems, m), ops, m) {
        return Ok(None);
    }
    Ok(Some(Form {
        coefs: zeros(alloc, places)?,
        constant: 0,
        symbol: Some(m),
    }))
}

fn kind_at(mems: &[CoreMem], m: u32) -> Kind
    ensures { result ≡ (slice_index_or (map plain_mem mems.now) m no_mem).kind }
{
    match mems.get(m as usize) {
        Some(mem) => mem.kind,
        None => Kind::Reg,
    }
}
