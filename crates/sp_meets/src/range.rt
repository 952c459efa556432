//! The counters of controllers, with their ranges where they are known.
ghost use Rattle.std.specs.Prelude.{◌≡◌, ◌++◌, pos, map, if◌then◌else◌, None, Some, IfOk, OnOk};
ghost use Rattle.std.specs.List.{list_all};
ghost use Rattle.std.specs.Ordering.{int_eq};
ghost use Rattle.sp_core.specs.Plain.{plain_ops, plain_counter, plain_mem};
ghost use Rattle.sp_patterns.specs.Forms.{is_constant};
ghost use Rattle.sp_patterns.specs.Ranges.{fits_int, constant_of, word_form, range_between, places_in};
ghost use Rattle.sp_meets.specs.Around.{loop_of};

use sp_affine::Form;
use sp_core::{CoreCounter, CoreMem, Op};
use sp_deps::LoopRange;
use sp_patterns::{CounterPlace, forms_of};
use std::alloc::{AllocError, Global};

fn is_constant(f: &Form) -> bool
    ensures { result ≡ is_constant f.now }
{
    are_zero(&f.coefs) && f.symbol.is_none()
}

fn are_zero(coefs: &[i64]) -> bool
    ensures { result ≡ list_all (int_eq (pos 0)) coefs.now }
{
    let [c, rest @ ..] = coefs else {
        return true;
    };
    *c == 0 && are_zero(rest)
}

fn narrow(z: &i64) -> Option<i32>
    ensures { result ≡ (if fits_int z.now then Some z.now else None) }
{
    i32::try_from(*z).ok()
}

fn constant_of(form: Option<Form>) -> Option<i32>
    ensures { result ≡ constant_of form }
{
    let f = form?;
    if is_constant(&f) {
        narrow(&f.constant)
    } else {
        None
    }
}

fn word_form(
    alloc: Global,
    mems: &[CoreMem],
    places: &[CounterPlace],
    ops: &[Op],
) -> Result<Option<Form>, AllocError>
    ensures { IfOk result (λ r. r ≡ word_form (map plain_mem mems.now) places.now (plain_ops ops.now)) }
{
    let mut forms = forms_of(alloc, mems, ops, None, places)?;
    match forms.pop() {
        Some(last) => Ok(last),
        None => Ok(None),
    }
}

fn range_between(from: Option<i32>, until: Option<i32>) -> Option<(i64, i64)>
    ensures { result ≡ range_between from until }
{
    let a = i64::from(from?);
    let b = i64::from(until?);
    Some((a, if a < b { b - 1 } else { a }))
}

fn loop_of(
    alloc: Global,
    mems: &[CoreMem],
    places: &[CounterPlace],
    counter: &CoreCounter,
) -> Result<LoopRange, AllocError>
    ensures { IfOk result (λ l. l ≡ loop_of (map plain_mem mems.now) places.now (plain_counter counter.now)) }
{
    let from = word_form(alloc, mems, places, &counter.from)?;
    let until = word_form(alloc, mems, places, &counter.until)?;
    Ok(LoopRange {
        from: range_between(constant_of(from), constant_of(until)),
        by: counter.by,
        par: counter.par,
    })
}

fn add_loops(
    alloc: Global,
    mems: &[CoreMem],
    places: &[CounterPlace],
    counters: &[CoreCounter],
    loops: &mut Vec<LoopRange>,
) -> Result<(), AllocError>
    ensures { OnOk result (loops.new.items ≡ loops.old.items ++ map (loop_of (map plain_mem mems.now) places.now) (map plain_counter counters.now)) }
{
    let [counter, rest @ ..] = counters else {
        return Ok(());
    };
    loops.push(loop_of(alloc, mems, places, counter)?)?;
    add_loops(alloc, mems, places, rest, loops)
}

/// The counters of a controller, over those around it.
pub fn loops_of(
    alloc: Global,
    mems: &[CoreMem],
    places: &[CounterPlace],
    counters: &[CoreCounter],
) -> Result<Vec<LoopRange>, AllocError>
    ensures { IfOk result (λ loops. loops.items ≡ map (loop_of (map plain_mem mems.now) places.now) (map plain_counter counters.now)) }
{
    let mut loops = Vec::new(alloc);
    add_loops(alloc, mems, places, counters, &mut loops)?;
    Ok(loops)
}

fn add_places(places: &mut Vec<CounterPlace>, counters: &[CoreCounter]) -> Result<(), AllocError>
    ensures { OnOk result (places.new.items ≡ places.old.items ++ places_in (map plain_counter counters.now)) }
{
    let [c, rest @ ..] = counters else {
        return Ok(());
    };
    let lane_step = if rest.is_empty() { c.by } else { 0 };
    places.push(CounterPlace {
        id: c.id,
        lane_step,
    })?;
    add_places(places, rest)
}

/// The counters around inside of a controller.
pub fn places_inside(
    alloc: Global,
    places: &[CounterPlace],
    counters: &[CoreCounter],
) -> Result<Vec<CounterPlace>, AllocError>
    ensures { IfOk result (λ p. p.items ≡ places.now ++ places_in (map plain_counter counters.now)) }
{
    let mut within = Vec::from_slice(alloc, places)?;
    add_places(&mut within, counters)?;
    Ok(within)
}
