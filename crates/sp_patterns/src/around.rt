//! The counters around a list, and their ranges.
ghost use Rattle.std.specs.Prelude.{◌≡◌, ◌≤◌, ◌-ℤ◌, ◌++◌, length, map, pos, int_lt, if◌then◌else◌, IfOk, IfSome, OnOk, Some, None};
ghost use Rattle.sp_core.specs.Plain.{plain_ops, plain_counter, plain_mem};
ghost use Rattle.sp_patterns.specs.Ranges.{plain_around, nothing_around, word_form, fits_int, constant_of, range_between, range_of, places_in, inside};

use crate::combine::is_constant;
use crate::forms::forms_of;
use crate::place::CounterPlace;
use sp_affine::Form;
use sp_core::{CoreCounter, CoreMem, Op};
use std::alloc::{AllocError, Global};

/// The counters of the controllers around, outermost first, and the least and the greatest value of each, where both are
/// known.
#[derive(Debug, Drop)]
pub struct Around {
    pub places: Vec<CounterPlace>,
    pub ranges: Vec<Option<(i32, i32)>>,
}

// A core has at most 1,000 counters around a node.
const MOST_COUNTERS: usize = 1024;

/// Around a whole core there is nothing.
pub fn nothing_around(alloc: Global) -> Around
    ensures around { plain_around result ≡ nothing_around }
    ensures few { length result.ranges.items ≤ 1024 }
{
    Around {
        places: Vec::new(alloc),
        ranges: Vec::new(alloc),
    }
}

/// The form of the word that a list gives, over these counters.
pub fn word_form(
    alloc: Global,
    mems: &[CoreMem],
    places: &[CounterPlace],
    ops: &[Op],
) -> Result<Option<Form>, AllocError>
    ensures { IfOk result (λ r. r ≡ word_form (map plain_mem mems.now) places.now (plain_ops ops.now)) }
{
    let mut forms = forms_of(alloc, mems, ops, None, places)?;
    match forms.pop() {
        Some(last) => Ok(last),
        None => Ok(None),
    }
}

fn narrow(z: &i64) -> Option<i32>
    ensures { result ≡ (if fits_int z.now then Some z.now else None) }
{
    i32::try_from(*z).ok()
}

fn constant_of(form: Option<Form>) -> Option<i32>
    ensures { result ≡ constant_of form }
{
    let f = form?;
    if is_constant(&f) {
        narrow(&f.constant)
    } else {
        None
    }
}

fn range_between(from: Option<i32>, until: Option<i32>) -> Option<(i32, i32)>
    ensures { result ≡ range_between from until }
{
    let a = from?;
    let b = until?;
    Some((a, if a < b { b - 1 } else { a }))
}

fn range_of(
    alloc: Global,
    mems: &[CoreMem],
    places: &[CounterPlace],
    counter: &CoreCounter,
) -> Result<Option<(i32, i32)>, AllocError>
    ensures { IfOk result (λ r. r ≡ range_of (map plain_mem mems.now) places.now (plain_counter counter.now)) }
{
    let from = word_form(alloc, mems, places, &counter.from)?;
    let until = word_form(alloc, mems, places, &counter.until)?;
    Ok(range_between(constant_of(from), constant_of(until)))
}

fn add_places(places: &mut Vec<CounterPlace>, counters: &[CoreCounter]) -> Result<(), AllocError>
    ensures { OnOk result (places.new.items ≡ places.old.items ++ places_in (map plain_counter counters.now)) }
{
    let [c, rest @ ..] = counters else {
        return Ok(());
    };
    let lane_step = if rest.is_empty() { c.by } else { 0 };
    places.push(CounterPlace {
        id: c.id,
        lane_step,
    })?;
    add_places(places, rest)
}

fn add_ranges(
    alloc: Global,
    mems: &[CoreMem],
    places: &[CounterPlace],
    ranges: &mut Vec<Option<(i32, i32)>>,
    counters: &[CoreCounter],
) -> Result<(), AllocError>
    ensures { OnOk result (ranges.new.items ≡ ranges.old.items ++ map (range_of (map plain_mem mems.now) places.now) (map plain_counter counters.now)) }
{
    for counter in counters {
        let range = range_of(alloc, mems, places, counter)?;
        ranges.push(range)?;
    }
    Ok(())
}

/// What stands around inside of a controller with these counters.
pub fn inside(
    alloc: Global,
    mems: &[CoreMem],
    around: &Around,
    counters: &[CoreCounter],
) -> Result<Around, AllocError>
    ensures around { IfOk result (λ r. plain_around r ≡ inside (map plain_mem mems.now) (plain_around around.now) (map plain_counter counters.now)) }
    ensures few { IfOk result (λ r. length r.ranges.items ≤ 1024) }
{
    let mut places = Vec::from_slice(alloc, &around.places)?;
    add_places(&mut places, counters)?;
    let mut ranges = Vec::from_slice(alloc, &around.ranges)?;
    add_ranges(alloc, mems, &around.places, &mut ranges, counters)?;
    if ranges.len() > MOST_COUNTERS {
        return Err(AllocError);
    }
    Ok(Around { places, ranges })
}
