//! The bank of an element and its place there.
ghost use Rattle.std.specs.Prelude.{◌≡◌, ℕ, ◌+◌, ◌*◌, ◌/◌, ◌%◌, ◌^◌, ◌<◌, [], length, All, slice_index, IfOk, OnOk};
ghost use Rattle.std.specs.List.{remove};
ghost use Rattle.sp_bank.specs.Banking.{period};
ghost use Rattle.sp_bank.specs.Places.{weighted, IsInside, row_major, periods, bank as bank_number, offset};
ghost use Rattle.sp_netlist.specs.Draft.{Draft};
ghost use Rattle.sp_netlist.specs.Signals.{Signals};
ghost use Rattle.sp_gates.specs.Grows.{Fills};
ghost use Rattle.sp_gates.specs.Nets.{HasNet};
ghost use Rattle.sp_gates.specs.Runs.{RunsOn};
ghost use Rattle.sp_places.specs.Layouts.{IsLayout, IsSpot, banking_of, words_at, HasPlaces};

use crate::layout::{Layout, Spot};
use crate::numbers::{narrow, over, rest, sum, times};
use crate::sums::{row_number, weighted_sum, widen_all};
use sp_gates::constant;
use sp_netlist::{Builder, NetId, NoMemory};
use std::alloc::Global;

/// The row-major number of the indices other than the hinge's.
fn lead(builder: &mut Builder, layout: &Layout, wide: &[NetId]) -> Result<NetId, NoMemory>
    requires layout { IsLayout layout.now }
    requires each { length wide.now ≡ length layout.now.dims.items }
    requires nets { All (λ net. HasNet builder.old net 64) wide.now }
    ensures fills { OnOk result (Fills builder.old builder.new []) }
    ensures net { IfOk result (λ net. HasNet builder.new net 64) }
    ensures word { IfOk result (λ net. (s : Signals) → RunsOn s builder.new.cells → (t : ℕ) → IsInside layout.now.dims.items (words_at s t wide.now)
        → s.net t net % 2 ^ 64 ≡ row_major (remove layout.now.dims.items layout.now.hinge) (remove (words_at s t wide.now) layout.now.hinge) % 2 ^ 64) }
{
    let hinge = layout.hinge as usize;
    let zero = constant(builder, 64, 0)?;
    let before = row_number(builder, zero, &layout.dims[..hinge], &wide[..hinge])?;
    let number = row_number(
        builder,
        before,
        &layout.dims[hinge + 1..],
        &wide[hinge + 1..],
    )?;
    Ok(number)
}

/// The row of its bank in which an element stands.
fn row(builder: &mut Builder, layout: &Layout, wide: &[NetId]) -> Result<NetId, NoMemory>
    requires layout { IsLayout layout.now }
    requires each { length wide.now ≡ length layout.now.dims.items }
    requires nets { All (λ net. HasNet builder.old net 64) wide.now }
    ensures fills { OnOk result (Fills builder.old builder.new []) }
    ensures net { IfOk result (λ net. HasNet builder.new net 64) }
    ensures word { IfOk result (λ net. (s : Signals) → RunsOn s builder.new.cells → (t : ℕ) → IsInside layout.now.dims.items (words_at s t wide.now)
        → s.net t net ≡ (row_major (remove layout.now.dims.items layout.now.hinge) (remove (words_at s t wide.now) layout.now.hinge) * periods (banking_of layout.now) layout.now.dims.items
        + slice_index (words_at s t wide.now) layout.now.hinge / period (banking_of layout.now)) % 2 ^ 64) }
{
    let number = lead(builder, layout, wide)?;
    let hinge = layout.hinge as usize;
    let period = u64::from(layout.banks) * u64::from(layout.block);
    let periods = u64::from(layout.dims[hinge]).div_ceil(period);
    let rows = times(builder, number, periods)?;
    let at = over(builder, wide[hinge], period)?;
    let net = sum(builder, rows, at)?;
    Ok(net)
}

/// The place of an element in its bank. `weighed` has its indices times their weights, summed.
fn place(
    builder: &mut Builder,
    layout: &Layout,
    wide: &[NetId],
    weighed: NetId,
) -> Result<NetId, NoMemory>
    requires layout { IsLayout layout.now }
    requires each { length wide.now ≡ length layout.now.dims.items }
    requires nets { All (λ net. HasNet builder.old net 64) wide.now }
    requires weighed { HasNet builder.old weighed 64 }
    requires weights { HasPlaces builder.old layout.now wide.now weighed }
    ensures fills { OnOk result (Fills builder.old builder.new []) }
    ensures net { IfOk result (λ net. HasNet builder.new net 32) }
    ensures word { IfOk result (λ net. (s : Signals) → RunsOn s builder.new.cells → (t : ℕ) → IsInside layout.now.dims.items (words_at s t wide.now) → s.net t net ≡ offset (banking_of layout.now) layout.now.dims.items (words_at s t wide.now)) }
{
    let row = row(builder, layout, wide)?;
    let block = u64::from(layout.block);
    let rows = times(builder, row, block)?;
    let low = rest(builder, weighed, block)?;
    let place = sum(builder, rows, low)?;
    let net = narrow(builder, place)?;
    Ok(net)
}

/// The bank of an element. `weighed` has its indices times their weights, summed.
fn bank(
    builder: &mut Builder,
    layout: &Layout,
    wide: &[NetId],
    weighed: NetId,
) -> Result<NetId, NoMemory>
    requires layout { IsLayout layout.now }
    requires weighed { HasNet builder.old weighed 64 }
    requires weights { HasPlaces builder.old layout.now wide.now weighed }
    ensures fills { OnOk result (Fills builder.old builder.new []) }
    ensures net { IfOk result (λ net. HasNet builder.new net 32) }
    ensures word { IfOk result (λ net. (s : Signals) → RunsOn s builder.new.cells → (t : ℕ) → IsInside layout.now.dims.items (words_at s t wide.now) → s.net t net ≡ bank_number (banking_of layout.now) (words_at s t wide.now)) }
{
    let _all = wide;
    let line = over(builder, weighed, u64::from(layout.block))?;
    let bank = rest(builder, line, u64::from(layout.banks))?;
    let net = narrow(builder, bank)?;
    Ok(net)
}

/// Nets with the bank of an element and its place there, from nets with its indices.
pub fn locate(
    alloc: Global,
    builder: &mut Builder,
    layout: &Layout,
    index: &[NetId],
) -> Result<Spot, NoMemory>
    requires layout { IsLayout layout.now }
    requires each { length index.now ≡ length layout.now.dims.items }
    requires index { All (λ net. HasNet builder.old net 32) index.now }
    ensures fills { OnOk result (Fills builder.old builder.new []) }
    ensures spot { IfOk result (IsSpot builder.new layout.now index.now) }
{
    let wide = widen_all(alloc, builder, index)?;
    let weighed = weighted_sum(builder, &layout.alpha, &wide)?;
    let bank = bank(builder, layout, &wide, weighed)?;
    let place = place(builder, layout, &wide, weighed)?;
    Ok(Spot { bank, place })
}
