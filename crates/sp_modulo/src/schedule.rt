//! The least latency, interval and times of a body.
ghost use Rattle.std.specs.Prelude.{◌≡◌, ◌↔◌, ℕ, List, ◌<◌, ◌≤◌, ◌-◌, ◌*◌, ◌^◌, length, slice_index, map, true, false, IsTrue, IfOk, IfSome, IfNone};
ghost use Rattle.std.specs.List.{All};
ghost use Rattle.sp_modulo.specs.Searching.{IsWithin, IsLeastInterval};
ghost use Rattle.sp_modulo.specs.Times.{IsAmong, IsFitting, Obey, IsNoLater, IsLeast, end_of, in_group, InTime, IsLatency, IsSchedule};

use crate::NoMemory;
use crate::least::least_within;
use crate::order::Order;
use std::alloc::Global;

/// The most cycles that an operation takes.
const LONGEST: u32 = 4;

/// Times of operations, the interval at which groups begin, and when the last operation is over.
#[derive(Debug, Drop)]
pub struct Schedule {
    pub times: Vec<u32>,
    pub interval: u32,
    pub latency: u32,
}

/// The orders within one group.
fn in_group(alloc: Global, orders: &[Order]) -> Result<Vec<Order>, NoMemory>
    ensures { IfOk result (λ kept. kept.items ≡ in_group orders.now) }
{
    let mut kept = Vec::new(alloc);
    for order in orders {
        if order.distance == 0 {
            kept.push(*order)?;
        }
    }
    Ok(kept)
}

/// When the last operation is over.
pub fn end_of(latencies: &[u32], times: &[u32]) -> u32
    requires one_each { length times.now ≡ length latencies.now }
    requires short { All (λ l. l ≤ LONGEST) latencies.now }
    requires early { All (λ t. t ≤ 2 ^ 31) times.now }
    ensures { result ≡ end_of latencies.now times.now }
{
    let mut end = 0;
    for (i, latency) in latencies.iter().enumerate() {
        end = end.max(times[i] + *latency);
    }
    end
}

/// How late each operation may be, so that all is over by then.
fn limits(alloc: Global, latencies: &[u32], end: u32) -> Result<Vec<u32>, NoMemory>
    ensures { IfOk result (λ limits. limits.items ≡ map (λ l. end - l) latencies.now) }
{
    let mut limits = Vec::new(alloc);
    for latency in latencies {
        limits.push(end.saturating_sub(*latency))?;
    }
    Ok(limits)
}

/// The least times by which orders within one group are obeyed.
fn least_in_group(
    alloc: Global,
    count: usize,
    orders: &[Order],
) -> Result<Option<Vec<u32>>, NoMemory>
    requires among { All (IsAmong count) orders.now }
    requires few { count ≤ 2 ^ 29 }
    requires gaps { All (λ o. o.gap ≤ LONGEST) orders.now }
    ensures least { IfOk result (λ found. IfSome found (λ times. IsLeast count orders.now 0 times.items)) }
    ensures early { IfOk result (λ found. IfSome found (λ times. All (λ t. t ≤ 2 ^ 31) times.items)) }
    ensures none { IfOk result (λ found. IfNone found ((times : List ℕ) → ¬ Obey count orders.now 0 times)) }
{
    let limits = vec![in alloc; count as u32 * LONGEST; count]?;
    least_within(alloc, &limits, orders, 0)
}

/// Whether there are times within limits at an interval.
fn is_possible(
    alloc: Global,
    limits: &[u32],
    orders: &[Order],
    interval: u32,
) -> Result<bool, NoMemory>
    requires among { All (IsAmong (length limits.now)) orders.now }
    ensures yes { IfOk result (λ possible. possible ≡ true → (times : List ℕ) × IsWithin limits.now orders.now interval times) }
    ensures no { IfOk result (λ possible. possible ≡ false → (times : List ℕ) → ¬ IsWithin limits.now orders.now interval times) }
{
    match least_within(alloc, limits, orders, interval)? {
        Some(_) => Ok(true),
        None => Ok(false),
    }
}

/// The least interval at which there are times within limits, and the least of these times; there are some at the most.
fn least_interval(
    alloc: Global,
    limits: &[u32],
    orders: &[Order],
    most: u32,
) -> Result<(Vec<u32>, u32), NoMemory>
    requires among { All (IsAmong (length limits.now)) orders.now }
    requires some { 1 ≤ most }
    requires possible { (times : List ℕ) × IsWithin limits.now orders.now most times }
    ensures some { IfOk result (λ found. 1 ≤ found.1) }
    ensures interval { IfOk result (λ found. IsLeastInterval limits.now orders.now found.1) }
    ensures times { IfOk result (λ found. IsLeast (length limits.now) orders.now found.1 found.0.items) }
    ensures within { IfOk result (λ found. IsNoLater found.0.items limits.now) }
{
    let mut low = 1;
    let mut high = most;
    while low < high {
        let middle = low + (high - low) / 2;
        if is_possible(alloc, limits, orders, middle)? {
            high = middle;
        } else {
            low = middle + 1;
        }
    }
    match least_within(alloc, limits, orders, low)? {
        Some(times) => Ok((times, low)),
        None => unreachable!(),
    }
}

/// The least interval and times by which all is over by a latency.
fn fit(
    alloc: Global,
    latencies: &[u32],
    orders: &[Order],
    latency: u32,
) -> Result<Schedule, NoMemory>
    requires among { All (IsAmong (length latencies.now)) orders.now }
    requires gaps { All (λ o. o.gap ≤ slice_index latencies.now o.first) orders.now }
    requires latency { IsLatency latencies.now orders.now latency }
    ensures schedule { IfOk result (λ s. IsSchedule latencies.now orders.now s.latency s.interval s.times.items) }
{
    let limits = limits(alloc, latencies, latency)?;
    let (times, interval) = least_interval(alloc, &limits, orders, latency.max(1))?;
    Ok(Schedule {
        times,
        interval,
        latency,
    })
}

fn is_fitting(latencies: &[u32], order: Order) -> bool
    ensures { IsTrue result ↔ IsFitting latencies.now order }
{
    let (first, second) = (order.first as usize, order.second as usize);
    first < latencies.len() && second < latencies.len() && order.gap <= latencies[first]
}

/// Whether each order is one of two of these operations, with a gap of no more than the first one's latency.
pub fn are_fitting(latencies: &[u32], orders: &[Order]) -> bool
    ensures { IsTrue result ↔ All (IsFitting latencies.now) orders.now }
{
    orders.iter().all(|o| is_fitting(latencies, *o))
}

/// The least latency of operations by the orders within one group, for it the least interval by all orders, and for both
/// the least times. None where no times obey the orders within one group.
///
/// An operation takes up to 4 cycles. `are_fitting` tests the orders.
pub fn least_schedule(
    alloc: Global,
    latencies: &[u32],
    orders: &[Order],
) -> Result<Option<Schedule>, NoMemory>
    requires few { length latencies.now ≤ 2 ^ 29 }
    requires short { All (λ l. l ≤ LONGEST) latencies.now }
    requires fitting { All (IsFitting latencies.now) orders.now }
    ensures schedule { IfOk result (λ found. IfSome found (λ s. IsSchedule latencies.now orders.now s.latency s.interval s.times.items)) }
    ensures over { IfOk result (λ found. IfSome found (λ s. end_of latencies.now s.times.items ≡ s.latency)) }
    ensures none { IfOk result (λ found. IfNone found ((times : List ℕ) → ¬ Obey (length latencies.now) (in_group orders.now) 0 times)) }
{
    let grouped = in_group(alloc, orders)?;
    match least_in_group(alloc, latencies.len(), &grouped)? {
        Some(first) => {
            let latency = end_of(latencies, &first);
            Ok(Some(fit(alloc, latencies, orders, latency)?))
        }
        None => Ok(None),
    }
}
