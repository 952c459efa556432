//! The least times by which orders are obeyed.
ghost use Rattle.std.specs.Prelude.{◌≡◌, ℕ, List, ◌<◌, ◌≤◌, length, sum, true, false, IfOk, IfSome, IfNone};
ghost use Rattle.std.specs.List.{All};
ghost use Rattle.sp_modulo.specs.Times.{IsAmong, IsObeyed, Obey, IsNoLater, IsLeast};

use crate::NoMemory;
use crate::order::Order;
use std::alloc::Global;

/// What a look at orders did to times.
#[derive(Clone, Copy, Debug, PartialEq, Eq)]
pub enum Step {
    /// All were obeyed.
    Same,
    /// Some time was raised.
    Raised,
    /// Some time would pass its limit.
    Late,
}

/// Raises the time of an order's second operation as far as the order asks.
fn raise(times: &mut [u32], limits: &[u32], order: Order, interval: u32) -> Step
    requires among { IsAmong (length times.old) order }
    requires one_each { length limits.now ≡ length times.old }
    ensures same { result ≡ Step.Same → (times.new ≡ times.old) × IsObeyed interval times.new order }
    ensures raised { result ≡ Step.Raised → sum times.old < sum times.new }
    ensures within { IsNoLater times.old limits.now → IsNoLater times.new limits.now }
    ensures under { (others : List ℕ) → IsObeyed interval others order → IsNoLater times.old others → IsNoLater times.new others }
    ensures late { result ≡ Step.Late → (others : List ℕ) → IsObeyed interval others order → IsNoLater times.old others → IsNoLater others limits.now → ⊥ }
{
    let earliest = order.earliest(times[order.first as usize], interval);
    let second = order.second as usize;
    if earliest <= u64::from(times[second]) {
        return Step::Same;
    }
    if earliest > u64::from(limits[second]) {
        return Step::Late;
    }
    times[second] = earliest as u32;
    Step::Raised
}

/// Raises times as each of the orders asks, one order after the other.
fn raise_all(times: &mut [u32], limits: &[u32], orders: &[Order], interval: u32) -> Step
    requires among { All (IsAmong (length times.old)) orders.now }
    requires one_each { length limits.now ≡ length times.old }
    ensures same { result ≡ Step.Same → (times.new ≡ times.old) × All (IsObeyed interval times.new) orders.now }
    ensures raised { result ≡ Step.Raised → sum times.old < sum times.new }
    ensures within { IsNoLater times.old limits.now → IsNoLater times.new limits.now }
    ensures under { (others : List ℕ) → All (IsObeyed interval others) orders.now → IsNoLater times.old others → IsNoLater times.new others }
    ensures late { result ≡ Step.Late → (others : List ℕ) → All (IsObeyed interval others) orders.now → IsNoLater times.old others → IsNoLater others limits.now → ⊥ }
{
    let mut step = Step::Same;
    for order in orders {
        match raise(times, limits, *order, interval) {
            Step::Same => {}
            Step::Raised => step = Step::Raised,
            Step::Late => return Step::Late,
        }
    }
    step
}

/// Raises times as the orders ask, until all are obeyed. False where some time would pass its limit.
fn settle(times: &mut [u32], limits: &[u32], orders: &[Order], interval: u32) -> bool
    requires among { All (IsAmong (length times.old)) orders.now }
    requires one_each { length limits.now ≡ length times.old }
    requires within { IsNoLater times.old limits.now }
    ensures obeyed { result ≡ true → All (IsObeyed interval times.new) orders.now }
    ensures within { IsNoLater times.new limits.now }
    ensures under { (others : List ℕ) → All (IsObeyed interval others) orders.now → IsNoLater times.old others → IsNoLater times.new others }
    ensures late { result ≡ false → (others : List ℕ) → All (IsObeyed interval others) orders.now → IsNoLater times.old others → IsNoLater others limits.now → ⊥ }
{
    loop {
        match raise_all(times, limits, orders, interval) {
            Step::Same => return true,
            Step::Raised => {}
            Step::Late => return false,
        }
    }
}

/// The least times by which the orders are obeyed, if none of them passes its limit; with limits for as many operations.
pub fn least_within(
    alloc: Global,
    limits: &[u32],
    orders: &[Order],
    interval: u32,
) -> Result<Option<Vec<u32>>, NoMemory>
    requires among { All (IsAmong (length limits.now)) orders.now }
    ensures least { IfOk result (λ found. IfSome found (λ times. IsLeast (length limits.now) orders.now interval times.items)) }
    ensures within { IfOk result (λ found. IfSome found (λ times. IsNoLater times.items limits.now)) }
    ensures none { IfOk result (λ found. IfNone found ((others : List ℕ) → Obey (length limits.now) orders.now interval others → IsNoLater others limits.now → ⊥)) }
{
    let mut times = vec![in alloc; 0; limits.len()]?;
    if settle(&mut times, limits, orders, interval) {
        Ok(Some(times))
    } else {
        Ok(None)
    }
}
