//! The orders of single operations of a body, by their places.

ghost use Rattle.std.specs.Prelude.{◌≡◌, ◌-◌, ◌≤◌, map, length, nat_lt, nat_le, ◌&&◌};
ghost use Rattle.sp_core.specs.CoreParts.{plain_core};
ghost use Rattle.sp_core.specs.Latency.{latency};
ghost use Rattle.sp_core.specs.Plain.{plain_op};
ghost use Rattle.sp_plan.specs.Orders.{order, op_at, use_order, change_gap, meet_order};

use crate::operations::{is_change, latency};
use sp_core::{Core, Meet, Op};
use sp_modulo::Order;

/// The cycles of the operation at a place; 0 where there is none.
pub fn latency_at(core: &Core, ops: &[Op], i: u32) -> u32
    ensures { result ≡ latency (plain_core core.now) (op_at (plain_core core.now) (map plain_op ops.now) i) }
{
    match ops.get(i as usize) {
        Some(op) => latency(core, op),
        None => 0,
    }
}

/// A use comes when the word is there.
pub fn use_order(core: &Core, ops: &[Op], user: u32, used: u32) -> Order
    ensures { result ≡ use_order (plain_core core.now) (map plain_op ops.now) user used }
{
    Order {
        first: used,
        second: user,
        gap: latency_at(core, ops, used),
        distance: 0,
    }
}

/// Whether a number is that of an operation of the body.
pub fn is_in_body(ops: &[Op], number: u32, n: u32) -> bool
    ensures { result ≡ (nat_le number n && nat_lt (n - number) (length (map plain_op ops.now))) }
{
    number <= n && ((n - number) as usize) < ops.len()
}

/// How long after an access what it changes is there.
pub fn gap_at(core: &Core, ops: &[Op], i: u32) -> u32
    ensures { result ≡ change_gap (plain_core core.now) (map plain_op ops.now) 0 (op_at (plain_core core.now) (map plain_op ops.now) i) }
{
    let _core = core;
    match ops.get(i as usize) {
        Some(op) => u32::from(is_change(op.kind)),
        None => 0,
    }
}

/// The order of two accesses of the body that may meet; a least distance of 0 is 1 for one that doesn't stand before the
/// other.
pub fn meet_order(core: &Core, ops: &[Op], number: u32, meet: Meet) -> Order
    requires first { number ≤ meet.first }
    requires second { number ≤ meet.second }
    ensures { result ≡ meet_order (plain_core core.now) (map plain_op ops.now) number meet }
{
    let first = meet.first - number;
    let least = if meet.least == 0 && meet.second <= meet.first {
        1
    } else {
        meet.least
    };
    Order {
        first,
        second: meet.second - number,
        gap: gap_at(core, ops, first),
        distance: least,
    }
}

pub fn order(first: u32, second: u32, gap: u32, distance: u64) -> Order
    ensures { result ≡ order first second gap distance }
{
    Order {
        first,
        second,
        gap,
        distance,
    }
}
