//! Whether the times of an inner body are right.

ghost use Rattle.std.specs.Prelude.{◌≡◌, ◌<◌, ◌≤◌, ◌^◌, ◌&&◌, ◌||◌, map, length, slice_index};
ghost use Rattle.std.specs.List.{flat_map, list_all};
ghost use Rattle.sp_core.specs.CoreParts.{plain_core};
ghost use Rattle.sp_core.specs.Elements.{numbers_below};
ghost use Rattle.sp_core.specs.Plain.{plain_op};
ghost use Rattle.sp_modulo.specs.Times.{end_of};
ghost use Rattle.sp_plan.specs.Bodies.{is_kept, latencies, are_in_turn, keep_orders, are_times_right};
ghost use Rattle.sp_plan.specs.Orders.{use_order, use_orders, mask_orders, meet_orders, port_orders, all_port_orders};
ghost use Rattle.sp_plan.specs.Ports.{is_serial};
ghost use Rattle.sp_plan.specs.Plain.{schemes_in};

use crate::operations::{latency, share_port};
use crate::orders::{is_in_body, meet_order, order, use_order};
use crate::plan::MemPlan;
use sp_core::{Core, Meet, Op};
use sp_modulo::Order;

/// The time at a place; 0 where there is none.
fn time_at(times: &[u32], i: u32) -> u32
    ensures { result ≡ slice_index times.now i }
{
    match times.get(i as usize) {
        Some(time) => *time,
        None => 0,
    }
}

/// Whether times keep an order at an interval.
fn is_kept(times: &[u32], ii: u32, order: Order) -> bool
    ensures { result ≡ is_kept ii times.now order }
{
    let earliest = order.earliest(time_at(times, order.first), ii);
    earliest <= u64::from(time_at(times, order.second))
}

/// Whether they keep the orders of an operation and of those that it uses.
fn keep_uses(core: &Core, ops: &[Op], times: &[u32], ii: u32, j: u32) -> bool
    requires { j < length ops.now }
    ensures { result ≡ list_all (is_kept ii times.now) (use_orders (plain_core core.now) (map plain_op ops.now) j) }
{
    let op = &ops[j as usize];
    keep_args(core, ops, times, ii, j, &op.args) && keep_mask(core, ops, times, ii, j, op.mask)
}

fn keep_args(core: &Core, ops: &[Op], times: &[u32], ii: u32, j: u32, args: &[u32]) -> bool
    ensures { result ≡ list_all (is_kept ii times.now) (map (use_order (plain_core core.now) (map plain_op ops.now) j) args.now) }
{
    for arg in args {
        if !is_kept(times, ii, use_order(core, ops, j, *arg)) {
            return false;
        }
    }
    true
}

fn keep_mask(core: &Core, ops: &[Op], times: &[u32], ii: u32, j: u32, mask: Option<u32>) -> bool
    ensures { result ≡ list_all (is_kept ii times.now) (mask_orders (plain_core core.now) (map plain_op ops.now) j mask) }
{
    match mask {
        None => true,
        Some(mask) => is_kept(times, ii, use_order(core, ops, j, mask)),
    }
}

/// Whether they keep the order of two accesses that may meet.
fn keep_meet(core: &Core, ops: &[Op], number: u32, times: &[u32], ii: u32, meet: Meet) -> bool
    ensures { result ≡ list_all (is_kept ii times.now) (meet_orders (plain_core core.now) (map plain_op ops.now) number meet) }
{
    if is_in_body(ops, number, meet.first) && is_in_body(ops, number, meet.second) {
        is_kept(times, ii, meet_order(core, ops, number, meet))
    } else {
        true
    }
}

fn keep_meets(core: &Core, ops: &[Op], number: u32, times: &[u32], ii: u32, meets: &[Meet]) -> bool
    ensures { result ≡ list_all (is_kept ii times.now) (flat_map (meet_orders (plain_core core.now) (map plain_op ops.now) number) meets.now) }
{
    for meet in meets {
        if !keep_meet(core, ops, number, times, ii, *meet) {
            return false;
        }
    }
    true
}

/// Whether the plan of a memory has no scheme.
fn is_serial(mems: &[MemPlan], m: Option<u32>) -> bool
    ensures { result ≡ is_serial (schemes_in mems.now) m }
{
    match m {
        None => true,
        Some(m) => match mems.get(m as usize) {
            Some(mem) => mem.scheme.is_none(),
            None => true,
        },
    }
}

/// Whether times keep the orders of two accesses to one port.
fn keep_port(
    core: &Core,
    mems: &[MemPlan],
    ops: &[Op],
    times: &[u32],
    ii: u32,
    j: u32,
    i: u32,
) -> bool
    requires i { i < length ops.now }
    requires j { j < length ops.now }
    ensures { result ≡ list_all (is_kept ii times.now) (port_orders (plain_core core.now) (map plain_op ops.now) (schemes_in mems.now) j i) }
{
    let first = &ops[i as usize];
    if share_port(core, first, &ops[j as usize]) {
        if is_serial(mems, first.mem) {
            is_kept(times, ii, order(i, j, 1, 0)) && is_kept(times, ii, order(j, i, 1, 1))
        } else {
            is_kept(times, ii, order(i, j, 0, 0)) && is_kept(times, ii, order(j, i, 0, 0))
        }
    } else {
        true
    }
}

/// Whether they keep those of an access and of those before it to its port.
fn keep_ports(core: &Core, mems: &[MemPlan], ops: &[Op], times: &[u32], ii: u32, j: u32) -> bool
    requires { j < length ops.now }
    ensures { result ≡ list_all (is_kept ii times.now) (all_port_orders (plain_core core.now) (map plain_op ops.now) (schemes_in mems.now) j) }
{
    let mut kept = true;
    for i in 0..j {
        kept = kept && keep_port(core, mems, ops, times, ii, j, i);
    }
    kept
}

fn keep_all_uses(core: &Core, ops: &[Op], times: &[u32], ii: u32) -> bool
    requires { length ops.now ≤ 2 ^ 29 }
    ensures { result ≡ list_all (is_kept ii times.now) (flat_map (use_orders (plain_core core.now) (map plain_op ops.now)) (numbers_below (length ops.now))) }
{
    let mut kept = true;
    for j in 0..ops.len() as u32 {
        kept = kept && keep_uses(core, ops, times, ii, j);
    }
    kept
}

fn keep_all_ports(core: &Core, mems: &[MemPlan], ops: &[Op], times: &[u32], ii: u32) -> bool
    requires { length ops.now ≤ 2 ^ 29 }
    ensures { result ≡ list_all (is_kept ii times.now) (flat_map (all_port_orders (plain_core core.now) (map plain_op ops.now) (schemes_in mems.now)) (numbers_below (length ops.now))) }
{
    let mut kept = true;
    for j in 0..ops.len() as u32 {
        kept = kept && keep_ports(core, mems, ops, times, ii, j);
    }
    kept
}

/// Whether they keep all orders of a body whose first operation has a number.
fn keep_orders(
    core: &Core,
    mems: &[MemPlan],
    ops: &[Op],
    number: u32,
    meets: &[Meet],
    times: &[u32],
    ii: u32,
) -> bool
    requires { length ops.now ≤ 2 ^ 29 }
    ensures { result ≡ keep_orders (plain_core core.now) (schemes_in mems.now) meets.now number (map plain_op ops.now) times.now ii }
{
    keep_all_uses(core, ops, times, ii)
        && (keep_meets(core, ops, number, times, ii, meets)
            && keep_all_ports(core, mems, ops, times, ii))
}

/// Whether each operation begins when the one before is over.
fn are_in_turn(core: &Core, ops: &[Op], times: &[u32]) -> bool
    requires { length ops.now ≤ 2 ^ 29 }
    ensures { result ≡ are_in_turn (plain_core core.now) 0 (map plain_op ops.now) times.now }
{
    if ops.len() != times.len() {
        return false;
    }
    let mut begin = 0;
    for (i, op) in ops.iter().enumerate() {
        if times[i] != begin {
            return false;
        }
        begin += latency(core, op);
    }
    true
}

/// When the last operation is over.
fn end_of(core: &Core, ops: &[Op], times: &[u32]) -> u64
    ensures { result ≡ end_of (latencies (plain_core core.now) (map plain_op ops.now)) times.now }
{
    let mut end = 0;
    for (i, op) in ops.iter().enumerate() {
        if i >= times.len() {
            return end;
        }
        end = end.max(u64::from(times[i]) + u64::from(latency(core, op)));
    }
    end
}

/// Whether the times of a body are right: the interval is at least 1, the latency is when the last operation is over, and
/// the operations keep their orders, or are done one after the other in a serial body.
pub fn are_times_right(
    core: &Core,
    mems: &[MemPlan],
    meets: &[Meet],
    number: u32,
    streamed: bool,
    ops: &[Op],
    times: &[u32],
    ii: u32,
    latency: u32,
    serial: bool,
) -> bool
    requires { length ops.now ≤ 2 ^ 29 }
    ensures { result ≡ are_times_right (plain_core core.now) (schemes_in mems.now) meets.now number streamed (map plain_op ops.now) times.now ii latency serial }
{
    (1 <= ii && u64::from(latency) == end_of(core, ops, times))
        && (if serial {
            are_in_turn(core, ops, times) && latency <= ii
        } else {
            !streamed && keep_orders(core, mems, ops, number, meets, times, ii)
        })
}
