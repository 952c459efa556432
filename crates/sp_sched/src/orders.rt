//! The orders of the operations of a body.

ghost use Rattle.std.specs.Prelude.{◌≡◌, ◌-◌, ◌<◌, ◌≤◌, ◌^◌, ◌++◌, map, length, nat_lt, nat_le, ◌&&◌, OnOk, IfOk};
ghost use Rattle.std.specs.List.{flat_map};
ghost use Rattle.sp_core.specs.CoreParts.{plain_core};
ghost use Rattle.sp_core.specs.Elements.{numbers_below};
ghost use Rattle.sp_core.specs.Latency.{latency};
ghost use Rattle.sp_core.specs.Plain.{plain_op};
ghost use Rattle.sp_plan.specs.Orders.{order, op_at, use_order, use_orders, change_gap, is_in_body, meet_order, meet_orders, port_orders, all_port_orders, body_orders};

use crate::NoMemory;
use sp_bank::Scheme;
use sp_core::{Core, Meet, Op};
use sp_modulo::Order;
use sp_plan::{is_in_body, is_serial, meet_order, order, share_port, use_order};
use std::alloc::Global;

/// The orders of an operation and of those that it uses.
fn push_uses(core: &Core, ops: &[Op], j: u32, into: &mut Vec<Order>) -> Result<(), NoMemory>
    requires { j < length ops.now }
    ensures { OnOk result (into.new.items ≡ into.old.items ++ use_orders (plain_core core.now) (map plain_op ops.now) j) }
{
    let op = &ops[j as usize];
    for arg in &op.args {
        into.push(use_order(core, ops, j, *arg))?;
    }
    if let Some(mask) = op.mask {
        into.push(use_order(core, ops, j, mask))?;
    }
    Ok(())
}

/// The orders of the accesses of the body that may meet.
fn push_meets(
    core: &Core,
    ops: &[Op],
    number: u32,
    meets: &[Meet],
    into: &mut Vec<Order>,
) -> Result<(), NoMemory>
    ensures { OnOk result (into.new.items ≡ into.old.items ++ flat_map (meet_orders (plain_core core.now) (map plain_op ops.now) number) meets.now) }
{
    for meet in meets {
        if is_in_body(ops, number, meet.first) && is_in_body(ops, number, meet.second) {
            into.push(meet_order(core, ops, number, *meet))?;
        }
    }
    Ok(())
}

/// The orders of two accesses to one port.
fn push_port(
    core: &Core,
    ops: &[Op],
    schemes: &[Option<Scheme>],
    j: u32,
    i: u32,
    into: &mut Vec<Order>,
) -> Result<(), NoMemory>
    requires i { i < length ops.now }
    requires j { j < length ops.now }
    ensures { OnOk result (into.new.items ≡ into.old.items ++ port_orders (plain_core core.now) (map plain_op ops.now) schemes.now j i) }
{
    let first = &ops[i as usize];
    if share_port(core, first, &ops[j as usize]) {
        if is_serial(schemes, first.mem) {
            into.push(order(i, j, 1, 0))?;
            into.push(order(j, i, 1, 1))?;
        } else {
            into.push(order(i, j, 0, 0))?;
            into.push(order(j, i, 0, 0))?;
        }
    }
    Ok(())
}

/// The orders of an access and of those before it to its port.
fn push_ports(
    core: &Core,
    ops: &[Op],
    schemes: &[Option<Scheme>],
    j: u32,
    into: &mut Vec<Order>,
) -> Result<(), NoMemory>
    requires { j < length ops.now }
    ensures { OnOk result (into.new.items ≡ into.old.items ++ all_port_orders (plain_core core.now) (map plain_op ops.now) schemes.now j) }
{
    for i in 0..j {
        push_port(core, ops, schemes, j, i, into)?;
    }
    Ok(())
}

fn push_all_uses(core: &Core, ops: &[Op], into: &mut Vec<Order>) -> Result<(), NoMemory>
    requires { length ops.now ≤ 2 ^ 29 }
    ensures { OnOk result (into.new.items ≡ into.old.items ++ flat_map (use_orders (plain_core core.now) (map plain_op ops.now)) (numbers_below (length ops.now))) }
{
    for j in 0..ops.len() as u32 {
        push_uses(core, ops, j, into)?;
    }
    Ok(())
}

fn push_all_ports(
    core: &Core,
    ops: &[Op],
    schemes: &[Option<Scheme>],
    into: &mut Vec<Order>,
) -> Result<(), NoMemory>
    requires { length ops.now ≤ 2 ^ 29 }
    ensures { OnOk result (into.new.items ≡ into.old.items ++ flat_map (all_port_orders (plain_core core.now) (map plain_op ops.now) schemes.now) (numbers_below (length ops.now))) }
{
    for j in 0..ops.len() as u32 {
        push_ports(core, ops, schemes, j, into)?;
    }
    Ok(())
}

/// The orders of the operations of a body whose first operation has a number.
pub(crate) fn body_orders(
    alloc: Global,
    core: &Core,
    ops: &[Op],
    number: u32,
    meets: &[Meet],
    schemes: &[Option<Scheme>],
) -> Result<Vec<Order>, NoMemory>
    requires { length ops.now ≤ 2 ^ 29 }
    ensures { IfOk result (λ orders. orders.items ≡ body_orders (plain_core core.now) (map plain_op ops.now) schemes.now number meets.now) }
{
    let mut orders = Vec::new(alloc);
    push_all_uses(core, ops, &mut orders)?;
    push_meets(core, ops, number, meets, &mut orders)?;
    push_all_ports(core, ops, schemes, &mut orders)?;
    Ok(orders)
}
