//! The least plan of one body.

ghost use Rattle.std.specs.Prelude.{◌≡◌, ◌≤◌, ◌^◌, map, max, true, false, IsTrue, length, IfOk};
ghost use Rattle.std.specs.List.{All};
ghost use Rattle.sp_core.specs.CoreParts.{plain_core};
ghost use Rattle.sp_core.specs.Plain.{plain_op};
ghost use Rattle.sp_modulo.specs.Times.{end_of, IsFitting};
ghost use Rattle.sp_plan.specs.Bodies.{latencies, are_in_turn};
ghost use Rattle.sp_plan.specs.Orders.{body_orders};
ghost use Rattle.sp_plan.specs.Plain.{plain_node_plan};
ghost use Rattle.sp_sched.specs.Least.{IsPlanInTurn, IsLeastBody};

use crate::NoMemory;
use crate::orders::body_orders;
use sp_bank::Scheme;
use sp_core::{Core, Meet, Op};
use sp_modulo::{end_of, least_schedule};
use sp_plan::{NodePlan, latency};
use std::alloc::Global;

/// The cycles of each operation.
fn latencies(alloc: Global, core: &Core, ops: &[Op]) -> Result<Vec<u32>, NoMemory>
    ensures cycles { IfOk result (λ cycles. cycles.items ≡ latencies (plain_core core.now) (map plain_op ops.now)) }
    ensures few { IfOk result (λ cycles. All (λ l. l ≤ 4) cycles.items) }
{
    let mut cycles = Vec::new(alloc);
    for op in ops {
        cycles.push(latency(core, op))?;
    }
    Ok(cycles)
}

/// Times at which each operation begins when the one before is over.
fn times_in_turn(alloc: Global, core: &Core, ops: &[Op]) -> Result<Vec<u32>, NoMemory>
    requires { length ops.now ≤ 2 ^ 29 }
    ensures in_turn { IfOk result (λ times. IsTrue (are_in_turn (plain_core core.now) 0 (map plain_op ops.now) times.items)) }
    ensures one_each { IfOk result (λ times. length times.items ≡ length ops.now) }
    ensures early { IfOk result (λ times. All (λ t. t ≤ 2 ^ 31) times.items) }
{
    let mut times = Vec::new(alloc);
    let mut time = 0;
    for op in ops {
        times.push(time)?;
        time += latency(core, op);
    }
    Ok(times)
}

/// The plan by which operations are done one after the other.
fn plan_in_turn(alloc: Global, core: &Core, ops: &[Op]) -> Result<NodePlan, NoMemory>
    requires { length ops.now ≤ 2 ^ 29 }
    ensures { IfOk result (λ plan. IsPlanInTurn (plain_core core.now) (map plain_op ops.now) (plain_node_plan plan)) }
{
    let times = times_in_turn(alloc, core, ops)?;
    let cycles = latencies(alloc, core, ops)?;
    let latency = end_of(&cycles, &times);
    Ok(NodePlan::Inner {
        times,
        ii: latency.max(1),
        latency,
        serial: true,
    })
}

/// The least plan of a body whose first operation has a number.
pub(crate) fn plan_body(
    alloc: Global,
    core: &Core,
    ops: &[Op],
    number: u32,
    streamed: bool,
    meets: &[Meet],
    schemes: &[Option<Scheme>],
) -> Result<NodePlan, NoMemory>
    requires few { length ops.now ≤ 2 ^ 29 }
    requires fitting { All (IsFitting (latencies (plain_core core.now) (map plain_op ops.now))) (body_orders (plain_core core.now) (map plain_op ops.now) schemes.now number meets.now) }
    ensures { IfOk result (λ plan. IsLeastBody (plain_core core.now) schemes.now meets.now number streamed (map plain_op ops.now) (plain_node_plan plan)) }
{
    if streamed {
        return plan_in_turn(alloc, core, ops);
    }
    let cycles = latencies(alloc, core, ops)?;
    let orders = body_orders(alloc, core, ops, number, meets, schemes)?;
    match least_schedule(alloc, &cycles, &orders)? {
        Some(s) => Ok(NodePlan::Inner {
            times: s.times,
            ii: s.interval,
            latency: s.latency,
            serial: false,
        }),
        None => plan_in_turn(alloc, core, ops),
    }
}
