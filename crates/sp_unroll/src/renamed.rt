//! Operations, counters and slices, by what names stand for in a lane.

ghost use Rattle.std.specs.Prelude.{◌≡◌, ℕ, List, map, IfOk};
ghost use Rattle.std.specs.Option.{option_map};
ghost use Rattle.sp_core.specs.Plain.{plain_op, plain_ops, plain_counter, plain_span};
ghost use Rattle.sp_lanes.specs.Within.{kind_in, op_in, ops_in, counter_in, counters_in, span_in, spans_in};
ghost use Rattle.sp_unroll.specs.Entries.{number_in, within_of};

use crate::NoMemory;
use crate::within::Within;
use sp_core::{CoreCounter, CoreSpan, Op, OpKind};
use std::alloc::Global;

fn kind_in(w: &Within, kind: OpKind) -> OpKind
    ensures { (order : List ℕ) → result ≡ kind_in (within_of order w.now) kind }
{
    match kind {
        OpKind::Count(c, _) => OpKind::Count(c, w.lane(c)),
        OpKind::Live(c, _, _) => OpKind::Live(c, w.lane(c), w.lane(c)),
        _ => kind,
    }
}

/// The memory that an operation names, if it names one.
pub(crate) fn mem_in(order: &[u32], w: &Within, mem: Option<u32>) -> Result<Option<u32>, NoMemory>
    ensures { IfOk result (λ m. m ≡ option_map (number_in order.now w.now.names.items) mem) }
{
    match mem {
        None => Ok(None),
        Some(m) => Ok(Some(w.number(order, m)?)),
    }
}

pub(crate) fn op_in(alloc: Global, order: &[u32], w: &Within, op: &Op) -> Result<Op, NoMemory>
    ensures { IfOk result (λ made. plain_op made ≡ op_in (within_of order.now w.now) (plain_op op.now)) }
{
    Ok(Op {
        kind: kind_in(w, op.kind),
        ty: op.ty,
        args: Vec::from_slice(alloc, &op.args)?,
        mem: mem_in(order, w, op.mem)?,
        mask: op.mask,
    })
}

pub(crate) fn ops_in(
    alloc: Global,
    order: &[u32],
    w: &Within,
    ops: &[Op],
) -> Result<Vec<Op>, NoMemory>
    ensures { IfOk result (λ made. plain_ops made.items ≡ ops_in (within_of order.now w.now) (plain_ops ops.now)) }
{
    let mut made = Vec::new(alloc);
    for op in ops {
        made.push(op_in(alloc, order, w, op)?)?;
    }
    Ok(made)
}

fn counter_in(
    alloc: Global,
    order: &[u32],
    w: &Within,
    counter: &CoreCounter,
) -> Result<CoreCounter, NoMemory>
    ensures { IfOk result (λ made. plain_counter made ≡ counter_in (within_of order.now w.now) (plain_counter counter.now)) }
{
    Ok(CoreCounter {
        id: counter.id,
        from: ops_in(alloc, order, w, &counter.from)?,
        until: ops_in(alloc, order, w, &counter.until)?,
        by: counter.by,
        par: counter.par,
    })
}

pub(crate) fn counters_in(
    alloc: Global,
    order: &[u32],
    w: &Within,
    counters: &[CoreCounter],
) -> Result<Vec<CoreCounter>, NoMemory>
    ensures { IfOk result (λ made. map plain_counter made.items ≡ counters_in (within_of order.now w.now) (map plain_counter counters.now)) }
{
    let mut made = Vec::new(alloc);
    for counter in counters {
        made.push(counter_in(alloc, order, w, counter)?)?;
    }
    Ok(made)
}

fn span_in(alloc: Global, order: &[u32], w: &Within, span: &CoreSpan) -> Result<CoreSpan, NoMemory>
    ensures { IfOk result (λ made. plain_span made ≡ span_in (within_of order.now w.now) (plain_span span.now)) }
{
    match span {
        CoreSpan::One(ops) => Ok(CoreSpan::One(ops_in(alloc, order, w, ops)?)),
        CoreSpan::Range(from, until) => {
            let from = ops_in(alloc, order, w, from)?;
            let until = ops_in(alloc, order, w, until)?;
            Ok(CoreSpan::Range(from, until))
        }
    }
}

pub(crate) fn spans_in(
    alloc: Global,
    order: &[u32],
    w: &Within,
    spans: &[CoreSpan],
) -> Result<Vec<CoreSpan>, NoMemory>
    ensures { IfOk result (λ made. map plain_span made.items ≡ spans_in (within_of order.now w.now) (map plain_span spans.now)) }
{
    let mut made = Vec::new(alloc);
    for span in spans {
        made.push(span_in(alloc, order, w, span)?)?;
    }
    Ok(made)
}

/// The numbers of memories.
pub(crate) fn numbers_in(
    alloc: Global,
    order: &[u32],
    w: &Within,
    mems: &[u32],
) -> Result<Vec<u32>, NoMemory>
    ensures { IfOk result (λ numbers. numbers.items ≡ map (number_in order.now w.now.names.items) mems.now) }
{
    let mut numbers = Vec::new(alloc);
    for m in mems {
        numbers.push(w.number(order, *m)?)?;
    }
    Ok(numbers)
}
