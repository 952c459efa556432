//! The accesses of lists of operations and of transfers, in order.
ghost use Rattle.std.specs.Prelude.{◌≡◌, ◌++◌, ◌+◌, ◌∷◌, [], map, length, IfOk, OnOk};
ghost use Rattle.sp_core.specs.Numbering.{counters_size, spans_size};
ghost use Rattle.sp_core.specs.OperationRules.{is_access};
ghost use Rattle.sp_core.specs.Plain.{plain_op, plain_ops, plain_counter, plain_span};
ghost use Rattle.sp_meets.specs.Plain.{plain_path, plain_target, plain_spot, plain_spots};
ghost use Rattle.sp_meets.specs.Spots.{is_write, operand_places, op_targets, op_spots, list_spots, bounds_spots, spans_spots};

use crate::spot::{Level, Places, Spot, Target, copy_path};
use sp_core::{CoreCounter, CoreSpan, Op, OpKind};
use std::alloc::{AllocError, Global};

/// The accesses so far, and the number of the next operation or transfer.
#[derive(Debug, Drop)]
pub struct Found {
    pub spots: Vec<Spot>,
    pub number: u32,
}

/// One number further.
fn pass(found: &mut Found) -> Result<(), AllocError>
    ensures number { OnOk result (found.new.number ≡ found.old.number + 1) }
    ensures spots { found.new.spots ≡ found.old.spots }
{
    found.number = found.number.checked_add(1).ok_or(AllocError)?;
    Ok(())
}

fn is_access(kind: OpKind) -> bool
    ensures { result ≡ is_access kind }
{
    match kind {
        OpKind::Read => true,
        OpKind::Write => true,
        OpKind::Enq => true,
        OpKind::Deq => true,
        OpKind::Reset => true,
        OpKind::Word(_) => false,
        OpKind::Count(_, _) => false,
        OpKind::Live(_, _, _) => false,
        OpKind::One(_) => false,
        OpKind::Two(_) => false,
        OpKind::Shift(_, _) => false,
        OpKind::Mux => false,
        OpKind::Cast(_) => false,
    }
}

fn is_write(kind: OpKind) -> bool
    ensures { result ≡ is_write kind }
{
    match kind {
        OpKind::Read => false,
        OpKind::Write => true,
        OpKind::Enq => true,
        OpKind::Deq => true,
        OpKind::Reset => true,
        OpKind::Word(_) => true,
        OpKind::Count(_, _) => true,
        OpKind::Live(_, _, _) => true,
        OpKind::One(_) => true,
        OpKind::Two(_) => true,
        OpKind::Shift(_, _) => true,
        OpKind::Mux => true,
        OpKind::Cast(_) => true,
    }
}

fn operand_places(kind: OpKind) -> Places
    ensures { result ≡ operand_places kind }
{
    match kind {
        OpKind::Read => Places::Operands,
        OpKind::Write => Places::Operands,
        OpKind::Enq => Places::Anywhere,
        OpKind::Deq => Places::Anywhere,
        OpKind::Reset => Places::Anywhere,
        OpKind::Word(_) => Places::Anywhere,
        OpKind::Count(_, _) => Places::Anywhere,
        OpKind::Live(_, _, _) => Places::Anywhere,
        OpKind::One(_) => Places::Anywhere,
        OpKind::Two(_) => Places::Anywhere,
        OpKind::Shift(_, _) => Places::Anywhere,
        OpKind::Mux => Places::Anywhere,
        OpKind::Cast(_) => Places::Anywhere,
    }
}

fn op_targets(alloc: Global, kind: OpKind, mem: Option<u32>) -> Result<Vec<Target>, AllocError>
    ensures { IfOk result (λ targets. map plain_target targets.items ≡ op_targets kind mem) }
{
    let mut targets = Vec::new(alloc);
    if let Some(m) = mem {
        targets.push(Target {
            mem: m,
            writes: is_write(kind),
            places: operand_places(kind),
            sizes: Vec::new(alloc),
        })?;
    }
    Ok(targets)
}

fn op_spot(alloc: Global, path: &[Level], number: u32, op: &Op) -> Result<Spot, AllocError>
    ensures { IfOk result (λ s. plain_spot s ≡ record { number = number; path = plain_path path.now; targets = op_targets op.now.kind op.now.mem; spans = []; lengths = 0 }) }
{
    Ok(Spot {
        number,
        path: copy_path(alloc, path)?,
        targets: op_targets(alloc, op.kind, op.mem)?,
        spans: Vec::new(alloc),
        lengths: 0,
    })
}

/// An access more.
pub fn add_spot(found: &mut Found, spot: Spot) -> Result<(), AllocError>
    ensures spots { OnOk result (plain_spots found.new.spots.items ≡ plain_spots found.old.spots.items ++ plain_spot spot ∷ []) }
    ensures number { found.new.number ≡ found.old.number }
{
    found.spots.push(spot)?;
    Ok(())
}

fn add_op(alloc: Global, path: &[Level], op: &Op, found: &mut Found) -> Result<(), AllocError>
    ensures number { OnOk result (found.new.number ≡ found.old.number + 1) }
    ensures spots { OnOk result (plain_spots found.new.spots.items ≡ plain_spots found.old.spots.items ++ op_spots (plain_path path.now) found.old.number (plain_op op.now)) }
{
    if is_access(op.kind) {
        let spot = op_spot(alloc, path, found.number, op)?;
        add_spot(found, spot)?;
    }
    pass(found)
}

/// The accesses of a list.
pub fn add_list(
    alloc: Global,
    path: &[Level],
    ops: &[Op],
    found: &mut Found,
) -> Result<(), AllocError>
    ensures number { OnOk result (found.new.number ≡ found.old.number + length (plain_ops ops.now)) }
    ensures spots { OnOk result (plain_spots found.new.spots.items ≡ plain_spots found.old.spots.items ++ list_spots (plain_path path.now) found.old.number (plain_ops ops.now)) }
{
    let [op, rest @ ..] = ops else {
        return Ok(());
    };
    add_op(alloc, path, op, found)?;
    add_list(alloc, path, rest, found)
}

/// The accesses of the bounds of counters.
pub fn add_bounds(
    alloc: Global,
    path: &[Level],
    counters: &[CoreCounter],
    found: &mut Found,
) -> Result<(), AllocError>
    ensures number { OnOk result (found.new.number ≡ found.old.number + counters_size (map plain_counter counters.now)) }
    ensures spots { OnOk result (plain_spots found.new.spots.items ≡ plain_spots found.old.spots.items ++ bounds_spots (plain_path path.now) found.old.number (map plain_counter counters.now)) }
{
    let [counter, rest @ ..] = counters else {
        return Ok(());
    };
    add_list(alloc, path, &counter.from, found)?;
    add_list(alloc, path, &counter.until, found)?;
    add_bounds(alloc, path, rest, found)
}

fn add_span(
    alloc: Global,
    path: &[Level],
    span: &CoreSpan,
    found: &mut Found,
) -> Result<(), AllocError>
    ensures number { OnOk result (found.new.number ≡ found.old.number + spans_size (plain_span span.now ∷ [])) }
    ensures spots { OnOk result (plain_spots found.new.spots.items ≡ plain_spots found.old.spots.items ++ spans_spots (plain_path path.now) found.old.number (plain_span span.now ∷ [])) }
{
    match span {
        CoreSpan::One(ops) => add_list(alloc, path, ops, found),
        CoreSpan::Range(from, until) => {
            add_list(alloc, path, from, found)?;
            add_list(alloc, path, until, found)
        }
    }
}

/// The accesses of the spans of a slice.
pub fn add_spans(
    alloc: Global,
    path: &[Level],
    spans: &[CoreSpan],
    found: &mut Found,
) -> Result<(), AllocError>
    ensures number { OnOk result (found.new.number ≡ found.old.number + spans_size (map plain_span spans.now)) }
    ensures spots { OnOk result (plain_spots found.new.spots.items ≡ plain_spots found.old.spots.items ++ spans_spots (plain_path path.now) found.old.number (map plain_span spans.now)) }
{
    let [span, rest @ ..] = spans else {
        return Ok(());
    };
    add_span(alloc, path, span, found)?;
    add_spans(alloc, path, rest, found)
}
