//! The registers that the compiler adds, by the statements that need them.
ghost use Rattle.std.specs.Prelude.{◌≡◌, ◌++◌, ◌∷◌, [], map, if◌then◌else◌, IfOk, OnOk};
ghost use Rattle.sp_core.specs.Plain as core;
ghost use Rattle.sp_tree.specs.Plain.{plain_expr};
ghost use Rattle.sp_tree.specs.PlainTree.{plain_counter, plain_ctl, plain_span, plain_stmt_kind, plain_stmts};
ghost use Rattle.sp_tree.specs.PlainStatement.{PlainStmts, name};
ghost use Rattle.sp_tree.specs.Structure.{lanes_of};
ghost use Rattle.sp_sugar.specs.Numbers.{begun_register};
ghost use Rattle.sp_sugar.specs.Uses as plain;
ghost use Rattle.sp_sugar.specs.Early.{bounds_of, is_early, is_early_part, parts_of, registers_for};
ghost use Rattle.sp_sugar.specs.Registers.{ending_of, beside, at_end};
ghost use Rattle.sp_desugar.specs.Crossings.{crosses_of};
ghost use Rattle.sp_desugar.specs.Names.{plain_ending};

use crate::NoMemory;
use crate::early::{Crossing, crosses, is_early_slice};
use crate::uses::{Ending, does_cross, is_bare};
use sp_core::CoreMem;
use sp_operations::{begun_register, crossing_register};
use sp_tree::{Counter, Ctl, Expr, Span, Stmt, StmtKind};
use sp_words::Ty;
use std::alloc::{AllocError, Global};

/// Appends the register of a word, if it crosses.
fn push_register(
    alloc: Global,
    out: &mut Vec<CoreMem>,
    crossing: Crossing,
    e: &Expr,
) -> Result<(), NoMemory>
    ensures { OnOk result (map core.plain_mem out.new.items ≡ map core.plain_mem out.old.items ++ registers_for (crosses_of crossing) (plain_expr e.now ∷ [])) }
{
    if crosses(crossing, e) {
        out.push(crossing_register(alloc, Ty::int())?)?;
    }
    Ok(())
}

/// Appends those of the bounds of counters.
fn push_bound_registers(
    alloc: Global,
    out: &mut Vec<CoreMem>,
    counters: &[Counter],
) -> Result<(), NoMemory>
    ensures { OnOk result (map core.plain_mem out.new.items ≡ map core.plain_mem out.old.items ++ registers_for is_early (bounds_of (map plain_counter counters.now))) }
{
    for counter in counters {
        push_register(alloc, out, Crossing::Bound, &counter.from)?;
        push_register(alloc, out, Crossing::Bound, &counter.until)?;
    }
    Ok(())
}

/// Appends those of the parts of a span.
fn push_span_registers(
    alloc: Global,
    out: &mut Vec<CoreMem>,
    crossing: Crossing,
    span: &Span,
) -> Result<(), NoMemory>
    ensures { OnOk result (map core.plain_mem out.new.items ≡ map core.plain_mem out.old.items ++ registers_for (crosses_of crossing) (parts_of (plain_span span.now ∷ []))) }
{
    match span {
        Span::One(e) => push_register(alloc, out, crossing, e),
        Span::Range(from, until, _) => {
            push_register(alloc, out, crossing, from)?;
            push_register(alloc, out, crossing, until)?;
            Ok(())
        }
    }
}

/// Appends those of the parts of spans.
fn push_part_registers(
    alloc: Global,
    out: &mut Vec<CoreMem>,
    crossing: Crossing,
    spans: &[Span],
) -> Result<(), NoMemory>
    ensures { OnOk result (map core.plain_mem out.new.items ≡ map core.plain_mem out.old.items ++ registers_for (crosses_of crossing) (parts_of (map plain_span spans.now))) }
{
    for span in spans {
        push_span_registers(alloc, out, crossing, span)?;
    }
    Ok(())
}

/// Appends those of the parts of a slice.
fn push_slice_registers(
    alloc: Global,
    out: &mut Vec<CoreMem>,
    spans: &[Span],
) -> Result<(), NoMemory>
    ensures { OnOk result (map core.plain_mem out.new.items ≡ map core.plain_mem out.old.items ++ registers_for (is_early_part (map plain_span spans.now)) (parts_of (map plain_span spans.now))) }
{
    let early = is_early_slice(spans);
    push_part_registers(alloc, out, Crossing::Part(early), spans)?;
    Ok(())
}

/// The register of a value, if it crosses.
fn push_value_register(
    alloc: Global,
    out: &mut Vec<CoreMem>,
    v: u32,
    e: &Expr,
    rest: &[Stmt],
    ending: Ending<'_>,
) -> Result<(), NoMemory>
    ensures { OnOk result (map core.plain_mem out.new.items ≡ map core.plain_mem out.old.items ++ beside (name v (plain_expr e.now)) (plain_stmts rest.now) (plain_ending ending.entry)) }
{
    if is_bare(e) {
        return Ok(());
    }
    if does_cross(alloc, v, rest, ending)? {
        out.push(crossing_register(alloc, e.ty)?)?;
    }
    Ok(())
}

/// Appends whether an accumulator has begun, unless it goes on with the word that it holds.
fn push_begun(alloc: Global, out: &mut Vec<CoreMem>, fold: bool) -> Result<(), NoMemory>
    ensures { OnOk result (map core.plain_mem out.new.items ≡ map core.plain_mem out.old.items ++ (if fold then [] else begun_register ∷ [])) }
{
    if !fold {
        out.push(begun_register(alloc)?)?;
    }
    Ok(())
}

/// Appends those beside a controller.
fn push_beside_ctl(alloc: Global, out: &mut Vec<CoreMem>, ctl: &Ctl) -> Result<(), NoMemory>
    ensures { OnOk result ((rest : PlainStmts) (ending : plain.Ending) → map core.plain_mem out.new.items ≡ map core.plain_mem out.old.items ++ beside (plain_ctl ctl.now) rest ending) }
{
    match ctl {
        Ctl::Block { .. } => Ok(()),
        Ctl::Foreach { counters, .. } => {
            push_bound_registers(alloc, out, counters)?;
            Ok(())
        }
        Ctl::Reduce { fold, counters, .. } => {
            push_bound_registers(alloc, out, counters)?;
            push_begun(alloc, out, *fold)?;
            Ok(())
        }
        Ctl::MemReduce { counters, .. } => {
            push_bound_registers(alloc, out, counters)?;
            push_begun(alloc, out, false)?;
            Ok(())
        }
        Ctl::Fsm { .. } => Ok(()),
        Ctl::Branch { .. } => Ok(()),
    }
}

/// Appends those that the body around a statement owns, by what comes after it.
pub(crate) fn push_beside(
    alloc: Global,
    out: &mut Vec<CoreMem>,
    kind: &StmtKind,
    rest: &[Stmt],
    ending: Ending<'_>,
) -> Result<(), NoMemory>
    ensures { OnOk result (map core.plain_mem out.new.items ≡ map core.plain_mem out.old.items ++ beside (plain_stmt_kind kind.now) (plain_stmts rest.now) (plain_ending ending.entry)) }
{
    match kind {
        StmtKind::Declare(_) => Ok(()),
        StmtKind::Let(v, e) => push_value_register(alloc, out, v.number(), e, rest, ending),
        StmtKind::SetReg(_, _) => Ok(()),
        StmtKind::SetOut(_, _) => Ok(()),
        StmtKind::SetSram(_, _, _) => Ok(()),
        StmtKind::Enq(_, _) => Ok(()),
        StmtKind::LoadSram(_, _, spans) => push_slice_registers(alloc, out, spans),
        StmtKind::LoadLine(_, _, spans) => push_slice_registers(alloc, out, spans),
        StmtKind::Store(_, spans, _) => push_slice_registers(alloc, out, spans),
        StmtKind::Gather(_, _, _, count) => push_register(alloc, out, Crossing::Bound, count),
        StmtKind::Scatter(_, _, count, _) => push_register(alloc, out, Crossing::Bound, count),
        StmtKind::Control(ctl) => {
            push_beside_ctl(alloc, out, ctl)?;
            Ok(())
        }
    }
}

/// Appends that of a word that is computed in the last run of a body.
pub(crate) fn push_at_end(
    alloc: Global,
    out: &mut Vec<CoreMem>,
    ending: Ending<'_>,
) -> Result<(), NoMemory>
    ensures { OnOk result (map core.plain_mem out.new.items ≡ map core.plain_mem out.old.items ++ at_end (plain_ending ending.entry)) }
{
    match ending {
        Ending::NoMore => Ok(()),
        Ending::InLastRun(e) => {
            out.push(crossing_register(alloc, e.ty)?)?;
            Ok(())
        }
        Ending::InCombination(_) => Ok(()),
    }
}

/// The lanes of a controller.
fn lanes_of(counters: &[Counter]) -> Result<u32, NoMemory>
    ensures { IfOk result (λ n. n ≡ lanes_of (map plain_counter counters.now)) }
{
    let [counter, rest @ ..] = counters else {
        return Ok(1);
    };
    let others = lanes_of(rest)?;
    counter.par.checked_mul(others).ok_or(AllocError)
}

/// Where the word of a loop that combines words is computed.
pub(crate) fn ending_of<'a>(counters: &[Counter], e: &'a Expr) -> Result<Ending<'a>, NoMemory>
    ensures { IfOk result (λ ending. plain_ending ending ≡ ending_of (map plain_counter counters.now) (plain_expr e.now)) }
{
    if is_bare(e) || lanes_of(counters)? == 1 {
        return Ok(Ending::InCombination(e));
    }
    Ok(Ending::InLastRun(e))
}
