//! Stages of operations alone: runs of statements, and words that are computed early.
ghost use Rattle.std.specs.Prelude.{◌≡◌, ◌∷◌, List, map, IfOk, OnOk};
ghost use Rattle.sp_core.specs.Plain.{plain_node, plain_ops};
ghost use Rattle.sp_core.specs.PlainCore.{PlainStages, more_stage};
ghost use Rattle.sp_tree.specs.Plain.{plain_expr, plain_mem};
ghost use Rattle.sp_tree.specs.PlainExpression.{PlainExpr};
ghost use Rattle.sp_tree.specs.PlainTree.{plain_counter, plain_ctl, plain_span, plain_stmt_kind};
ghost use Rattle.sp_sugar.specs.Early.{bounds_of, stage_of, bound_stages, slice_stage, early_stages};
ghost use Rattle.sp_sugar.specs.Runs.{no_run};
ghost use Rattle.sp_sugar.specs.Stages.{run_stage};
ghost use Rattle.sp_desugar.specs.Crossings.{onto};
ghost use Rattle.sp_operations.specs.Running.{run_of};
ghost use Rattle.sp_operations.specs.Sources.{sources_of};

use crate::NoMemory;
use crate::early::{Crossing, is_early, is_early_slice, push_into, push_slice};
use sp_core::{Node, Op, Stage};
use sp_operations::{Run, Source};
use sp_tree::{Counter, Ctl, Expr, MemDecl, Span, StmtKind};
use std::alloc::{AllocError, Global};
use std::mem;

/// Appends a node as a stage.
#[tactic(auto, using(crate::proofs::StageLemmas::onto_more))]
pub(crate) fn push_stage(out: &mut Vec<Stage>, comb: bool, node: Node) -> Result<(), NoMemory>
    ensures { OnOk result ((rest : PlainStages) → onto out.new.items rest ≡ onto out.old.items (more_stage 0 0 comb (plain_node node) rest)) }
{
    out.push(Stage {
        first: 0,
        last: 0,
        comb,
        node,
    })?;
    Ok(())
}

/// Appends a stage with these operations.
pub(crate) fn push_ops_stage(
    alloc: Global,
    out: &mut Vec<Stage>,
    ops: Vec<Op>,
) -> Result<(), NoMemory>
    ensures { OnOk result ((rest : PlainStages) → onto out.new.items rest ≡ onto out.old.items (stage_of (plain_ops ops.items) rest)) }
{
    let node = Node::Inner {
        counters: Vec::new(alloc),
        owned: Vec::new(alloc),
        ops,
        comb: None,
    };
    push_stage(out, false, node)
}

/// Appends a run, where it has an operation.
pub(crate) fn push_run(alloc: Global, out: &mut Vec<Stage>, ops: Vec<Op>) -> Result<(), NoMemory>
    ensures { OnOk result ((rest : PlainStages) → onto out.new.items rest ≡ onto out.old.items (run_stage (plain_ops ops.items) rest)) }
{
    let [_first, _others @ ..] = ops.as_slice() else {
        return Ok(());
    };
    push_ops_stage(alloc, out, ops)
}

/// Appends a run as a stage, where it has an operation, and begins the next one.
pub(crate) fn end_run(alloc: Global, out: &mut Vec<Stage>, run: &mut Run) -> Result<(), NoMemory>
    ensures stages { OnOk result ((rest : PlainStages) → onto out.new.items rest ≡ onto out.old.items (run_stage (run_of run.old).ops rest)) }
    ensures run { OnOk result (run_of run.new ≡ no_run (run_of run.old).values.elsewhere) }
{
    run.here = Vec::from_slice(alloc, &run.elsewhere)?;
    let ops = mem::replace(&mut run.ops, Vec::new(alloc));
    push_run(alloc, out, ops)?;
    Ok(())
}

/// Appends the stage of a bound, where it is computed early, and tells the first number after that of its register.
fn push_bound_stage(
    alloc: Global,
    out: &mut Vec<Stage>,
    mems: &[MemDecl],
    sources: &[Source],
    r: u32,
    e: &Expr,
) -> Result<u32, NoMemory>
    ensures { IfOk result (λ next. (es : List PlainExpr) (rest : PlainStages) → onto out.new.items (bound_stages (map plain_mem mems.now) (sources_of sources.now) next es rest) ≡ onto out.old.items (bound_stages (map plain_mem mems.now) (sources_of sources.now) r (plain_expr e.now ∷ es) rest)) }
{
    if !is_early(e) {
        return Ok(r);
    }
    let mut ops = Vec::new(alloc);
    push_into(alloc, &mut ops, mems, sources, r, e)?;
    push_ops_stage(alloc, out, ops)?;
    r.checked_add(1).ok_or(AllocError)
}

/// Appends the stages of the bounds of counters.
fn push_bound_stages(
    alloc: Global,
    out: &mut Vec<Stage>,
    mems: &[MemDecl],
    sources: &[Source],
    r: u32,
    counters: &[Counter],
) -> Result<(), NoMemory>
    ensures { OnOk result ((rest : PlainStages) → onto out.new.items rest ≡ onto out.old.items (bound_stages (map plain_mem mems.now) (sources_of sources.now) r (bounds_of (map plain_counter counters.now)) rest)) }
{
    let [counter, others @ ..] = counters else {
        return Ok(());
    };
    let second = push_bound_stage(alloc, out, mems, sources, r, &counter.from)?;
    let next = push_bound_stage(alloc, out, mems, sources, second, &counter.until)?;
    push_bound_stages(alloc, out, mems, sources, next, others)?;
    Ok(())
}

/// Appends the stage before a transfer.
fn push_slice_stage(
    alloc: Global,
    out: &mut Vec<Stage>,
    mems: &[MemDecl],
    sources: &[Source],
    r: u32,
    spans: &[Span],
) -> Result<(), NoMemory>
    ensures { OnOk result ((rest : PlainStages) → onto out.new.items rest ≡ onto out.old.items (slice_stage (map plain_mem mems.now) (sources_of sources.now) r (map plain_span spans.now) rest)) }
{
    if !is_early_slice(spans) {
        return Ok(());
    }
    let mut ops = Vec::new(alloc);
    push_slice(
        alloc,
        &mut ops,
        mems,
        sources,
        Crossing::Part(true),
        r,
        spans,
    )?;
    push_ops_stage(alloc, out, ops)?;
    Ok(())
}

/// Appends the early stages of a controller.
fn push_early_ctl(
    alloc: Global,
    out: &mut Vec<Stage>,
    mems: &[MemDecl],
    sources: &[Source],
    r: u32,
    ctl: &Ctl,
) -> Result<(), NoMemory>
    ensures { OnOk result ((rest : PlainStages) → onto out.new.items rest ≡ onto out.old.items (early_stages (map plain_mem mems.now) (sources_of sources.now) r (plain_ctl ctl.now) rest)) }
{
    match ctl {
        Ctl::Block { .. } => Ok(()),
        Ctl::Foreach { counters, .. } => {
            push_bound_stages(alloc, out, mems, sources, r, counters)?;
            Ok(())
        }
        Ctl::Reduce { counters, .. } => {
            push_bound_stages(alloc, out, mems, sources, r, counters)?;
            Ok(())
        }
        Ctl::MemReduce { counters, .. } => {
            push_bound_stages(alloc, out, mems, sources, r, counters)?;
            Ok(())
        }
        Ctl::Fsm { .. } => Ok(()),
        Ctl::Branch { .. } => Ok(()),
    }
}

/// Appends the early stages of a statement.
pub(crate) fn push_early(
    alloc: Global,
    out: &mut Vec<Stage>,
    mems: &[MemDecl],
    sources: &[Source],
    r: u32,
    kind: &StmtKind,
) -> Result<(), NoMemory>
    ensures { OnOk result ((rest : PlainStages) → onto out.new.items rest ≡ onto out.old.items (early_stages (map plain_mem mems.now) (sources_of sources.now) r (plain_stmt_kind kind.now) rest)) }
{
    match kind {
        StmtKind::Declare(_) => Ok(()),
        StmtKind::Let(_, _) => Ok(()),
        StmtKind::SetReg(_, _) => Ok(()),
        StmtKind::SetOut(_, _) => Ok(()),
        StmtKind::SetSram(_, _, _) => Ok(()),
        StmtKind::Enq(_, _) => Ok(()),
        StmtKind::LoadSram(_, _, spans) => push_slice_stage(alloc, out, mems, sources, r, spans),
        StmtKind::LoadLine(_, _, spans) => push_slice_stage(alloc, out, mems, sources, r, spans),
        StmtKind::Store(_, spans, _) => push_slice_stage(alloc, out, mems, sources, r, spans),
        StmtKind::Gather(_, _, _, count) => {
            let _next = push_bound_stage(alloc, out, mems, sources, r, count)?;
            Ok(())
        }
        StmtKind::Scatter(_, _, count, _) => {
            let _next = push_bound_stage(alloc, out, mems, sources, r, count)?;
            Ok(())
        }
        StmtKind::Control(ctl) => {
            push_early_ctl(alloc, out, mems, sources, r, ctl)?;
            Ok(())
        }
    }
}
