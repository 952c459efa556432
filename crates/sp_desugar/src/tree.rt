//! Bodies and nodes.
ghost use Rattle.std.specs.Prelude.{◌≡◌, ◌++◌, ℕ, map, length, false, IfOk, OnOk};
ghost use Rattle.sp_core.specs.Plain as core;
ghost use Rattle.sp_core.specs.PlainCore.{PlainStages, more_stage};
ghost use Rattle.sp_tree.specs.Plain.{plain_mem};
ghost use Rattle.sp_tree.specs.PlainStatement.{stmt, more_stmt};
ghost use Rattle.sp_tree.specs.PlainTree.{plain_ctl, plain_stmt_kind, plain_stmts};
ghost use Rattle.sp_sugar.specs.Early.{early_stages};
ghost use Rattle.sp_sugar.specs.Registers.{beside, inside, at_end, registers, registers_in, owned_registers};
ghost use Rattle.sp_sugar.specs.Numbers.{numbers_from};
ghost use Rattle.sp_sugar.specs.Runs.{no_run};
ghost use Rattle.sp_sugar.specs.Uses.{no_more};
ghost use Rattle.sp_sugar.specs.Stages as plain;
ghost use Rattle.sp_sugar.specs.Stages.{run_stage, outer_node, body_node, last_stages, stages, node};
ghost use Rattle.sp_operations.specs.Running.{run_of};
ghost use Rattle.sp_operations.specs.Sources.{sources_of};
ghost use Rattle.sp_desugar.specs.Crossings.{onto};
ghost use Rattle.sp_desugar.specs.Names.{plain_ending};
ghost use Rattle.sp_desugar.specs.Tree.{plain_combines, alone_node};

use crate::NoMemory;
use crate::combines::{Combines, combined_by, inner_node, is_inner, push_own};
use crate::last::push_last;
use crate::nodes::{branch_node, fsm_node, loops_of, no_node, style_of, with_state};
use crate::owned::{after_bounds, first_added, own_at_end, own_beside, push_state};
use crate::registers::ending_of;
use crate::stages::{end_run, push_early, push_stage};
use crate::transfers::{load_node, places_node, store_node};
use crate::uses::{Ending, is_primitive};
use sp_core::{CoreCounter, CoreMem, Node, SparseKind, Stage};
use sp_operations::{Run, Source, add_stmt, mem_number, no_run};
use sp_tree::{Ctl, MemDecl, Stmt, StmtKind};
use sp_words::Style;
use std::alloc::Global;

/// A body, in a loop or alone; what it and all in it need is appended to the registers.
#[cycle(tree)]
fn body_node(
    alloc: Global,
    body: &[Stmt],
    mems: &[MemDecl],
    counters: u32,
    regs: &mut Vec<CoreMem>,
    sources: &[Source],
    loops: Vec<CoreCounter>,
    style: Style,
    ending: Ending<'_>,
    combines: Combines<'_>,
) -> Result<Node, NoMemory>
    ensures regs { OnOk result (map core.plain_mem regs.new.items ≡ map core.plain_mem regs.old.items ++ registers_in (plain_stmts body.now) (plain_ending ending.entry)) }
    ensures node { IfOk result (λ made. core.plain_node made ≡ body_node (map plain_mem mems.now) counters (sources_of sources.now) (length (map core.plain_mem regs.old.items)) (map core.plain_counter loops.items) style (plain_stmts body.now) (plain_ending ending.entry) (plain_combines combines.entry) (stages (map plain_mem mems.now) counters (no_run (sources_of sources.now)) (length (map core.plain_mem regs.old.items)) (plain_stmts body.now) (plain_ending ending.entry) (plain_combines combines.entry))) }
{
    if is_inner(body) {
        return inner_node(alloc, mems, sources, loops, body, combines);
    }
    outer_body(
        alloc, body, mems, counters, regs, sources, loops, style, ending, combines,
    )
}

/// A body with stages.
#[cycle(tree)]
fn outer_body(
    alloc: Global,
    body: &[Stmt],
    mems: &[MemDecl],
    counters: u32,
    regs: &mut Vec<CoreMem>,
    sources: &[Source],
    loops: Vec<CoreCounter>,
    style: Style,
    ending: Ending<'_>,
    combines: Combines<'_>,
) -> Result<Node, NoMemory>
    ensures regs { OnOk result (map core.plain_mem regs.new.items ≡ map core.plain_mem regs.old.items ++ registers (plain_stmts body.now) (plain_ending ending.entry)) }
    ensures node { IfOk result (λ made. core.plain_node made ≡ outer_node (map plain_mem mems.now) counters (length (map core.plain_mem regs.old.items)) (map core.plain_counter loops.items) style (plain_stmts body.now) (plain_ending ending.entry) (stages (map plain_mem mems.now) counters (no_run (sources_of sources.now)) (length (map core.plain_mem regs.old.items)) (plain_stmts body.now) (plain_ending ending.entry) (plain_combines combines.entry))) }
{
    let mut owned = Vec::new(alloc);
    push_own(&mut owned, mems, body)?;
    let mut out = Vec::new(alloc);
    let mut run = no_run(alloc, sources)?;
    add_statements(
        alloc, body, mems, counters, regs, &mut owned, &mut out, &mut run, ending,
    )?;
    let n = own_at_end(alloc, regs, &mut owned, ending)?;
    push_last(alloc, &mut out, mems, counters, run, n, ending, combines)?;
    Ok(Node::Outer {
        counters: loops,
        style,
        owned,
        stages: out,
    })
}

/// Appends the stages of the statements of a body, but for the last ones.
#[cycle(tree)]
fn add_statements(
    alloc: Global,
    body: &[Stmt],
    mems: &[MemDecl],
    counters: u32,
    regs: &mut Vec<CoreMem>,
    owned: &mut Vec<u32>,
    out: &mut Vec<Stage>,
    run: &mut Run,
    ending: Ending<'_>,
) -> Result<(), NoMemory>
    ensures regs { OnOk result (map core.plain_mem regs.new.items ++ at_end (plain_ending ending.entry) ≡ map core.plain_mem regs.old.items ++ registers (plain_stmts body.now) (plain_ending ending.entry)) }
    ensures owned { OnOk result (owned.new.items ++ numbers_from (length (map core.plain_mem regs.new.items)) (length (at_end (plain_ending ending.entry))) ≡ owned.old.items ++ owned_registers (length (map core.plain_mem regs.old.items)) (plain_stmts body.now) (plain_ending ending.entry)) }
    ensures stages { OnOk result ((c : plain.Combines) → onto out.new.items (last_stages (map plain_mem mems.now) counters (run_of run.new) (length (map core.plain_mem regs.new.items)) (plain_ending ending.entry) c) ≡ onto out.old.items (stages (map plain_mem mems.now) counters (run_of run.old) (length (map core.plain_mem regs.old.items)) (plain_stmts body.now) (plain_ending ending.entry) c)) }
{
    let mut at = 0;
    for s in body {
        at += 1;
        add_statement(
            alloc,
            &s.kind,
            mems,
            counters,
            regs,
            owned,
            out,
            run,
            &body[at..],
            ending,
        )?;
    }
    Ok(())
}

/// Appends a statement to the run of a body, or as stages of its own.
#[cycle(tree)]
fn add_statement(
    alloc: Global,
    kind: &StmtKind,
    mems: &[MemDecl],
    counters: u32,
    regs: &mut Vec<CoreMem>,
    owned: &mut Vec<u32>,
    out: &mut Vec<Stage>,
    run: &mut Run,
    rest: &[Stmt],
    ending: Ending<'_>,
) -> Result<(), NoMemory>
    ensures regs { OnOk result (map core.plain_mem regs.new.items ≡ map core.plain_mem regs.old.items ++ (beside (plain_stmt_kind kind.now) (plain_stmts rest.now) (plain_ending ending.entry) ++ inside (plain_stmt_kind kind.now))) }
    ensures owned { OnOk result (owned.new.items ≡ owned.old.items ++ numbers_from (length (map core.plain_mem regs.old.items)) (length (beside (plain_stmt_kind kind.now) (plain_stmts rest.now) (plain_ending ending.entry)))) }
    ensures stages { OnOk result ((place : ℕ) (c : plain.Combines) → onto out.new.items (stages (map plain_mem mems.now) counters (run_of run.new) (length (map core.plain_mem regs.new.items)) (plain_stmts rest.now) (plain_ending ending.entry) c) ≡ onto out.old.items (stages (map plain_mem mems.now) counters (run_of run.old) (length (map core.plain_mem regs.old.items)) (more_stmt (stmt place (plain_stmt_kind kind.now)) (plain_stmts rest.now)) (plain_ending ending.entry) c)) }
{
    let first = own_beside(alloc, regs, owned, kind, rest, ending)?;
    if is_primitive(kind) {
        let register = first_added(regs, first);
        add_stmt(alloc, run, mems, false, register, kind)?;
        return Ok(());
    }
    add_other(alloc, kind, mems, counters, regs, out, run, first)?;
    Ok(())
}

/// Appends the run, and a controller or a transfer with its early stages; `b` is the first register beside it.
#[cycle(tree)]
fn add_other(
    alloc: Global,
    kind: &StmtKind,
    mems: &[MemDecl],
    counters: u32,
    regs: &mut Vec<CoreMem>,
    out: &mut Vec<Stage>,
    run: &mut Run,
    b: u32,
) -> Result<(), NoMemory>
    ensures regs { OnOk result (map core.plain_mem regs.new.items ≡ map core.plain_mem regs.old.items ++ inside (plain_stmt_kind kind.now)) }
    ensures run { OnOk result (run_of run.new ≡ no_run (run_of run.old).values.elsewhere) }
    ensures stages { OnOk result ((rest : PlainStages) → onto out.new.items rest ≡ onto out.old.items (run_stage (run_of run.old).ops (early_stages (map plain_mem mems.now) (run_of run.old).values.elsewhere b (plain_stmt_kind kind.now) (more_stage 0 0 false (plain.node (map plain_mem mems.now) counters (run_of run.old).values.elsewhere b (length (map core.plain_mem regs.old.items)) (plain_stmt_kind kind.now)) rest)))) }
{
    end_run(alloc, out, run)?;
    push_early(alloc, out, mems, &run.elsewhere, b, kind)?;
    let node = kind_node(alloc, kind, mems, counters, regs, &run.elsewhere, b)?;
    push_stage(out, false, node)?;
    Ok(())
}

/// The node of a controller or a transfer.
#[cycle(tree)]
#[tactic(auto, unfolding(sp_sugar::specs::Registers::inside, sp_sugar::specs::Stages::node))]
fn kind_node(
    alloc: Global,
    kind: &StmtKind,
    mems: &[MemDecl],
    counters: u32,
    regs: &mut Vec<CoreMem>,
    sources: &[Source],
    b: u32,
) -> Result<Node, NoMemory>
    ensures regs { OnOk result (map core.plain_mem regs.new.items ≡ map core.plain_mem regs.old.items ++ inside (plain_stmt_kind kind.now)) }
    ensures node { IfOk result (λ made. core.plain_node made ≡ plain.node (map plain_mem mems.now) counters (sources_of sources.now) b (length (map core.plain_mem regs.old.items)) (plain_stmt_kind kind.now)) }
{
    match kind {
        StmtKind::LoadSram(mem, dram, spans) => {
            let mem = mem.number();
            let dram = dram.number();
            let node = load_node(alloc, mems, sources, b, mem, dram, spans)?;
            Ok(node)
        }
        StmtKind::LoadLine(mem, dram, spans) => {
            let mem = mem.number();
            let dram = dram.number();
            let node = load_node(alloc, mems, sources, b, mem, dram, spans)?;
            Ok(node)
        }
        StmtKind::Store(dram, spans, mem) => {
            let mem = mem.number();
            let dram = dram.number();
            let node = store_node(alloc, mems, sources, b, dram, mem, spans)?;
            Ok(node)
        }
        StmtKind::Gather(mem, dram, places, count) => places_node(
            alloc,
            mems,
            sources,
            b,
            SparseKind::Gather,
            dram.number(),
            mem.number(),
            places.number(),
            count,
        ),
        StmtKind::Scatter(dram, places, count, mem) => places_node(
            alloc,
            mems,
            sources,
            b,
            SparseKind::Scatter,
            dram.number(),
            mem.number(),
            places.number(),
            count,
        ),
        StmtKind::Control(ctl) => ctl_node(alloc, ctl, mems, counters, regs, sources, b),
        StmtKind::Declare(_)
        | StmtKind::Let(_, _)
        | StmtKind::SetReg(_, _)
        | StmtKind::SetOut(_, _)
        | StmtKind::SetSram(_, _, _)
        | StmtKind::Enq(_, _) => Ok(no_node(alloc)),
    }
}

/// The node of a controller.
#[cycle(tree)]
fn ctl_node(
    alloc: Global,
    ctl: &Ctl,
    mems: &[MemDecl],
    counters: u32,
    regs: &mut Vec<CoreMem>,
    sources: &[Source],
    b: u32,
) -> Result<Node, NoMemory>
    ensures regs { OnOk result (map core.plain_mem regs.new.items ≡ map core.plain_mem regs.old.items ++ inside (plain_ctl ctl.now)) }
    ensures node { IfOk result (λ made. core.plain_node made ≡ plain.node (map plain_mem mems.now) counters (sources_of sources.now) b (length (map core.plain_mem regs.old.items)) (plain_ctl ctl.now)) }
{
    match ctl {
        Ctl::Block { style, body } => {
            let style = style_of(alloc, mems, *style, body)?;
            let node = body_node(
                alloc,
                body,
                mems,
                counters,
                regs,
                sources,
                Vec::new(alloc),
                style,
                Ending::NoMore,
                Combines::Nothing,
            )?;
            Ok(node)
        }
        Ctl::Foreach {
            style,
            counters: all,
            body,
        } => {
            let loops = loops_of(alloc, mems, sources, b, all)?;
            let node = body_node(
                alloc,
                body,
                mems,
                counters,
                regs,
                sources,
                loops,
                *style,
                Ending::NoMore,
                Combines::Nothing,
            )?;
            Ok(node)
        }
        Ctl::Reduce {
            style,
            fold,
            acc,
            counters: all,
            body,
            value,
            comb,
        } => {
            let begun = after_bounds(b, all)?;
            let loops = loops_of(alloc, mems, sources, b, all)?;
            let ending = ending_of(all, value)?;
            let combines = combined_by(mems, *fold, acc.number(), begun, *comb, value);
            let node = body_node(
                alloc, body, mems, counters, regs, sources, loops, *style, ending, combines,
            )?;
            Ok(node)
        }
        Ctl::MemReduce {
            style,
            acc,
            counters: all,
            body,
            part,
            comb,
        } => {
            let begun = after_bounds(b, all)?;
            let loops = loops_of(alloc, mems, sources, b, all)?;
            let acc = mem_number(mems, acc.number());
            let combines = Combines::ReducesElements(part.number(), acc, begun, *comb);
            let node = outer_body(
                alloc,
                body,
                mems,
                counters,
                regs,
                sources,
                loops,
                *style,
                Ending::NoMore,
                combines,
            )?;
            Ok(node)
        }
        Ctl::Fsm {
            start,
            tested,
            test,
            state,
            body,
            last,
            next,
        } => {
            let r = push_state(alloc, regs, start.ty)?;
            let kept = with_state(alloc, sources, *tested, *state, *last, r)?;
            let body = alone(alloc, body, mems, counters, regs, &kept)?;
            let node = fsm_node(alloc, mems, sources, &kept, r, start, test, body, next)?;
            Ok(node)
        }
        Ctl::Branch { test, yes, no } => {
            let yes = alone(alloc, yes, mems, counters, regs, sources)?;
            let no = alone(alloc, no, mems, counters, regs, sources)?;
            let node = branch_node(alloc, mems, sources, test, yes, no)?;
            Ok(node)
        }
    }
}

/// A body that is no loop.
#[cycle(tree)]
pub(crate) fn alone(
    alloc: Global,
    body: &[Stmt],
    mems: &[MemDecl],
    counters: u32,
    regs: &mut Vec<CoreMem>,
    sources: &[Source],
) -> Result<Node, NoMemory>
    ensures regs { OnOk result (map core.plain_mem regs.new.items ≡ map core.plain_mem regs.old.items ++ registers_in (plain_stmts body.now) no_more) }
    ensures node { IfOk result (λ made. core.plain_node made ≡ alone_node (map plain_mem mems.now) counters (sources_of sources.now) (length (map core.plain_mem regs.old.items)) (plain_stmts body.now)) }
{
    body_node(
        alloc,
        body,
        mems,
        counters,
        regs,
        sources,
        Vec::new(alloc),
        Style::Pipe,
        Ending::NoMore,
        Combines::Nothing,
    )
}
