//! The stages of the body of a loop, each by the memories that it uses.

ghost use Rattle.std.specs.Prelude.{◌≡◌, ◌++◌, ◌∷◌, [], map, OnOk, IfOk};
ghost use Rattle.std.specs.List.{flat_map};
ghost use Rattle.sp_tree.specs.Counts.{loop_stages, reduce_stages};
ghost use Rattle.sp_tree.specs.Plain.{plain_expr};
ghost use Rattle.sp_tree.specs.PlainStatement.{PlainStmts, more_stmt};
ghost use Rattle.sp_tree.specs.PlainTree.{plain_counter, plain_ctl, plain_stmt, plain_stmt_kind, plain_stmts};
ghost use Rattle.sp_tree.specs.Structure.{outside, primitive_uses, body_uses, inside, inner_stage, stages, stages_before, uses_inside};
ghost use Rattle.sp_tree.specs.Tallies.{Tally as PlainTally, nothing, uses_of};
ghost use Rattle.sp_counts.specs.Stages.{lists_of};
ghost use Rattle.sp_counts.specs.Tallies.{tally_of};

use crate::NoMemory;
use crate::lanes::lanes_of;
use crate::outside::outside;
use crate::pieces::is_inner;
use crate::tally::{Tally, is_primitive};
use sp_tree::{Counter, Ctl, Expr, Stmt, StmtKind};
use std::alloc::Global;

fn add_all_uses(into: &mut Vec<u32>, tallies: &[Tally]) -> Result<(), NoMemory>
    ensures { OnOk result (into.new.items ≡ into.old.items ++ flat_map uses_of (map tally_of tallies.now)) }
{
    for t in tallies {
        t.add_uses(into)?;
    }
    Ok(())
}

/// What is used by those that read no SRAM and no line buffer.
fn add_uses_inside(into: &mut Vec<u32>, tallies: &[Tally]) -> Result<(), NoMemory>
    ensures { OnOk result (into.new.items ≡ into.old.items ++ uses_inside (map tally_of tallies.now)) }
{
    for t in tallies {
        if !t.arrays {
            t.add_uses(into)?;
        }
    }
    Ok(())
}

#[tactic(auto, using(crate::proofs::RunLemmas::primitive_uses_are))]
fn add_primitive_uses(alloc: Global, into: &mut Vec<u32>, kind: &StmtKind) -> Result<(), NoMemory>
    ensures { OnOk result (into.new.items ≡ into.old.items ++ primitive_uses (plain_stmt_kind kind.now)) }
{
    let mut words = Tally::new(alloc);
    words.add_primitive(kind)?;
    words.add_uses(into)
}

#[cycle(add_body_uses)]
fn add_ctl_uses(alloc: Global, into: &mut Vec<u32>, ctl: &Ctl) -> Result<(), NoMemory>
    ensures { OnOk result (into.new.items ≡ into.old.items ++ inside (plain_ctl ctl.now)) }
{
    match ctl {
        Ctl::Block { body, .. } => add_body_uses(alloc, into, body),
        Ctl::Foreach { body, .. } => add_body_uses(alloc, into, body),
        Ctl::Reduce {
            acc,
            body,
            value,
            ..
        } => {
            into.push(acc.number())?;
            add_body_uses(alloc, into, body)?;
            Tally::of_expr(alloc, value)?.add_uses(into)
        }
        Ctl::MemReduce {
            acc,
            body,
            part,
            ..
        } => {
            into.push(acc.number())?;
            into.push(part.number())?;
            add_body_uses(alloc, into, body)
        }
        Ctl::Fsm {
            start,
            test,
            body,
            next,
            ..
        } => {
            let mut words = Tally::of_expr(alloc, start)?;
            words.add_expr(test)?;
            words.add_expr(next)?;
            words.add_uses(into)?;
            add_body_uses(alloc, into, body)
        }
        Ctl::Branch { test, yes, no } => {
            Tally::of_expr(alloc, test)?.add_uses(into)?;
            add_body_uses(alloc, into, yes)?;
            add_body_uses(alloc, into, no)
        }
    }
}

#[cycle(add_body_uses)]
fn add_inside(alloc: Global, into: &mut Vec<u32>, kind: &StmtKind) -> Result<(), NoMemory>
    ensures { OnOk result (into.new.items ≡ into.old.items ++ inside (plain_stmt_kind kind.now)) }
{
    match kind {
        StmtKind::LoadSram(sram, dram, _) => {
            into.push(sram.number())?;
            into.push(dram.number())?;
        }
        StmtKind::LoadLine(line, dram, _) => {
            into.push(line.number())?;
            into.push(dram.number())?;
        }
        StmtKind::Store(dram, _, sram) => {
            into.push(dram.number())?;
            into.push(sram.number())?;
        }
        StmtKind::Gather(sram, dram, places, _) => {
            into.push(sram.number())?;
            into.push(dram.number())?;
            into.push(places.number())?;
        }
        StmtKind::Scatter(dram, places, _, sram) => {
            into.push(dram.number())?;
            into.push(places.number())?;
            into.push(sram.number())?;
        }
        StmtKind::Control(ctl) => add_ctl_uses(alloc, into, ctl)?,
        StmtKind::Declare(_)
        | StmtKind::Let(_, _)
        | StmtKind::SetReg(_, _)
        | StmtKind::SetOut(_, _)
        | StmtKind::SetSram(_, _, _)
        | StmtKind::Enq(_, _) => {}
    }
    Ok(())
}

/// The memories that are used anywhere in a body.
#[cycle(add_body_uses)]
fn add_body_uses(alloc: Global, into: &mut Vec<u32>, body: &[Stmt]) -> Result<(), NoMemory>
    ensures { OnOk result (into.new.items ≡ into.old.items ++ body_uses (plain_stmts body.now)) }
{
    for s in body {
        add_primitive_uses(alloc, into, &s.kind)?;
        add_all_uses(into, &outside(alloc, &s.kind)?)?;
        add_inside(alloc, into, &s.kind)?;
    }
    Ok(())
}

/// An inner stage, if it has an operation.
fn add_inner_stage(alloc: Global, out: &mut Vec<Vec<u32>>, tally: &Tally) -> Result<(), NoMemory>
    ensures { OnOk result (lists_of out.new.items ≡ lists_of out.old.items ++ inner_stage (tally_of tally.now)) }
{
    if tally.operations == 0 {
        return Ok(());
    }
    let mut uses = Vec::new(alloc);
    tally.add_uses(&mut uses)?;
    out.push(uses)?;
    Ok(())
}

/// A stage for each of those that read an SRAM or a line buffer.
fn add_stages_before(
    alloc: Global,
    out: &mut Vec<Vec<u32>>,
    tallies: &[Tally],
) -> Result<(), NoMemory>
    ensures { OnOk result (lists_of out.new.items ≡ lists_of out.old.items ++ stages_before (map tally_of tallies.now)) }
{
    for t in tallies {
        if t.arrays {
            let mut uses = Vec::new(alloc);
            t.add_uses(&mut uses)?;
            out.push(uses)?;
        }
    }
    Ok(())
}

/// One more statement, after some of its run: the stages of this and all that may follow.
fn add_stages_of(
    alloc: Global,
    out: &mut Vec<Vec<u32>>,
    before: &mut Tally,
    s: &Stmt,
) -> Result<(), NoMemory>
    ensures { OnOk result ((rest : PlainStmts) (tail : PlainTally) → lists_of out.new.items ++ stages rest (tally_of before.new) tail ≡ lists_of out.old.items ++ stages (more_stmt (plain_stmt s.now) rest) (tally_of before.old) tail) }
{
    if is_primitive(&s.kind) {
        return before.add_primitive(&s.kind);
    }
    add_inner_stage(alloc, out, before)?;
    let bounds = outside(alloc, &s.kind)?;
    add_stages_before(alloc, out, &bounds)?;
    let mut own = Vec::new(alloc);
    add_uses_inside(&mut own, &bounds)?;
    add_inside(alloc, &mut own, &s.kind)?;
    out.push(own)?;
    *before = Tally::new(alloc);
    Ok(())
}

/// The stages of a body that isn't inner, with one more statement at its end.
fn stages(alloc: Global, body: &[Stmt], tail: &Tally) -> Result<Vec<Vec<u32>>, NoMemory>
    ensures { IfOk result (λ all. lists_of all.items ≡ stages (plain_stmts body.now) nothing (tally_of tail.now)) }
{
    let mut all = Vec::new(alloc);
    let mut before = Tally::new(alloc);
    for s in body {
        add_stages_of(alloc, &mut all, &mut before, s)?;
    }
    before.add(tail)?;
    add_inner_stage(alloc, &mut all, &before)?;
    Ok(all)
}

/// The stages of the body of a Foreach; none where it is inner.
pub(crate) fn foreach_stages(alloc: Global, body: &[Stmt]) -> Result<Vec<Vec<u32>>, NoMemory>
    ensures { IfOk result (λ all. lists_of all.items ≡ loop_stages (plain_stmts body.now) nothing []) }
{
    if is_inner(body) {
        return Ok(Vec::new(alloc));
    }
    stages(alloc, body, &Tally::new(alloc))
}

/// The stages of the body of a Reduce or Fold, with its combination; none where it is inner.
pub(crate) fn reduce_stages(
    alloc: Global,
    body: &[Stmt],
    counters: &[Counter],
    acc: u32,
    value: &Expr,
) -> Result<Vec<Vec<u32>>, NoMemory>
    ensures { IfOk result (λ all. lists_of all.items ≡ reduce_stages (plain_stmts body.now) (map plain_counter counters.now) acc (plain_expr value.now)) }
{
    if is_inner(body) {
        return Ok(Vec::new(alloc));
    }
    let word = Tally::of_expr(alloc, value)?;
    let mut end = vec![in alloc; acc]?;
    if lanes_of(counters) == 1 {
        word.add_uses(&mut end)?;
        let mut all = stages(alloc, body, &Tally::new(alloc))?;
        all.push(end)?;
        return Ok(all);
    }
    let mut all = stages(alloc, body, &word)?;
    all.push(end)?;
    Ok(all)
}

/// The stages of the body of a MemReduce, with its combination.
pub(crate) fn mem_reduce_stages(
    alloc: Global,
    body: &[Stmt],
    acc: u32,
    part: u32,
) -> Result<Vec<Vec<u32>>, NoMemory>
    ensures { IfOk result (λ all. lists_of all.items ≡ stages (plain_stmts body.now) nothing nothing ++ (acc ∷ part ∷ []) ∷ []) }
{
    let mut all = stages(alloc, body, &Tally::new(alloc))?;
    all.push(vec![in alloc; acc, part]?)?;
    Ok(all)
}
