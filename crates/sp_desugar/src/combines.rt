//! What loops combine, inner bodies, and the last stages of others.
ghost use Rattle.std.specs.Prelude.{◌≡◌, ◌++◌, ℕ, List, map, length, IfOk, OnOk};
ghost use Rattle.sp_core.specs.Plain as core;
ghost use Rattle.sp_tree.specs.PlainProgram.{PlainMem};
ghost use Rattle.sp_sugar.specs.Runs.{next_code};
ghost use Rattle.sp_tree.specs.Plain.{plain_expr, plain_mem};
ghost use Rattle.sp_tree.specs.PlainTree.{plain_stmt_kind, plain_stmts};
ghost use Rattle.sp_tree.specs.PlainStatement.{PlainStmts, stmt, more_stmt};
ghost use Rattle.sp_tree.specs.Structure.{own_mems, is_inner};
ghost use Rattle.sp_sugar.specs.Numbers.{mem_number};
ghost use Rattle.sp_sugar.specs.Stages.{combines, combining, combination, inner_node};
ghost use Rattle.sp_operations.specs.Running.{run_of};
ghost use Rattle.sp_operations.specs.Sources.{sources_of};
ghost use Rattle.sp_desugar.specs.Tree.{plain_combines};

use crate::NoMemory;
use crate::uses::is_primitive;
use sp_core::{CoreCounter, Node, Op};
use sp_operations::{
    Run, Source, add_code, add_inner, mem_number, next_place, no_run, push_fold, push_reduce,
};
use sp_tree::{Comb, Expr, MemDecl, Stmt, StmtKind};
use std::alloc::Global;

/// What a loop does with the words of its iterations, beside its body: nothing; or it combines a word into the register
/// of this number, by the register that tells whether it has begun; or the elements of a memory of the program.
#[derive(Clone, Copy, Debug)]
pub(crate) enum Combines<'a> {
    Nothing,
    Folds(u32, Comb, &'a Expr),
    Reduces(u32, u32, Comb, &'a Expr),
    ReducesElements(u32, u32, u32, Comb),
}

/// By the program's accumulator, and the register beside it.
pub(crate) fn combined_by<'a>(
    mems: &[MemDecl],
    fold: bool,
    acc: u32,
    begun: u32,
    comb: Comb,
    e: &'a Expr,
) -> Combines<'a>
    ensures { plain_combines result ≡ combines (map plain_mem mems.now) fold acc begun comb (plain_expr e.now) }
{
    let acc = mem_number(mems, acc);
    if fold {
        return Combines::Folds(acc, comb, e);
    }
    Combines::Reduces(acc, begun, comb, e)
}

/// Appends the number of the memory that a statement declares, if it declares one.
#[tactic(auto, using(crate::proofs::CombineLemmas::control_owns_none))]
fn push_declared(out: &mut Vec<u32>, mems: &[MemDecl], kind: &StmtKind) -> Result<(), NoMemory>
    ensures { OnOk result ((place : ℕ) (rest : PlainStmts) → out.new.items ++ map (mem_number (map plain_mem mems.now)) (own_mems rest) ≡ out.old.items ++ map (mem_number (map plain_mem mems.now)) (own_mems (more_stmt (stmt place (plain_stmt_kind kind.now)) rest))) }
{
    match kind {
        StmtKind::Declare(m) => {
            out.push(mem_number(mems, *m))?;
            Ok(())
        }
        StmtKind::Control(_) => Ok(()),
        StmtKind::Let(_, _)
        | StmtKind::SetReg(_, _)
        | StmtKind::SetOut(_, _)
        | StmtKind::SetSram(_, _, _)
        | StmtKind::Enq(_, _)
        | StmtKind::LoadSram(_, _, _)
        | StmtKind::LoadLine(_, _, _)
        | StmtKind::Store(_, _, _)
        | StmtKind::Gather(_, _, _, _)
        | StmtKind::Scatter(_, _, _, _) => Ok(()),
    }
}

/// Appends the numbers of the memories that a body declares itself.
pub(crate) fn push_own(out: &mut Vec<u32>, mems: &[MemDecl], body: &[Stmt]) -> Result<(), NoMemory>
    ensures { OnOk result (out.new.items ≡ out.old.items ++ map (mem_number (map plain_mem mems.now)) (own_mems (plain_stmts body.now))) }
{
    for s in body {
        push_declared(out, mems, &s.kind)?;
    }
    Ok(())
}

/// Whether all statements of a body are neither controllers nor transfers.
pub(crate) fn is_inner(body: &[Stmt]) -> bool
    ensures { result ≡ is_inner (plain_stmts body.now) }
{
    for s in body {
        if !is_primitive(&s.kind) {
            return false;
        }
    }
    true
}

/// Appends the operations of a combination, of the word at a place.
pub(crate) fn push_combining(
    alloc: Global,
    ops: &mut Vec<Op>,
    word: u32,
    combines: Combines<'_>,
) -> Result<(), NoMemory>
    ensures { OnOk result ((mems : List PlainMem) (counters : ℕ) → core.plain_ops ops.new.items ≡ core.plain_ops ops.old.items ++ combining mems counters (length (core.plain_ops ops.old.items)) word (plain_combines combines.entry)) }
{
    match combines {
        Combines::Nothing => Ok(()),
        Combines::Folds(acc, comb, e) => {
            push_fold(alloc, ops, word, acc, e.ty, comb)?;
            Ok(())
        }
        Combines::Reduces(acc, begun, comb, e) => {
            push_reduce(alloc, ops, word, acc, begun, e.ty, comb)?;
            Ok(())
        }
        Combines::ReducesElements(_, _, _, _) => Ok(()),
    }
}

/// A loop over the operations of a body, and of the word that is combined after them.
fn combined_node(
    alloc: Global,
    mems: &[MemDecl],
    mut run: Run,
    loops: Vec<CoreCounter>,
    owned: Vec<u32>,
    e: &Expr,
    combines: Combines<'_>,
) -> Result<Node, NoMemory>
    ensures { IfOk result (λ node. (counters : ℕ) → core.plain_node node ≡ combination (map plain_mem mems.now) counters (run_of run).ops (next_code (map plain_mem mems.now) (run_of run) (plain_expr e.now)) (plain_combines combines.entry) (map core.plain_counter loops.items) owned.items) }
{
    let word = add_code(alloc, &mut run, mems, e)?;
    let comb = next_place(&run.ops)?;
    push_combining(alloc, &mut run.ops, word, combines)?;
    Ok(Node::Inner {
        counters: loops,
        owned,
        ops: run.ops,
        comb: Some(comb),
    })
}

/// An inner body, in a loop or alone.
pub(crate) fn inner_node(
    alloc: Global,
    mems: &[MemDecl],
    sources: &[Source],
    loops: Vec<CoreCounter>,
    body: &[Stmt],
    combines: Combines<'_>,
) -> Result<Node, NoMemory>
    ensures { IfOk result (λ node. (counters : ℕ) → core.plain_node node ≡ inner_node (map plain_mem mems.now) counters (sources_of sources.now) (map core.plain_counter loops.items) (plain_stmts body.now) (plain_combines combines.entry)) }
{
    let mut run = no_run(alloc, sources)?;
    add_inner(alloc, &mut run, mems, body)?;
    let mut owned = Vec::new(alloc);
    push_own(&mut owned, mems, body)?;
    match combines {
        Combines::Folds(_, _, e) => {
            let node = combined_node(alloc, mems, run, loops, owned, e, combines)?;
            Ok(node)
        }
        Combines::Reduces(_, _, _, e) => {
            let node = combined_node(alloc, mems, run, loops, owned, e, combines)?;
            Ok(node)
        }
        Combines::Nothing | Combines::ReducesElements(_, _, _, _) => Ok(Node::Inner {
            counters: loops,
            owned,
            ops: run.ops,
            comb: None,
        }),
    }
}
