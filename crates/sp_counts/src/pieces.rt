//! The pieces of a program that are done at one place, each with its lanes, its operations and what it reads.

ghost use Rattle.std.specs.Prelude.{◌≡◌, ◌≤◌, ◌*◌, ◌++◌, ◌∷◌, [], map, length, OnOk, if◌then◌else◌};
ghost use Rattle.sp_tree.specs.Counts.{a_run, a_part, a_transfer, a_combination, is_value_apart, lanes_in, kind_lanes, pieces, inner_pieces};
ghost use Rattle.sp_tree.specs.Limits.{most_lanes};
ghost use Rattle.sp_tree.specs.PlainStatement.{PlainStmts, more_stmt};
ghost use Rattle.sp_tree.specs.PlainTree.{plain_counter, plain_ctl, plain_stmt, plain_stmt_kind, plain_stmts};
ghost use Rattle.sp_tree.specs.Structure.{outside, is_inner, lanes_of};
ghost use Rattle.sp_tree.specs.Tallies.{Tally as PlainTally, nothing, tally};
ghost use Rattle.sp_tree.specs.Plain.{plain_expr};
ghost use Rattle.sp_counts.specs.Pieces.{piece_of};
ghost use Rattle.sp_counts.specs.Tallies.{tally_of};

use crate::NoMemory;
use crate::lanes::{lanes_inside, lanes_of};
use crate::outside::outside;
use crate::tally::{Tally, is_primitive};
use sp_tree::{Counter, Ctl, Expr, Stmt, StmtKind};
use std::alloc::Global;
use std::mem;

/// A run of statements that are neither controllers nor transfers, or a bound, a slice, a start, a test, a next state,
/// a transfer or a combination.
#[derive(Debug, Drop)]
pub(crate) struct Piece {
    pub(crate) is_run: bool,
    pub(crate) lanes: u64,
    pub(crate) operations: u64,
    pub(crate) reads: Vec<u32>,
}

fn add_run(out: &mut Vec<Piece>, lanes: u64, tally: Tally) -> Result<(), NoMemory>
    ensures { OnOk result (map piece_of out.new.items ≡ map piece_of out.old.items ++ a_run lanes (tally_of tally) ∷ []) }
{
    out.push(Piece {
        is_run: true,
        lanes,
        operations: tally.operations,
        reads: tally.reads,
    })?;
    Ok(())
}

fn add_part(out: &mut Vec<Piece>, lanes: u64, tally: Tally) -> Result<(), NoMemory>
    ensures { OnOk result (map piece_of out.new.items ≡ map piece_of out.old.items ++ a_part lanes (tally_of tally) ∷ []) }
{
    out.push(Piece {
        is_run: false,
        lanes,
        operations: tally.operations,
        reads: tally.reads,
    })?;
    Ok(())
}

fn add_transfer(out: &mut Vec<Piece>, lanes: u64, reads: Vec<u32>) -> Result<(), NoMemory>
    ensures { OnOk result (map piece_of out.new.items ≡ map piece_of out.old.items ++ a_transfer lanes reads.items ∷ []) }
{
    out.push(Piece {
        is_run: false,
        lanes,
        operations: 1,
        reads,
    })?;
    Ok(())
}

fn add_combination(out: &mut Vec<Piece>, lanes: u64, reads: Vec<u32>) -> Result<(), NoMemory>
    ensures { OnOk result (map piece_of out.new.items ≡ map piece_of out.old.items ++ a_combination lanes reads.items ∷ []) }
{
    out.push(Piece {
        is_run: false,
        lanes,
        operations: 0,
        reads,
    })?;
    Ok(())
}

fn add_parts(out: &mut Vec<Piece>, lanes: u64, parts: Vec<Tally>) -> Result<(), NoMemory>
    ensures { OnOk result (map piece_of out.new.items ≡ map piece_of out.old.items ++ map (a_part lanes) (map tally_of parts.items)) }
{
    for part in parts {
        add_part(out, lanes, part)?;
    }
    Ok(())
}

/// Whether all statements of a body are neither controllers nor transfers.
pub(crate) fn is_inner(body: &[Stmt]) -> bool
    ensures { result ≡ is_inner (plain_stmts body.now) }
{
    for s in body {
        if !is_primitive(&s.kind) {
            return false;
        }
    }
    true
}

fn is_value_apart(body: &[Stmt], counters: &[Counter]) -> bool
    ensures { result ≡ is_value_apart (plain_stmts body.now) (map plain_counter counters.now) }
{
    !is_inner(body) && lanes_of(counters) == 1
}

#[cycle(add_pieces)]
fn add_ctl_pieces(
    alloc: Global,
    out: &mut Vec<Piece>,
    ctl: &Ctl,
    lanes: u64,
) -> Result<(), NoMemory>
    ensures { kind_lanes (plain_ctl ctl.now) lanes ≤ most_lanes → OnOk result (map piece_of out.new.items ≡ map piece_of out.old.items ++ inner_pieces (plain_ctl ctl.now) lanes) }
{
    match ctl {
        Ctl::Block { body, .. } => add_pieces(alloc, out, body, lanes, &Tally::new(alloc)),
        Ctl::Foreach { counters, body, .. } => add_pieces(
            alloc,
            out,
            body,
            lanes_inside(lanes, counters),
            &Tally::new(alloc),
        ),
        Ctl::Reduce {
            counters,
            body,
            value,
            ..
        } => add_reduce_pieces(alloc, out, counters, body, value, lanes),
        Ctl::MemReduce {
            acc,
            counters,
            body,
            part,
            ..
        } => {
            let inside = lanes_inside(lanes, counters);
            add_pieces(alloc, out, body, inside, &Tally::new(alloc))?;
            add_combination(out, lanes, vec![in alloc; acc.number(), part.number()]?)
        }
        Ctl::Fsm {
            start,
            test,
            body,
            next,
            ..
        } => {
            add_part(out, lanes, Tally::of_expr(alloc, start)?)?;
            add_part(out, lanes, Tally::of_expr(alloc, test)?)?;
            add_part(out, lanes, Tally::of_expr(alloc, next)?)?;
            add_pieces(alloc, out, body, lanes, &Tally::new(alloc))
        }
        Ctl::Branch { test, yes, no } => {
            add_part(out, lanes, Tally::of_expr(alloc, test)?)?;
            add_pieces(alloc, out, yes, lanes, &Tally::new(alloc))?;
            add_pieces(alloc, out, no, lanes, &Tally::new(alloc))
        }
    }
}

#[cycle(add_pieces)]
fn add_reduce_pieces(
    alloc: Global,
    out: &mut Vec<Piece>,
    counters: &[Counter],
    body: &[Stmt],
    value: &Expr,
    lanes: u64,
) -> Result<(), NoMemory>
    ensures { lanes_in (plain_stmts body.now) (lanes * lanes_of (map plain_counter counters.now)) ≤ most_lanes → OnOk result (map piece_of out.new.items ≡ map piece_of out.old.items ++ (if is_value_apart (plain_stmts body.now) (map plain_counter counters.now) then pieces (plain_stmts body.now) lanes nothing nothing ++ a_run lanes (tally (plain_expr value.now)) ∷ [] else pieces (plain_stmts body.now) (lanes * lanes_of (map plain_counter counters.now)) nothing (tally (plain_expr value.now)))) }
{
    let word = Tally::of_expr(alloc, value)?;
    if is_value_apart(body, counters) {
        add_pieces(alloc, out, body, lanes, &Tally::new(alloc))?;
        return add_run(out, lanes, word);
    }
    add_pieces(alloc, out, body, lanes_inside(lanes, counters), &word)
}

#[cycle(add_pieces)]
fn add_inner_pieces(
    alloc: Global,
    out: &mut Vec<Piece>,
    kind: &StmtKind,
    lanes: u64,
) -> Result<(), NoMemory>
    ensures { kind_lanes (plain_stmt_kind kind.now) lanes ≤ most_lanes → OnOk result (map piece_of out.new.items ≡ map piece_of out.old.items ++ inner_pieces (plain_stmt_kind kind.now) lanes) }
{
    match kind {
        StmtKind::LoadSram(_, _, _) => add_transfer(out, lanes, Vec::new(alloc)),
        StmtKind::LoadLine(_, _, _) => add_transfer(out, lanes, Vec::new(alloc)),
        StmtKind::Store(_, _, sram) => { add_transfer(out, lanes, vec![in alloc; sram.number()]?) }
        StmtKind::Gather(_, _, places, _) => {
            add_transfer(out, lanes, vec![in alloc; places.number()]?)
        }
        StmtKind::Scatter(_, places, _, sram) => {
            add_transfer(out, lanes, vec![in alloc; places.number(), sram.number()]?)
        }
        StmtKind::Control(ctl) => add_ctl_pieces(alloc, out, ctl, lanes),
        StmtKind::Declare(_)
        | StmtKind::Let(_, _)
        | StmtKind::SetReg(_, _)
        | StmtKind::SetOut(_, _)
        | StmtKind::SetSram(_, _, _)
        | StmtKind::Enq(_, _) => Ok(()),
    }
}

/// One more statement, after some of its run: the pieces of this and all that may follow.
#[cycle(add_pieces)]
fn add_statement(
    alloc: Global,
    out: &mut Vec<Piece>,
    before: &mut Tally,
    s: &Stmt,
    lanes: u64,
) -> Result<(), NoMemory>
    ensures { kind_lanes (plain_stmt_kind s.now.kind) lanes ≤ most_lanes → OnOk result ((rest : PlainStmts) (tail : PlainTally) → map piece_of out.new.items ++ pieces rest lanes (tally_of before.new) tail ≡ map piece_of out.old.items ++ pieces (more_stmt (plain_stmt s.now) rest) lanes (tally_of before.old) tail) }
{
    if is_primitive(&s.kind) {
        return before.add_primitive(&s.kind);
    }
    let run = mem::replace(before, Tally::new(alloc));
    add_run(out, lanes, run)?;
    add_parts(out, lanes, outside(alloc, &s.kind)?)?;
    add_inner_pieces(alloc, out, &s.kind, lanes)
}

/// The pieces of a body with so many lanes, with one more statement at its end.
#[cycle(add_pieces)]
pub(crate) fn add_pieces(
    alloc: Global,
    out: &mut Vec<Piece>,
    body: &[Stmt],
    lanes: u64,
    tail: &Tally,
) -> Result<(), NoMemory>
    ensures { lanes_in (plain_stmts body.now) lanes ≤ most_lanes → OnOk result (map piece_of out.new.items ≡ map piece_of out.old.items ++ pieces (plain_stmts body.now) lanes nothing (tally_of tail.now)) }
{
    let mut before = Tally::new(alloc);
    for s in body {
        add_statement(alloc, out, &mut before, s, lanes)?;
    }
    before.add(tail)?;
    add_run(out, lanes, before)
}
