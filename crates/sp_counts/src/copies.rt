//! How many copies of its words each memory on the chip has, for its lanes and its stages.

ghost use Rattle.std.specs.Prelude.{◌≡◌, ◌≤◌, ◌*◌, ◌++◌, List, ℕ, map, length, OnOk, IfOk};
ghost use Rattle.sp_tree.specs.Counts.{lanes_in, kind_lanes, up_to_last, first_to_last, span_of, copies_in, kind_copies};
ghost use Rattle.sp_tree.specs.Limits.{most_lanes};
ghost use Rattle.sp_tree.specs.PlainTree.{plain_ctl, plain_stmt_kind, plain_stmts};
ghost use Rattle.sp_tree.specs.Tallies.{is_among};
ghost use Rattle.sp_counts.specs.Copies.{copy_of};
ghost use Rattle.sp_counts.specs.Stages.{lists_of};

use crate::NoMemory;
use crate::lanes::lanes_inside;
use crate::stages::{foreach_stages, mem_reduce_stages, reduce_stages};
use sp_tree::{Ctl, Stmt, StmtKind};
use std::alloc::{AllocError, Global};

/// A memory that is declared, and how often its words are there for its lanes and stages.
#[derive(Clone, Copy, Debug)]
pub(crate) struct Copies {
    pub(crate) mem: u32,
    pub(crate) factor: u64,
}

pub(crate) fn is_among(m: u32, all: &[u32]) -> bool
    ensures { result ≡ is_among m all.now }
{
    for k in all {
        if *k == m {
            return true;
        }
    }
    false
}

/// How many stages there are up to the last that uses a memory.
fn up_to_last(stages: &[Vec<u32>], m: u32) -> usize
    ensures count { result ≡ up_to_last (map (is_among m) (lists_of stages.now)) }
    ensures within { result ≤ length stages.now }
{
    let mut last = 0;
    for i in 0..stages.len() {
        if is_among(m, &stages[i]) {
            last = i + 1;
        }
    }
    last
}

/// How many there are from the first that uses it to the last.
fn first_to_last(stages: &[Vec<u32>], m: u32) -> usize
    ensures { result ≡ first_to_last (map (is_among m) (lists_of stages.now)) }
{
    for i in 0..stages.len() {
        if is_among(m, &stages[i]) {
            return 1 + up_to_last(&stages[i + 1..], m);
        }
    }
    0
}

fn span_of(stages: &[Vec<u32>], m: u32) -> u64
    ensures { result ≡ span_of (lists_of stages.now) m }
{
    (first_to_last(stages, m) as u64).max(1)
}

/// The product. There are never as many copies as a `u64` has numbers, since each stage lies in memory.
fn product(a: u64, b: u64) -> Result<u64, NoMemory>
    ensures { IfOk result (λ p. p ≡ a * b) }
{
    a.checked_mul(b).ok_or(AllocError)
}

#[cycle(add_copies)]
fn add_ctl_copies(
    alloc: Global,
    out: &mut Vec<Copies>,
    ctl: &Ctl,
    lanes: u64,
) -> Result<(), NoMemory>
    ensures { (all : List (List ℕ)) → kind_lanes (plain_ctl ctl.now) lanes ≤ most_lanes → OnOk result (map copy_of out.new.items ≡ map copy_of out.old.items ++ kind_copies (plain_ctl ctl.now) lanes all) }
{
    match ctl {
        Ctl::Block { body, .. } => add_copies(alloc, out, body, lanes, &[]),
        Ctl::Foreach { counters, body, .. } => {
            let stages = foreach_stages(alloc, body)?;
            add_copies(alloc, out, body, lanes_inside(lanes, counters), &stages)
        }
        Ctl::Reduce {
            acc,
            counters,
            body,
            value,
            ..
        } => {
            let stages = reduce_stages(alloc, body, counters, acc.number(), value)?;
            add_copies(alloc, out, body, lanes_inside(lanes, counters), &stages)
        }
        Ctl::MemReduce {
            acc,
            counters,
            body,
            part,
            ..
        } => {
            let stages = mem_reduce_stages(alloc, body, acc.number(), part.number())?;
            add_copies(alloc, out, body, lanes_inside(lanes, counters), &stages)
        }
        Ctl::Fsm { body, .. } => add_copies(alloc, out, body, lanes, &[]),
        Ctl::Branch { yes, no, .. } => {
            add_copies(alloc, out, yes, lanes, &[])?;
            add_copies(alloc, out, no, lanes, &[])
        }
    }
}

#[cycle(add_copies)]
fn add_kind_copies(
    alloc: Global,
    out: &mut Vec<Copies>,
    kind: &StmtKind,
    lanes: u64,
    stages: &[Vec<u32>],
) -> Result<(), NoMemory>
    ensures { kind_lanes (plain_stmt_kind kind.now) lanes ≤ most_lanes → OnOk result (map copy_of out.new.items ≡ map copy_of out.old.items ++ kind_copies (plain_stmt_kind kind.now) lanes (lists_of stages.now)) }
{
    match kind {
        StmtKind::Declare(m) => {
            let factor = product(lanes, span_of(stages, *m))?;
            out.push(Copies { mem: *m, factor })?;
            Ok(())
        }
        StmtKind::Control(ctl) => add_ctl_copies(alloc, out, ctl, lanes),
        StmtKind::Let(_, _)
        | StmtKind::SetReg(_, _)
        | StmtKind::SetOut(_, _)
        | StmtKind::SetSram(_, _, _)
        | StmtKind::Enq(_, _)
        | StmtKind::LoadSram(_, _, _)
        | StmtKind::LoadLine(_, _, _)
        | StmtKind::Store(_, _, _)
        | StmtKind::Gather(_, _, _, _)
        | StmtKind::Scatter(_, _, _, _) => Ok(()),
    }
}

/// Each memory that a body declares, which has so many lanes and these stages; a body that runs once for each entry
/// has none.
#[cycle(add_copies)]
pub(crate) fn add_copies(
    alloc: Global,
    out: &mut Vec<Copies>,
    body: &[Stmt],
    lanes: u64,
    stages: &[Vec<u32>],
) -> Result<(), NoMemory>
    ensures { lanes_in (plain_stmts body.now) lanes ≤ most_lanes → OnOk result (map copy_of out.new.items ≡ map copy_of out.old.items ++ copies_in (plain_stmts body.now) lanes (lists_of stages.now)) }
{
    for s in body {
        add_kind_copies(alloc, out, &s.kind, lanes, stages)?;
    }
    Ok(())
}
