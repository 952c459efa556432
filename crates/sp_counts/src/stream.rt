//! The stages of a Stream block.

ghost use Rattle.std.specs.Prelude.{◌≡◌, ◌++◌, ◌&&◌, not, map, count_by, position, option_map, Option, IfOk, IfSome, OnOk, ◌<◌, length};
ghost use Rattle.std.specs.List.{list_all, list_any};
ghost use Rattle.sp_tree.specs.PlainTree.{plain_counter, plain_ctl, plain_stmt_kind, plain_stmts};
ghost use Rattle.sp_tree.specs.Streams.{all_tallies, body_tally, stream_stage, is_declaration, puts_into, takes_from, has_one_at_each_end, is_shared_unchanged};
ghost use Rattle.sp_tree.specs.Tallies.{bound_tallies, changes_of, uses_of, is_among};
ghost use Rattle.sp_counts.specs.Streams.{stage_of, AreStages};
ghost use Rattle.sp_counts.specs.Tallies.{tally_of, Grows};

use crate::NoMemory;
use crate::copies::is_among;
use crate::pieces::is_inner;
use crate::tally::Tally;
use sp_tree::{Counter, Ctl, Stmt, StmtKind};
use std::alloc::Global;

/// What a stage does in its bounds, and what it does in all.
#[derive(Debug, Drop)]
pub(crate) struct StreamStage {
    pub(crate) bounds: Tally,
    pub(crate) whole: Tally,
}

/// Adds the bounds of a loop.
fn add_bounds(into: &mut Tally, counters: &[Counter]) -> Result<(), NoMemory>
    ensures { OnOk result (Grows into.old into.new (all_tallies (bound_tallies (map plain_counter counters.now)))) }
{
    for counter in counters {
        into.add_expr(&counter.from)?;
        into.add_expr(&counter.until)?;
    }
    Ok(())
}

/// Adds the statements of an inner body.
#[tactic(auto, using(crate::proofs::RunLemmas::next_of_body))]
fn add_body(into: &mut Tally, body: &[Stmt]) -> Result<(), NoMemory>
    ensures { OnOk result (Grows into.old into.new (body_tally (plain_stmts body.now))) }
{
    for s in body {
        into.add_primitive(&s.kind)?;
    }
    Ok(())
}

/// A controller as a stage, if it is a loop with an inner body.
fn ctl_stage(alloc: Global, ctl: &Ctl) -> Result<Option<StreamStage>, NoMemory>
    ensures { IfOk result (λ o. option_map stage_of o ≡ stream_stage (plain_ctl ctl.now)) }
{
    match ctl {
        Ctl::Foreach { counters, body, .. } => {
            if !is_inner(body) {
                return Ok(None);
            }
            let mut bounds = Tally::new(alloc);
            add_bounds(&mut bounds, counters)?;
            let mut whole = Tally::new(alloc);
            whole.add(&bounds)?;
            add_body(&mut whole, body)?;
            Ok(Some(StreamStage { bounds, whole }))
        }
        Ctl::Reduce {
            acc,
            counters,
            body,
            value,
            ..
        } => {
            if !is_inner(body) {
                return Ok(None);
            }
            let mut bounds = Tally::new(alloc);
            add_bounds(&mut bounds, counters)?;
            let mut whole = Tally::new(alloc);
            whole.add(&bounds)?;
            add_body(&mut whole, body)?;
            whole.add_expr(value)?;
            whole.write(acc.number())?;
            Ok(Some(StreamStage { bounds, whole }))
        }
        Ctl::Block { .. } | Ctl::MemReduce { .. } | Ctl::Fsm { .. } | Ctl::Branch { .. } => {
            Ok(None)
        }
    }
}

/// A statement as a stage.
fn stream_stage(alloc: Global, kind: &StmtKind) -> Result<Option<StreamStage>, NoMemory>
    ensures { IfOk result (λ o. option_map stage_of o ≡ stream_stage (plain_stmt_kind kind.now)) }
{
    match kind {
        StmtKind::Control(ctl) => ctl_stage(alloc, ctl),
        StmtKind::Declare(_)
        | StmtKind::Let(_, _)
        | StmtKind::SetReg(_, _)
        | StmtKind::SetOut(_, _)
        | StmtKind::SetSram(_, _, _)
        | StmtKind::Enq(_, _)
        | StmtKind::LoadSram(_, _, _)
        | StmtKind::LoadLine(_, _, _)
        | StmtKind::Store(_, _, _)
        | StmtKind::Gather(_, _, _, _)
        | StmtKind::Scatter(_, _, _, _) => Ok(None),
    }
}

#[tactic(auto, using(crate::proofs::TreeLemmas::control_declares_none))]
fn is_declaration(kind: &StmtKind) -> bool
    ensures { result ≡ is_declaration (plain_stmt_kind kind.now) }
{
    match kind {
        StmtKind::Declare(_) => true,
        StmtKind::Control(_)
        | StmtKind::Let(_, _)
        | StmtKind::SetReg(_, _)
        | StmtKind::SetOut(_, _)
        | StmtKind::SetSram(_, _, _)
        | StmtKind::Enq(_, _)
        | StmtKind::LoadSram(_, _, _)
        | StmtKind::LoadLine(_, _, _)
        | StmtKind::Store(_, _, _)
        | StmtKind::Gather(_, _, _, _)
        | StmtKind::Scatter(_, _, _, _) => false,
    }
}

/// The stages of a body, if each of its statements is a declaration or a stage.
pub(crate) fn stream_stages(
    alloc: Global,
    body: &[Stmt],
) -> Result<Option<Vec<StreamStage>>, NoMemory>
    ensures { IfOk result (AreStages (plain_stmts body.now)) }
{
    let mut all = Vec::new(alloc);
    for s in body {
        match stream_stage(alloc, &s.kind)? {
            Some(stage) => all.push(stage)?,
            None => {
                if !is_declaration(&s.kind) {
                    return Ok(None);
                }
            }
        }
    }
    Ok(Some(all))
}

/// Whether no bound reads an SRAM or a line buffer.
pub(crate) fn are_bounds_still(stages: &[StreamStage]) -> bool
    ensures { result ≡ list_all (λ s. not s.bounds.arrays) (map stage_of stages.now) }
{
    for stage in stages {
        if stage.bounds.arrays {
            return false;
        }
    }
    true
}

fn puts_into(m: u32, stage: &StreamStage) -> bool
    ensures { result ≡ puts_into m (stage_of stage.now) }
{
    is_among(m, &stage.whole.puts)
}

fn takes_from(m: u32, stage: &StreamStage) -> bool
    ensures { result ≡ takes_from m (stage_of stage.now) }
{
    is_among(m, &stage.whole.takes)
}

#[tactic(auto, using(crate::proofs::ListLemmas::among_both))]
fn changes(m: u32, stage: &StreamStage) -> bool
    ensures { result ≡ is_among m (changes_of (stage_of stage.now).whole) }
{
    let whole = &stage.whole;
    is_among(m, &whole.writes) || (is_among(m, &whole.puts) || is_among(m, &whole.takes))
}

#[tactic(auto, using(crate::proofs::ListLemmas::among_both))]
fn uses(m: u32, stage: &StreamStage) -> bool
    ensures { result ≡ is_among m (uses_of (stage_of stage.now).whole) }
{
    is_among(m, &stage.whole.reads) || changes(m, stage)
}

fn count_puts(stages: &[StreamStage], m: u32) -> usize
    ensures { result ≡ count_by (puts_into m) (map stage_of stages.now) }
{
    let mut count = 0;
    for stage in stages {
        if puts_into(m, stage) {
            count += 1;
        }
    }
    count
}

fn count_takes(stages: &[StreamStage], m: u32) -> usize
    ensures { result ≡ count_by (takes_from m) (map stage_of stages.now) }
{
    let mut count = 0;
    for stage in stages {
        if takes_from(m, stage) {
            count += 1;
        }
    }
    count
}

fn count_uses(stages: &[StreamStage], m: u32) -> usize
    ensures { result ≡ count_by (λ s. is_among m (uses_of s.whole)) (map stage_of stages.now) }
{
    let mut count = 0;
    for stage in stages {
        if uses(m, stage) {
            count += 1;
        }
    }
    count
}

fn any_has_both(stages: &[StreamStage], m: u32) -> bool
    ensures { result ≡ list_any (λ s. puts_into m s && takes_from m s) (map stage_of stages.now) }
{
    for stage in stages {
        if puts_into(m, stage) && takes_from(m, stage) {
            return true;
        }
    }
    false
}

fn any_changes(stages: &[StreamStage], m: u32) -> bool
    ensures { result ≡ list_any (λ s. is_among m (changes_of s.whole)) (map stage_of stages.now) }
{
    for stage in stages {
        if changes(m, stage) {
            return true;
        }
    }
    false
}

/// Whether at most one stage puts into a FIFO, at most one takes from it, and none does both.
pub(crate) fn has_one_at_each_end(stages: &[StreamStage], m: u32) -> bool
    ensures { result ≡ has_one_at_each_end (map stage_of stages.now) m }
{
    (count_puts(stages, m) <= 1 && count_takes(stages, m) <= 1) && !any_has_both(stages, m)
}

/// Whether a memory that two stages name is changed by none.
pub(crate) fn is_shared_unchanged(stages: &[StreamStage], m: u32) -> bool
    ensures { result ≡ is_shared_unchanged (map stage_of stages.now) m }
{
    count_uses(stages, m) <= 1 || !any_changes(stages, m)
}

/// The first stage that puts into a FIFO.
pub(crate) fn place_of_put(stages: &[StreamStage], m: u32) -> Option<usize>
    ensures place { result ≡ position (puts_into m) (map stage_of stages.now) }
    ensures within { IfSome result (λ i. i < length stages.now) }
{
    for i in 0..stages.len() {
        if puts_into(m, &stages[i]) {
            return Some(i);
        }
    }
    None
}

/// The first stage that takes from a FIFO.
pub(crate) fn place_of_take(stages: &[StreamStage], m: u32) -> Option<usize>
    ensures place { result ≡ position (takes_from m) (map stage_of stages.now) }
    ensures within { IfSome result (λ i. i < length stages.now) }
{
    for i in 0..stages.len() {
        if takes_from(m, &stages[i]) {
            return Some(i);
        }
    }
    None
}
