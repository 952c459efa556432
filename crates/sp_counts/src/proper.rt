//! Which Stream blocks are proper, and the FIFOs to which they give more room.

ghost use Rattle.std.specs.Prelude.{◌≡◌, ℕ, ◌++◌, not, map, filter, length, IfOk, OnOk};
ghost use Rattle.sp_tree.specs.PlainStatement.{PlainStmts, stmt, more_stmt};
ghost use Rattle.std.specs.List.{list_all, flat_map};
ghost use Rattle.sp_tree.specs.Expressions.{mem};
ghost use Rattle.sp_tree.specs.Plain.{plain_mem};
ghost use Rattle.sp_tree.specs.PlainTree.{plain_ctl, plain_stmt_kind, plain_stmts};
ghost use Rattle.sp_tree.specs.Streams.{is_fifo, own_fifos, has_one_at_each_end, is_shared_unchanged, joined_by, is_proper, fifos_with_room, roomy_in, kind_roomy};
ghost use Rattle.sp_tree.specs.Tallies.{is_among, uses_of};
ghost use Rattle.sp_counts.specs.Streams.{stage_of, edge_of, AreBelow};

use crate::NoMemory;
use crate::copies::is_among;
use crate::forest::{Edge, is_forest};
use crate::stream::{
    StreamStage, are_bounds_still, has_one_at_each_end, is_shared_unchanged, place_of_put,
    place_of_take, stream_stages,
};
use sp_tree::{Ctl, MemDecl, Stmt, StmtKind};
use sp_words::{Kind, Style};
use std::alloc::Global;

/// The kind of a memory; a register where there is none of that number.
fn kind_of(mems: &[MemDecl], m: u32) -> Kind
    ensures { result ≡ (mem (map plain_mem mems.now) m).kind }
{
    match mems.get(m as usize) {
        Some(mem) => mem.kind,
        None => Kind::Reg,
    }
}

fn is_fifo(kind: Kind) -> bool
    ensures { result ≡ is_fifo kind }
{
    match kind {
        Kind::Fifo => true,
        _ => false,
    }
}

/// Adds the FIFO that a statement declares, if it declares one.
#[tactic(auto, using(crate::proofs::TreeLemmas::control_owns_none))]
fn add_own_fifo(mems: &[MemDecl], fifos: &mut Vec<u32>, kind: &StmtKind) -> Result<(), NoMemory>
    ensures { OnOk result ((place : ℕ) (rest : PlainStmts) → fifos.new.items ++ own_fifos (map plain_mem mems.now) rest ≡ fifos.old.items ++ own_fifos (map plain_mem mems.now) (more_stmt (stmt place (plain_stmt_kind kind.now)) rest)) }
{
    match kind {
        StmtKind::Declare(m) => {
            if is_fifo(kind_of(mems, *m)) {
                fifos.push(*m)?;
            }
            Ok(())
        }
        StmtKind::Control(_) => Ok(()),
        StmtKind::Let(_, _)
        | StmtKind::SetReg(_, _)
        | StmtKind::SetOut(_, _)
        | StmtKind::SetSram(_, _, _)
        | StmtKind::Enq(_, _)
        | StmtKind::LoadSram(_, _, _)
        | StmtKind::LoadLine(_, _, _)
        | StmtKind::Store(_, _, _)
        | StmtKind::Gather(_, _, _, _)
        | StmtKind::Scatter(_, _, _, _) => Ok(()),
    }
}

/// The FIFOs that the statements of a body declare themselves.
fn own_fifos(alloc: Global, mems: &[MemDecl], body: &[Stmt]) -> Result<Vec<u32>, NoMemory>
    ensures { IfOk result (λ fifos. fifos.items ≡ own_fifos (map plain_mem mems.now) (plain_stmts body.now)) }
{
    let mut fifos = Vec::new(alloc);
    for s in body {
        add_own_fifo(mems, &mut fifos, &s.kind)?;
    }
    Ok(fifos)
}

fn have_one_at_each_end(stages: &[StreamStage], fifos: &[u32]) -> bool
    ensures { result ≡ list_all (has_one_at_each_end (map stage_of stages.now)) fifos.now }
{
    for m in fifos {
        if !has_one_at_each_end(stages, *m) {
            return false;
        }
    }
    true
}

/// Whether the memories that two stages name are changed by none, but for these FIFOs.
fn are_unchanged(stages: &[StreamStage], fifos: &[u32], mems: &[u32]) -> bool
    ensures { result ≡ list_all (is_shared_unchanged (map stage_of stages.now)) (filter (λ m. not (is_among m fifos.now)) mems.now) }
{
    for m in mems {
        if !is_among(*m, fifos) && !is_shared_unchanged(stages, *m) {
            return false;
        }
    }
    true
}

fn all_uses(alloc: Global, stages: &[StreamStage]) -> Result<Vec<u32>, NoMemory>
    ensures { IfOk result (λ uses. uses.items ≡ flat_map (λ s. uses_of s.whole) (map stage_of stages.now)) }
{
    let mut uses = Vec::new(alloc);
    for stage in stages {
        stage.whole.add_uses(&mut uses)?;
    }
    Ok(uses)
}

/// Adds the edge between the two stages that a FIFO joins, if it joins two.
#[tactic(auto, using(crate::proofs::ForestLemmas::below_pushed))]
fn add_edge(all: &mut Vec<Edge>, stages: &[StreamStage], m: u32) -> Result<(), NoMemory>
    ensures edges { OnOk result (map edge_of all.new.items ≡ map edge_of all.old.items ++ joined_by (map stage_of stages.now) m) }
    ensures below { OnOk result (AreBelow (length stages.now) (map edge_of all.old.items) → AreBelow (length stages.now) (map edge_of all.new.items)) }
{
    match place_of_put(stages, m) {
        Some(one) => match place_of_take(stages, m) {
            Some(two) => {
                all.push(Edge { one, two })?;
                Ok(())
            }
            None => Ok(()),
        },
        None => Ok(()),
    }
}

/// The edges between the stages that these FIFOs join.
fn edges(alloc: Global, stages: &[StreamStage], fifos: &[u32]) -> Result<Vec<Edge>, NoMemory>
    ensures edges { IfOk result (λ all. map edge_of all.items ≡ flat_map (joined_by (map stage_of stages.now)) fifos.now) }
    ensures below { IfOk result (λ all. AreBelow (length stages.now) (map edge_of all.items)) }
{
    let mut all = Vec::new(alloc);
    for m in fifos {
        add_edge(&mut all, stages, *m)?;
    }
    Ok(all)
}

/// Whether a `Stream` block with this body is proper: its stages may work at the same time, each FIFO between two of them.
/// `mems` are the declarations of the program, in the order of their numbers.
pub fn is_proper(alloc: Global, mems: &[MemDecl], body: &[Stmt]) -> Result<bool, NoMemory>
    ensures { IfOk result (λ is. is ≡ is_proper (map plain_mem mems.now) (plain_stmts body.now)) }
{
    let Some(stages) = stream_stages(alloc, body)? else {
        return Ok(false);
    };
    let fifos = own_fifos(alloc, mems, body)?;
    let uses = all_uses(alloc, &stages)?;
    if !are_bounds_still(&stages) {
        return Ok(false);
    }
    if !have_one_at_each_end(&stages, &fifos) {
        return Ok(false);
    }
    if !are_unchanged(&stages, &fifos, &uses) {
        return Ok(false);
    }
    let edges = edges(alloc, &stages, &fifos)?;
    is_forest(alloc, stages.len(), &edges)
}

/// The FIFOs to which a block gives more room than their depth.
fn fifos_with_room(
    alloc: Global,
    mems: &[MemDecl],
    style: Style,
    body: &[Stmt],
) -> Result<Vec<u32>, NoMemory>
    ensures { IfOk result (λ fifos. fifos.items ≡ fifos_with_room (map plain_mem mems.now) style (plain_stmts body.now)) }
{
    match style {
        Style::Stream => {
            if is_proper(alloc, mems, body)? {
                return own_fifos(alloc, mems, body);
            }
            Ok(Vec::new(alloc))
        }
        Style::Pipe => Ok(Vec::new(alloc)),
        Style::Sequential => Ok(Vec::new(alloc)),
        Style::Parallel => Ok(Vec::new(alloc)),
    }
}

#[cycle(add_roomy)]
fn add_ctl_roomy(
    alloc: Global,
    mems: &[MemDecl],
    into: &mut Vec<u32>,
    ctl: &Ctl,
) -> Result<(), NoMemory>
    ensures { OnOk result (into.new.items ≡ into.old.items ++ kind_roomy (map plain_mem mems.now) (plain_ctl ctl.now)) }
{
    match ctl {
        Ctl::Block { style, body } => {
            into.extend_from_slice(&fifos_with_room(alloc, mems, *style, body)?)?;
            add_roomy(alloc, mems, into, body)
        }
        Ctl::Foreach { body, .. } => add_roomy(alloc, mems, into, body),
        Ctl::Reduce { body, .. } => add_roomy(alloc, mems, into, body),
        Ctl::MemReduce { body, .. } => add_roomy(alloc, mems, into, body),
        Ctl::Fsm { body, .. } => add_roomy(alloc, mems, into, body),
        Ctl::Branch { yes, no, .. } => {
            add_roomy(alloc, mems, into, yes)?;
            add_roomy(alloc, mems, into, no)
        }
    }
}

#[cycle(add_roomy)]
fn add_kind_roomy(
    alloc: Global,
    mems: &[MemDecl],
    into: &mut Vec<u32>,
    kind: &StmtKind,
) -> Result<(), NoMemory>
    ensures { OnOk result (into.new.items ≡ into.old.items ++ kind_roomy (map plain_mem mems.now) (plain_stmt_kind kind.now)) }
{
    match kind {
        StmtKind::Control(ctl) => add_ctl_roomy(alloc, mems, into, ctl),
        StmtKind::Declare(_)
        | StmtKind::Let(_, _)
        | StmtKind::SetReg(_, _)
        | StmtKind::SetOut(_, _)
        | StmtKind::SetSram(_, _, _)
        | StmtKind::Enq(_, _)
        | StmtKind::LoadSram(_, _, _)
        | StmtKind::LoadLine(_, _, _)
        | StmtKind::Store(_, _, _)
        | StmtKind::Gather(_, _, _, _)
        | StmtKind::Scatter(_, _, _, _) => Ok(()),
    }
}

/// Adds the numbers of the FIFOs to which the proper `Stream` blocks of a body give more room than their depth, in the order
/// of the text.
#[cycle(add_roomy)]
pub fn add_roomy(
    alloc: Global,
    mems: &[MemDecl],
    into: &mut Vec<u32>,
    body: &[Stmt],
) -> Result<(), NoMemory>
    ensures { OnOk result (into.new.items ≡ into.old.items ++ roomy_in (map plain_mem mems.now) (plain_stmts body.now)) }
{
    for s in body {
        add_kind_roomy(alloc, mems, into, &s.kind)?;
    }
    Ok(())
}
