//! How many declarations, statements and expressions there are.

ghost use Rattle.std.specs.Prelude.{◌≡◌, ◌+◌, map, count_by, sum_by, IfOk};
ghost use Rattle.sp_tree.specs.Counts.{is_port, nodes_in, kind_nodes};
ghost use Rattle.sp_tree.specs.Plain.{plain_mem};
ghost use Rattle.sp_tree.specs.PlainTree.{plain_ctl, plain_stmt_kind, plain_stmts};
ghost use Rattle.sp_tree.specs.Structure.{outside};
ghost use Rattle.sp_counts.specs.Capped.{capped};
ghost use Rattle.sp_counts.specs.Tallies.{tally_of, primitive_tally};

use crate::NoMemory;
use crate::outside::outside;
use crate::tally::Tally;
use sp_tree::{Ctl, MemDecl, Stmt, StmtKind};
use sp_words::Kind;
use std::alloc::Global;

fn sum_nodes(tallies: &[Tally]) -> u64
    ensures { result ≡ capped (sum_by (λ t. t.nodes) (map tally_of tallies.now)) }
{
    let mut total: u64 = 0;
    for t in tallies {
        total = total.saturating_add(t.nodes);
    }
    total
}

fn primitive_nodes(alloc: Global, kind: &StmtKind) -> Result<u64, NoMemory>
    ensures { IfOk result (λ n. n ≡ (primitive_tally (plain_stmt_kind kind.now)).nodes) }
{
    let mut words = Tally::new(alloc);
    words.add_primitive(kind)?;
    Ok(words.nodes)
}

#[cycle(nodes_in)]
fn ctl_nodes(alloc: Global, ctl: &Ctl) -> Result<u64, NoMemory>
    ensures { IfOk result (λ n. n ≡ capped (kind_nodes (plain_ctl ctl.now))) }
{
    match ctl {
        Ctl::Block { body, .. } => nodes_in(alloc, body),
        Ctl::Foreach { body, .. } => nodes_in(alloc, body),
        Ctl::Reduce { body, value, .. } => {
            let word = Tally::of_expr(alloc, value)?;
            Ok(nodes_in(alloc, body)?.saturating_add(word.nodes))
        }
        Ctl::MemReduce { body, .. } => nodes_in(alloc, body),
        Ctl::Fsm {
            start,
            test,
            body,
            next,
            ..
        } => {
            let mut words = Tally::of_expr(alloc, start)?;
            words.add_expr(test)?;
            words.add_expr(next)?;
            Ok(words.nodes.saturating_add(nodes_in(alloc, body)?))
        }
        Ctl::Branch { test, yes, no } => {
            let tested = Tally::of_expr(alloc, test)?;
            let first = tested.nodes.saturating_add(nodes_in(alloc, yes)?);
            Ok(first.saturating_add(nodes_in(alloc, no)?))
        }
    }
}

#[cycle(nodes_in)]
fn kind_nodes(alloc: Global, kind: &StmtKind) -> Result<u64, NoMemory>
    ensures { IfOk result (λ n. n ≡ capped (kind_nodes (plain_stmt_kind kind.now))) }
{
    match kind {
        StmtKind::Control(ctl) => ctl_nodes(alloc, ctl),
        StmtKind::Declare(_)
        | StmtKind::Let(_, _)
        | StmtKind::SetReg(_, _)
        | StmtKind::SetOut(_, _)
        | StmtKind::SetSram(_, _, _)
        | StmtKind::Enq(_, _) => primitive_nodes(alloc, kind),
        StmtKind::LoadSram(_, _, _)
        | StmtKind::LoadLine(_, _, _)
        | StmtKind::Store(_, _, _)
        | StmtKind::Gather(_, _, _, _)
        | StmtKind::Scatter(_, _, _, _) => Ok(0),
    }
}

/// Statements and expressions.
#[cycle(nodes_in)]
fn nodes_in(alloc: Global, body: &[Stmt]) -> Result<u64, NoMemory>
    ensures { IfOk result (λ n. n ≡ capped (nodes_in (plain_stmts body.now))) }
{
    let mut total: u64 = 0;
    for s in body {
        let bounds = sum_nodes(&outside(alloc, &s.kind)?);
        let inside = kind_nodes(alloc, &s.kind)?;
        total = total
            .saturating_add(1)
            .saturating_add(bounds)
            .saturating_add(inside);
    }
    Ok(total)
}

/// Arguments, outputs and DRAMs.
pub(crate) fn is_port(kind: Kind) -> bool
    ensures { result ≡ is_port kind }
{
    match kind {
        Kind::Dram => true,
        Kind::ArgIn => true,
        Kind::ArgOut => true,
        _ => false,
    }
}

fn count_ports(mems: &[MemDecl]) -> u64
    ensures { result ≡ capped (count_by (λ m. is_port m.kind) (map plain_mem mems.now)) }
{
    let mut total: u64 = 0;
    for mem in mems {
        if is_port(mem.kind) {
            total = total.saturating_add(1);
        }
    }
    total
}

/// Declarations, statements and expressions.
pub(crate) fn node_count(alloc: Global, mems: &[MemDecl], body: &[Stmt]) -> Result<u64, NoMemory>
    ensures { IfOk result (λ n. n ≡ capped (count_by (λ m. is_port m.kind) (map plain_mem mems.now) + nodes_in (plain_stmts body.now))) }
{
    Ok(count_ports(mems).saturating_add(nodes_in(alloc, body)?))
}
