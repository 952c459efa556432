//! Controllers of their parts.

ghost use Rattle.std.specs.Prelude.{◌≡◌, ◌+◌, IfOk, map};
ghost use Rattle.sp_tree.specs.Plain.{plain_expr};
ghost use Rattle.sp_tree.specs.PlainStatement as program;
ghost use Rattle.sp_tree.specs.PlainTree.{plain_counter, plain_ctl, plain_stmt_kind, plain_stmts};

use crate::span::next as after;
use sp_tree::{Comb, Counter, Ctl, Expr, Stmt, StmtKind, ValId};
use sp_words::{MemId, Style};
use std::alloc::{AllocError, Global};

/// A controller as a statement.
pub(crate) fn control(alloc: Global, ctl: Ctl) -> Result<StmtKind, AllocError>
    ensures { IfOk result (λ r. plain_stmt_kind r ≡ plain_ctl ctl) }
{
    Ok(StmtKind::Control(Box::new(alloc, ctl)?))
}

pub(crate) fn block_of(style: Style, body: Vec<Stmt>) -> Ctl
    ensures { plain_ctl result ≡ program.block style (plain_stmts body.items) }
{
    Ctl::Block { style, body }
}

pub(crate) fn foreach_of(style: Style, counters: Vec<Counter>, body: Vec<Stmt>) -> Ctl
    ensures { plain_ctl result ≡ program.foreach style (map plain_counter counters.items) (plain_stmts body.items) }
{
    Ctl::Foreach {
        style,
        counters,
        body,
    }
}

pub(crate) fn reduce_of(
    style: Style,
    fold: bool,
    acc: u32,
    counters: Vec<Counter>,
    body: Vec<Stmt>,
    value: Expr,
    comb: Comb,
) -> Ctl
    ensures { plain_ctl result ≡ program.reduce style fold acc (map plain_counter counters.items) (plain_stmts body.items) (plain_expr value) comb }
{
    let acc = MemId::new(acc);
    Ctl::Reduce {
        style,
        fold,
        acc,
        counters,
        body,
        value,
        comb,
    }
}

pub(crate) fn mem_reduce_of(
    style: Style,
    acc: u32,
    counters: Vec<Counter>,
    body: Vec<Stmt>,
    part: u32,
    comb: Comb,
) -> Ctl
    ensures { plain_ctl result ≡ program.mem_reduce style acc (map plain_counter counters.items) (plain_stmts body.items) part comb }
{
    let acc = MemId::new(acc);
    let part = MemId::new(part);
    Ctl::MemReduce {
        style,
        acc,
        counters,
        body,
        part,
        comb,
    }
}

pub(crate) fn fsm_of(
    start: Expr,
    first: u32,
    test: Expr,
    body: Vec<Stmt>,
    last: u32,
    next: Expr,
) -> Result<Ctl, AllocError>
    ensures { IfOk result (λ r. plain_ctl r ≡ program.fsm (plain_expr start) first (plain_expr test) (first + 1) (plain_stmts body.items) last (plain_expr next)) }
{
    let state = after(first)?;
    Ok(Ctl::Fsm {
        start,
        tested: ValId::new(first),
        test,
        state: ValId::new(state),
        body,
        last: ValId::new(last),
        next,
    })
}

pub(crate) fn branch_of(test: Expr, yes: Vec<Stmt>, no: Vec<Stmt>) -> Ctl
    ensures { plain_ctl result ≡ program.branch (plain_expr test) (plain_stmts yes.items) (plain_stmts no.items) }
{
    Ctl::Branch { test, yes, no }
}
