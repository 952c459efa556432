//! The typed statements of a body.

ghost use Rattle.std.specs.Prelude.{◌≡◌, ◌+◌, IfOk, OnOk, length, map, Some};
ghost use Rattle.std.specs.Option.{option_map};
ghost use Rattle.sp_reader.specs.Plain as tree;
ghost use Rattle.sp_reader.specs.PlainProgram as syntax;
ghost use Rattle.sp_reader.specs.PlainStatement.{body as body_of};
ghost use Rattle.sp_reader.specs.PlainStatement as tree_stmt;
ghost use Rattle.sp_tree.specs.Plain.{plain_expr};
ghost use Rattle.sp_tree.specs.PlainStatement as program;
ghost use Rattle.sp_tree.specs.PlainTree.{plain_counter, plain_stmt_kind, plain_stmts};
ghost use Rattle.sp_types.specs.Statements as rule;
ghost use Rattle.sp_types.specs.Visible as shown;
ghost use Rattle.sp_typed.specs.Declarations as names;
ghost use Rattle.sp_typed.specs.Expressions as expression;
ghost use Rattle.sp_typed.specs.Named.{give};
ghost use Rattle.sp_typed.specs.Plain.{here_of};
ghost use Rattle.sp_typed.specs.Statements as spec;
ghost use Rattle.sp_words.specs.declared.kind.Kind.TheVariants.{Reg};

use crate::control::{block_of, branch_of, control, foreach_of, fsm_of, mem_reduce_of, reduce_of};
use crate::expression::{number_of, typed};
use crate::scope::{Scope, Symbol};
use crate::simple::{
    enq_typed, gather_typed, let_typed, load_typed, mem_typed, scatter_typed, set_at_typed,
    set_typed, store_typed,
};
use crate::span::{comb_typed, counters_typed, loop_style, next};
use crate::types::{type_by_itself, word_type};
use sp_reader::{Ident, SynCounter, SynExpr, SynExprKind, SynStmt, SynStmtKind};
use sp_tree::{Expr, Stmt, StmtKind};
use sp_words::{BinOp, Kind, Style, Ty};
use std::alloc::{AllocError, Global};

/// The names of the counters of a loop.
fn enter_loop(alloc: Global, scope: &mut Scope, binds: &[Ident]) -> Result<(), AllocError>
    ensures { OnOk result (here_of scope.new ≡ names.in_loop (here_of scope.old) (syntax.plain_idents binds.now)) }
{
    let mut number = scope.counters;
    for name in binds {
        scope.give(alloc, &name.text, Symbol::Counter, number)?;
        number = next(number)?;
    }
    scope.counters = number;
    Ok(())
}

/// An expression under a binder that stands for a state.
fn under_state(
    alloc: Global,
    scope: &mut Scope,
    name: &Ident,
    state: Ty,
    number: u32,
    ty: Ty,
    e: &SynExpr,
) -> Result<Expr, AllocError>
    ensures seen { OnOk result (here_of scope.new ≡ here_of scope.old) }
    ensures typed { IfOk result (λ r. plain_expr r ≡ expression.typed (spec.with_state (here_of scope.old) (tree.plain_ident name.now) state number) ty (tree.plain_expr e.now)) }
{
    let mark = scope.mark();
    scope.give(alloc, &name.text, Symbol::Value(Some(state)), number)?;
    let word = typed(alloc, scope, ty, e)?;
    scope.leave(mark);
    Ok(word)
}

/// The names in the body of an FSM.
fn enter_turn(alloc: Global, scope: &mut Scope, now: &Ident, state: Ty) -> Result<(), AllocError>
    ensures { OnOk result (here_of scope.new ≡ spec.in_fsm (here_of scope.old) (tree.plain_ident now.now) state) }
{
    let number = next(scope.vals)?;
    scope.give(alloc, &now.text, Symbol::Value(Some(state)), number)?;
    scope.vals = next(number)?;
    Ok(())
}

/// The next state of an FSM, under the last of its binders.
fn last_typed(
    alloc: Global,
    scope: &mut Scope,
    last: &Ident,
    state: Ty,
    e: &SynExpr,
) -> Result<Expr, AllocError>
    ensures seen { OnOk result (here_of scope.new ≡ record (here_of scope.old) { vals = (here_of scope.old).vals + 1 }) }
    ensures typed { IfOk result (λ r. plain_expr r ≡ expression.typed (spec.with_state (here_of scope.old) (tree.plain_ident last.now) state (here_of scope.old).vals) state (tree.plain_expr e.now)) }
{
    let number = scope.vals;
    let word = under_state(alloc, scope, last, state, number, state, e)?;
    scope.vals = next(number)?;
    Ok(word)
}

/// The number of the memory that an expression names.
fn part_number(scope: &Scope, e: &SynExpr) -> u32
    ensures { result ≡ spec.part_number (here_of scope.now) (tree.plain_expr e.now) }
{
    match bare_name(e) {
        Some(name) => number_of(scope, &name.text),
        None => 0,
    }
}

/// The name that an expression is, if it is one alone.
fn bare_name(e: &SynExpr) -> Option<&Ident>
    ensures { rule.bare_name (tree.plain_expr e.now) ≡ option_map (λ i. tree.plain_ident i.now) result }
{
    match &e.kind {
        SynExprKind::Name(name, false) => Some(name),
        _ => None,
    }
}

/// The statements of a body, each under what is visible after those before it.
#[cycle(statement)]
pub(crate) fn body_typed(
    alloc: Global,
    scope: &mut Scope,
    body: &[SynStmt],
) -> Result<Vec<Stmt>, AllocError>
    ensures seen { OnOk result (here_of scope.new ≡ names.after_all (here_of scope.old) (body_of (syntax.plain_stmts body.now))) }
    ensures typed { IfOk result (λ r. plain_stmts r.items ≡ spec.body_typed (here_of scope.old) (body_of (syntax.plain_stmts body.now))) }
{
    let mut typed_body = Vec::new(alloc);
    for stmt in body {
        let kind = stmt_typed(alloc, scope, stmt)?;
        typed_body.push(Stmt { at: stmt.at, kind })?;
    }
    Ok(typed_body)
}

/// The statements of a block, whose names end with it.
#[cycle(statement)]
fn block_typed(alloc: Global, scope: &mut Scope, body: &[SynStmt]) -> Result<Vec<Stmt>, AllocError>
    ensures seen { OnOk result (here_of scope.new ≡ names.past_body (here_of scope.old) (body_of (syntax.plain_stmts body.now))) }
    ensures typed { IfOk result (λ r. plain_stmts r.items ≡ spec.body_typed (here_of scope.old) (body_of (syntax.plain_stmts body.now))) }
{
    let mark = scope.mark();
    let typed_body = body_typed(alloc, scope, body)?;
    scope.leave(mark);
    Ok(typed_body)
}

/// The statements of a loop.
#[cycle(statement)]
fn loop_typed(
    alloc: Global,
    scope: &mut Scope,
    binds: &[Ident],
    body: &[SynStmt],
) -> Result<Vec<Stmt>, AllocError>
    ensures seen { OnOk result (here_of scope.new ≡ names.past_loop (here_of scope.old) (syntax.plain_idents binds.now) (body_of (syntax.plain_stmts body.now))) }
    ensures typed { IfOk result (λ r. plain_stmts r.items ≡ spec.body_typed (names.in_loop (here_of scope.old) (syntax.plain_idents binds.now)) (body_of (syntax.plain_stmts body.now))) }
{
    let mark = scope.mark();
    enter_loop(alloc, scope, binds)?;
    let typed_body = body_typed(alloc, scope, body)?;
    scope.leave(mark);
    Ok(typed_body)
}

/// The statements of a loop, and a value at their end.
#[cycle(statement)]
fn valued_typed(
    alloc: Global,
    scope: &mut Scope,
    binds: &[Ident],
    body: &[SynStmt],
    ty: Ty,
    value: &SynExpr,
) -> Result<(Vec<Stmt>, Expr), AllocError>
    ensures seen { OnOk result (here_of scope.new ≡ names.past_loop (here_of scope.old) (syntax.plain_idents binds.now) (body_of (syntax.plain_stmts body.now))) }
    ensures typed { IfOk result (λ r. plain_stmts r.0.items ≡ spec.body_typed (names.in_loop (here_of scope.old) (syntax.plain_idents binds.now)) (body_of (syntax.plain_stmts body.now))) }
    ensures value { IfOk result (λ r. plain_expr r.1 ≡ expression.typed (names.after_all (names.in_loop (here_of scope.old) (syntax.plain_idents binds.now)) (body_of (syntax.plain_stmts body.now))) ty (tree.plain_expr value.now)) }
{
    let mark = scope.mark();
    enter_loop(alloc, scope, binds)?;
    let typed_body = body_typed(alloc, scope, body)?;
    let word = typed(alloc, scope, ty, value)?;
    scope.leave(mark);
    Ok((typed_body, word))
}

/// The statements of a loop, and the memory that a value at their end names.
#[cycle(statement)]
fn parted_typed(
    alloc: Global,
    scope: &mut Scope,
    binds: &[Ident],
    body: &[SynStmt],
    value: &SynExpr,
) -> Result<(Vec<Stmt>, u32), AllocError>
    ensures seen { OnOk result (here_of scope.new ≡ names.past_loop (here_of scope.old) (syntax.plain_idents binds.now) (body_of (syntax.plain_stmts body.now))) }
    ensures typed { IfOk result (λ r. plain_stmts r.0.items ≡ spec.body_typed (names.in_loop (here_of scope.old) (syntax.plain_idents binds.now)) (body_of (syntax.plain_stmts body.now))) }
    ensures part { IfOk result (λ r. r.1 ≡ spec.part_number (names.after_all (names.in_loop (here_of scope.old) (syntax.plain_idents binds.now)) (body_of (syntax.plain_stmts body.now))) (tree.plain_expr value.now)) }
{
    let mark = scope.mark();
    enter_loop(alloc, scope, binds)?;
    let typed_body = body_typed(alloc, scope, body)?;
    let part = part_number(scope, value);
    scope.leave(mark);
    Ok((typed_body, part))
}

/// The statements of an FSM's body, where `now` stands for the state.
#[cycle(statement)]
fn turn_typed(
    alloc: Global,
    scope: &mut Scope,
    now: &Ident,
    state: Ty,
    body: &[SynStmt],
) -> Result<Vec<Stmt>, AllocError>
    ensures seen { OnOk result (here_of scope.new ≡ names.past_turn (here_of scope.old) (body_of (syntax.plain_stmts body.now))) }
    ensures typed { IfOk result (λ r. plain_stmts r.items ≡ spec.body_typed (spec.in_fsm (here_of scope.old) (tree.plain_ident now.now) state) (body_of (syntax.plain_stmts body.now))) }
{
    let mark = scope.mark();
    enter_turn(alloc, scope, now, state)?;
    let typed_body = body_typed(alloc, scope, body)?;
    scope.leave(mark);
    Ok(typed_body)
}

#[cycle(statement)]
fn foreach_typed(
    alloc: Global,
    scope: &mut Scope,
    style: Option<Style>,
    counters: &[SynCounter],
    binds: &[Ident],
    body: &[SynStmt],
) -> Result<StmtKind, AllocError>
    ensures seen { OnOk result (here_of scope.new ≡ names.past_loop (here_of scope.old) (syntax.plain_idents binds.now) (body_of (syntax.plain_stmts body.now))) }
    ensures typed { IfOk result (λ r. plain_stmt_kind r ≡ program.foreach (spec.loop_style style) (spec.counters_typed (here_of scope.old) (here_of scope.old).counters (syntax.plain_counters counters.now)) (spec.body_typed (names.in_loop (here_of scope.old) (syntax.plain_idents binds.now)) (body_of (syntax.plain_stmts body.now)))) }
{
    let typed_counters = counters_typed(alloc, scope, counters)?;
    let typed_body = loop_typed(alloc, scope, binds, body)?;
    control(
        alloc,
        foreach_of(loop_style(style), typed_counters, typed_body),
    )
}

/// A Reduce or a Fold.
#[cycle(statement)]
fn reduce_typed(
    alloc: Global,
    scope: &mut Scope,
    style: Option<Style>,
    fold: bool,
    counters: &[SynCounter],
    binds: &[Ident],
    body: &[SynStmt],
    acc: &Ident,
    value: &SynExpr,
    op: BinOp,
) -> Result<StmtKind, AllocError>
    ensures seen { OnOk result (here_of scope.new ≡ names.past_loop (here_of scope.old) (syntax.plain_idents binds.now) (body_of (syntax.plain_stmts body.now))) }
    ensures typed { IfOk result (λ r. plain_stmt_kind r ≡ program.reduce (spec.loop_style style) fold (expression.number_of (here_of scope.old) (tree.plain_ident acc.now)) (spec.counters_typed (here_of scope.old) (here_of scope.old).counters (syntax.plain_counters counters.now)) (spec.body_typed (names.in_loop (here_of scope.old) (syntax.plain_idents binds.now)) (body_of (syntax.plain_stmts body.now))) (expression.typed (names.after_all (names.in_loop (here_of scope.old) (syntax.plain_idents binds.now)) (body_of (syntax.plain_stmts body.now))) (expression.word_type (here_of scope.old) (tree.plain_ident acc.now)) (tree.plain_expr value.now)) (spec.comb_typed op)) }
{
    let number = number_of(scope, &acc.text);
    let ty = word_type(scope, &acc.text);
    let typed_counters = counters_typed(alloc, scope, counters)?;
    let (typed_body, word) = valued_typed(alloc, scope, binds, body, ty, value)?;
    let ctl = reduce_of(
        loop_style(style),
        fold,
        number,
        typed_counters,
        typed_body,
        word,
        comb_typed(op),
    );
    control(alloc, ctl)
}

#[cycle(statement)]
fn mem_reduce_typed(
    alloc: Global,
    scope: &mut Scope,
    style: Option<Style>,
    counters: &[SynCounter],
    binds: &[Ident],
    body: &[SynStmt],
    acc: &Ident,
    value: &SynExpr,
    op: BinOp,
) -> Result<StmtKind, AllocError>
    ensures seen { OnOk result (here_of scope.new ≡ names.past_loop (here_of scope.old) (syntax.plain_idents binds.now) (body_of (syntax.plain_stmts body.now))) }
    ensures typed { IfOk result (λ r. plain_stmt_kind r ≡ program.mem_reduce (spec.loop_style style) (expression.number_of (here_of scope.old) (tree.plain_ident acc.now)) (spec.counters_typed (here_of scope.old) (here_of scope.old).counters (syntax.plain_counters counters.now)) (spec.body_typed (names.in_loop (here_of scope.old) (syntax.plain_idents binds.now)) (body_of (syntax.plain_stmts body.now))) (spec.part_number (names.after_all (names.in_loop (here_of scope.old) (syntax.plain_idents binds.now)) (body_of (syntax.plain_stmts body.now))) (tree.plain_expr value.now)) (spec.comb_typed op)) }
{
    let number = number_of(scope, &acc.text);
    let typed_counters = counters_typed(alloc, scope, counters)?;
    let (typed_body, part) = parted_typed(alloc, scope, binds, body, value)?;
    let ctl = mem_reduce_of(
        loop_style(style),
        number,
        typed_counters,
        typed_body,
        part,
        comb_typed(op),
    );
    control(alloc, ctl)
}

/// A statement, after which what it declares is visible.
#[cycle(statement)]
fn stmt_typed(alloc: Global, scope: &mut Scope, stmt: &SynStmt) -> Result<StmtKind, AllocError>
    ensures seen { OnOk result (here_of scope.new ≡ names.after (here_of scope.old) (syntax.plain_stmt_kind stmt.now.kind)) }
    ensures typed { IfOk result (λ r. plain_stmt_kind r ≡ spec.stmt_typed (here_of scope.old) (syntax.plain_stmt_kind stmt.now.kind)) }
{
    match &stmt.kind {
        SynStmtKind::Reg(name, ty, _) => {
            mem_typed(alloc, scope, Kind::Reg, name, *ty, Vec::new(alloc))
        }
        SynStmtKind::Sram(name, ty, dims) => {
            mem_typed(alloc, scope, Kind::Sram, name, *ty, dims.to_vec(alloc)?)
        }
        SynStmtKind::Fifo(name, ty, depth) => {
            let dims = vec![in alloc; *depth]?;
            mem_typed(alloc, scope, Kind::Fifo, name, *ty, dims)
        }
        SynStmtKind::LineBuffer(name, ty, rows, columns) => {
            let dims = vec![in alloc; *rows, *columns]?;
            mem_typed(alloc, scope, Kind::LineBuf, name, *ty, dims)
        }
        SynStmtKind::Let(name, e) => let_typed(alloc, scope, name, e),
        SynStmtKind::Set(name, e) => set_typed(alloc, scope, name, e),
        SynStmtKind::SetAt(name, indices, e) => set_at_typed(alloc, scope, name, indices, e),
        SynStmtKind::Enq(name, e) => enq_typed(alloc, scope, name, e),
        SynStmtKind::Load(onto, from, spans) => load_typed(alloc, scope, onto, from, spans),
        SynStmtKind::Store(onto, spans, from) => store_typed(alloc, scope, onto, spans, from),
        SynStmtKind::Gather(onto, from, places, count) => {
            gather_typed(alloc, scope, onto, from, places, count)
        }
        SynStmtKind::Scatter(onto, places, count, from) => {
            scatter_typed(alloc, scope, onto, places, count, from)
        }
        SynStmtKind::Block(style, body) => {
            let typed_body = block_typed(alloc, scope, body)?;
            control(alloc, block_of(*style, typed_body))
        }
        SynStmtKind::Foreach(l) => {
            foreach_typed(alloc, scope, l.style, &l.counters, &l.binds, &l.body)
        }
        SynStmtKind::Reduce(l, acc, value, comb) => reduce_typed(
            alloc,
            scope,
            l.style,
            false,
            &l.counters,
            &l.binds,
            &l.body,
            acc,
            value,
            comb.op,
        ),
        SynStmtKind::Fold(l, acc, value, comb) => reduce_typed(
            alloc,
            scope,
            l.style,
            true,
            &l.counters,
            &l.binds,
            &l.body,
            acc,
            value,
            comb.op,
        ),
        SynStmtKind::MemReduce(l, acc, value, comb) => mem_reduce_typed(
            alloc,
            scope,
            l.style,
            &l.counters,
            &l.binds,
            &l.body,
            acc,
            value,
            comb.op,
        ),
        SynStmtKind::Fsm(start, tested, test, now, body, last, state) => {
            let ty = type_by_itself(scope, start);
            let first = scope.vals;
            let typed_start = typed(alloc, scope, ty, start)?;
            let typed_test = under_state(alloc, scope, tested, ty, first, Ty::Bit, test)?;
            let typed_body = turn_typed(alloc, scope, now, ty, body)?;
            let end = scope.vals;
            let typed_next = last_typed(alloc, scope, last, ty, state)?;
            let ctl = fsm_of(typed_start, first, typed_test, typed_body, end, typed_next)?;
            control(alloc, ctl)
        }
        SynStmtKind::If(test, first, second) => {
            let typed_test = typed(alloc, scope, Ty::Bit, test)?;
            let yes = block_typed(alloc, scope, first)?;
            let no = block_typed(alloc, scope, second)?;
            control(alloc, branch_of(typed_test, yes, no))
        }
    }
}
