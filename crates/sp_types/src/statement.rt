//! The refusals of statements.

ghost use Rattle.std.specs.Prelude.{◌≡◌, ◌++◌, [], length, OnOk, None, Some};
ghost use Rattle.sp_reader.specs.Plain.{plain_expr, plain_ident};
ghost use Rattle.sp_reader.specs.PlainProgram.{plain_comb, plain_counters, plain_idents, plain_start, plain_stmt_kind, plain_stmts};
ghost use Rattle.sp_reader.specs.PlainStatement as tree;
ghost use Rattle.sp_types.specs.First.{notes};
ghost use Rattle.sp_types.specs.Plain.{plain_symbol, visible_of};
ghost use Rattle.sp_types.specs.Spans.{twice, with_binds};
ghost use Rattle.sp_types.specs.Statements as spec;
ghost use Rattle.sp_types.specs.Types.{type_of};
ghost use Rattle.sp_types.specs.Visible as shown;
ghost use Rattle.sp_types.specs.Visible.{symbol_of, declare, value};
ghost use Rattle.sp_words.specs.declared.kind.Kind.TheVariants.{Reg};

use crate::controller::{
    check_acc, check_binder, check_head, check_part, check_under, check_value, is_visible,
    state_type, still,
};
use crate::expression::check;
use crate::refusal::Finding;
use crate::scope::{Scope, Symbol};
use crate::simple::{
    check_declaration, check_enq, check_let, check_set, check_set_at, check_start,
};
use crate::span::check_comb;
use crate::transfer::{check_gather, check_load, check_scatter, check_store};
use crate::types::{name_type, own, own_or_int, type_of};
use sp_reader::{Ident, SynComb, SynCounter, SynExpr, SynLit, SynStmt, SynStmtKind, SynTy};
use sp_words::{Kind, Ty};
use std::alloc::{AllocError, Global};

/// A memory with these dimensions.
pub(crate) fn memory(kind: Kind, ty: SynTy, dims: Vec<u32>) -> Symbol
    ensures { plain_symbol result ≡ shown.memory kind (type_of ty) dims.items }
{
    Symbol::Memory {
        kind,
        ty: type_of(ty),
        dims,
    }
}

#[tactic(auto, using(crate::proofs::FindingLemmas::notes_append))]
fn check_reg(
    alloc: Global,
    scope: &mut Scope,
    name: &Ident,
    ty: SynTy,
    start: &Option<SynLit>,
    finding: &mut Finding,
) -> Result<(), AllocError>
    ensures seen { OnOk result (visible_of scope.new ≡ declare (visible_of scope.old) (plain_ident name.now).text (shown.memory Reg (type_of ty) [])) }
    ensures found { OnOk result (finding.new.first ≡ notes finding.old.first (spec.declaration_refusals (visible_of scope.old) (plain_ident name.now) ty ++ spec.start_refusals (type_of ty) (plain_start start.now))) }
{
    check_declaration(scope, name, ty, finding);
    check_start(type_of(ty), start, finding);
    scope.declare(alloc, &name.text, memory(Kind::Reg, ty, Vec::new(alloc)))
}

/// A memory other than a register.
fn check_memory(
    alloc: Global,
    scope: &mut Scope,
    kind: Kind,
    name: &Ident,
    ty: SynTy,
    dims: &[u32],
    finding: &mut Finding,
) -> Result<(), AllocError>
    ensures seen { OnOk result (visible_of scope.new ≡ declare (visible_of scope.old) (plain_ident name.now).text (shown.memory kind (type_of ty) dims.now)) }
    ensures found { OnOk result (finding.new.first ≡ notes finding.old.first (spec.declaration_refusals (visible_of scope.old) (plain_ident name.now) ty)) }
{
    check_declaration(scope, name, ty, finding);
    let dims = dims.to_vec(alloc)?;
    scope.declare(alloc, &name.text, memory(kind, ty, dims))
}

fn check_val(
    alloc: Global,
    scope: &mut Scope,
    at: u32,
    name: &Ident,
    e: &SynExpr,
    finding: &mut Finding,
) -> Result<(), AllocError>
    ensures seen { OnOk result (visible_of scope.new ≡ spec.after (visible_of scope.old) (tree.bind (plain_ident name.now) (plain_expr e.now))) }
    ensures found { OnOk result (finding.new.first ≡ notes finding.old.first (spec.stmt_refusals (visible_of scope.old) at (tree.bind (plain_ident name.now) (plain_expr e.now)))) }
{
    check_let(scope, at, name, e, finding);
    let ty = own_or_int(own(scope, e));
    scope.declare(alloc, &name.text, Symbol::Value(ty))
}

/// The statements of a body, each under what is visible after those before it.
#[cycle(statement)]
pub(crate) fn check_body(
    alloc: Global,
    scope: &mut Scope,
    body: &[SynStmt],
    finding: &mut Finding,
) -> Result<(), AllocError>
    ensures seen { OnOk result (visible_of scope.new ≡ spec.after_all (visible_of scope.old) (tree.body (plain_stmts body.now))) }
    ensures found { OnOk result (finding.new.first ≡ notes finding.old.first (spec.body_refusals (visible_of scope.old) (tree.body (plain_stmts body.now)))) }
{
    for stmt in body {
        check_stmt(alloc, scope, stmt, finding)?;
    }
    Ok(())
}

/// The statements of a block, whose names end with it.
#[cycle(statement)]
#[tactic(auto, using(crate::proofs::GrowthLemmas::back_body))]
fn check_block(
    alloc: Global,
    scope: &mut Scope,
    body: &[SynStmt],
    finding: &mut Finding,
) -> Result<(), AllocError>
    ensures seen { OnOk result (visible_of scope.new ≡ visible_of scope.old) }
    ensures found { OnOk result (finding.new.first ≡ notes finding.old.first (spec.body_refusals (visible_of scope.old) (tree.body (plain_stmts body.now)))) }
{
    let mark = scope.mark();
    check_body(alloc, scope, body, finding)?;
    scope.leave(mark);
    Ok(())
}

#[cycle(statement)]
#[tactic(auto, using(crate::proofs::FindingLemmas::notes_append, crate::proofs::GrowthLemmas::back_loop))]
fn check_foreach(
    alloc: Global,
    scope: &mut Scope,
    counters: &[SynCounter],
    binds: &[Ident],
    body: &[SynStmt],
    finding: &mut Finding,
) -> Result<(), AllocError>
    ensures seen { OnOk result (visible_of scope.new ≡ visible_of scope.old) }
    ensures found { OnOk result (finding.new.first ≡ notes finding.old.first (spec.head_refusals (visible_of scope.old) (plain_counters counters.now) (plain_idents binds.now)
        ++ spec.body_refusals (with_binds (visible_of scope.old) (plain_idents binds.now)) (tree.body (plain_stmts body.now)))) }
{
    let mark = scope.mark();
    check_head(alloc, scope, counters, binds, finding)?;
    check_body(alloc, scope, body, finding)?;
    scope.leave(mark);
    Ok(())
}

/// A Reduce or a Fold.
#[cycle(statement)]
#[tactic(auto, using(crate::proofs::FindingLemmas::notes_append, crate::proofs::GrowthLemmas::back_acc))]
fn check_reduce(
    alloc: Global,
    scope: &mut Scope,
    counters: &[SynCounter],
    binds: &[Ident],
    body: &[SynStmt],
    acc: &Ident,
    last: &SynExpr,
    comb: &SynComb,
    finding: &mut Finding,
) -> Result<(), AllocError>
    ensures seen { OnOk result (visible_of scope.new ≡ visible_of scope.old) }
    ensures found { OnOk result (finding.new.first ≡ notes finding.old.first (spec.reduced (visible_of scope.old) (plain_counters counters.now) (plain_idents binds.now) (plain_ident acc.now)
        (spec.body_refusals (spec.acc_inside (visible_of scope.old) (plain_idents binds.now) (plain_ident acc.now)) (tree.body (plain_stmts body.now)))
        (spec.after_all (spec.acc_inside (visible_of scope.old) (plain_idents binds.now) (plain_ident acc.now)) (tree.body (plain_stmts body.now)))
        (plain_expr last.now) (plain_comb comb.now))) }
{
    let mark = scope.mark();
    let ty = name_type(scope, &acc.text);
    check_acc(alloc, scope, Kind::Reg, counters, binds, acc, finding)?;
    scope.hold(alloc, &acc.text)?;
    check_body(alloc, scope, body, finding)?;
    check_value(ty, scope, last, comb, finding);
    scope.leave(mark);
    Ok(())
}

#[cycle(statement)]
#[tactic(auto, using(crate::proofs::FindingLemmas::notes_append, crate::proofs::GrowthLemmas::back_acc))]
fn check_mem_reduce(
    alloc: Global,
    scope: &mut Scope,
    counters: &[SynCounter],
    binds: &[Ident],
    body: &[SynStmt],
    acc: &Ident,
    last: &SynExpr,
    comb: &SynComb,
    finding: &mut Finding,
) -> Result<(), AllocError>
    ensures seen { OnOk result (visible_of scope.new ≡ visible_of scope.old) }
    ensures found { OnOk result (finding.new.first ≡ notes finding.old.first (spec.mem_reduced (visible_of scope.old) (plain_counters counters.now) (plain_idents binds.now) (plain_ident acc.now)
        (spec.body_refusals (spec.acc_inside (visible_of scope.old) (plain_idents binds.now) (plain_ident acc.now)) (tree.body (plain_stmts body.now)))
        (spec.after_all (spec.acc_inside (visible_of scope.old) (plain_idents binds.now) (plain_ident acc.now)) (tree.body (plain_stmts body.now)))
        (plain_expr last.now) (plain_comb comb.now))) }
{
    let mark = scope.mark();
    let ty = name_type(scope, &acc.text);
    check_acc(alloc, scope, Kind::Sram, counters, binds, acc, finding)?;
    let outside = is_visible(scope, last);
    scope.hold(alloc, &acc.text)?;
    check_body(alloc, scope, body, finding)?;
    check_part(scope, outside, acc, last, finding);
    check_comb(ty, comb, finding);
    scope.leave(mark);
    Ok(())
}

/// The body of an FSM under its binder.
#[cycle(statement)]
#[tactic(auto, using(crate::proofs::FindingLemmas::notes_append, crate::proofs::GrowthLemmas::back_declared_body))]
fn check_turn(
    alloc: Global,
    scope: &mut Scope,
    name: &Ident,
    ty: Option<Ty>,
    body: &[SynStmt],
    finding: &mut Finding,
) -> Result<(), AllocError>
    ensures seen { OnOk result (visible_of scope.new ≡ visible_of scope.old) }
    ensures found { OnOk result (finding.new.first ≡ notes finding.old.first (twice (visible_of scope.old) (plain_ident name.now)
        ++ spec.body_refusals (declare (visible_of scope.old) (plain_ident name.now).text (value ty)) (tree.body (plain_stmts body.now)))) }
{
    let mark = scope.mark();
    check_binder(alloc, scope, name, ty, finding)?;
    check_body(alloc, scope, body, finding)?;
    scope.leave(mark);
    Ok(())
}

/// The start and the test of an FSM.
#[tactic(auto, using(crate::proofs::FindingLemmas::notes_append))]
fn check_begin(
    alloc: Global,
    scope: &mut Scope,
    start: &SynExpr,
    tested: &Ident,
    test: &SynExpr,
    finding: &mut Finding,
) -> Result<(), AllocError>
    ensures seen { OnOk result (visible_of scope.new ≡ visible_of scope.old) }
    ensures found { OnOk result (finding.new.first ≡ notes finding.old.first (spec.begin_refusals (visible_of scope.old) (plain_expr start.now) (plain_ident tested.now) (plain_expr test.now))) }
{
    let ty = state_type(scope, start);
    check(scope, still(ty), start, finding);
    check_under(
        alloc,
        scope,
        tested,
        ty,
        still(Some(Ty::Bit)),
        test,
        finding,
    )
}

/// A statement, after which what it declares is visible.
#[cycle(statement)]
fn check_stmt(
    alloc: Global,
    scope: &mut Scope,
    stmt: &SynStmt,
    finding: &mut Finding,
) -> Result<(), AllocError>
    ensures seen { OnOk result (visible_of scope.new ≡ spec.after (visible_of scope.old) (plain_stmt_kind stmt.now.kind)) }
    ensures found { OnOk result (finding.new.first ≡ notes finding.old.first (spec.stmt_refusals (visible_of scope.old) stmt.now.at (plain_stmt_kind stmt.now.kind))) }
{
    match &stmt.kind {
        SynStmtKind::Reg(name, ty, start) => check_reg(alloc, scope, name, *ty, start, finding),
        SynStmtKind::Sram(name, ty, dims) => {
            check_memory(alloc, scope, Kind::Sram, name, *ty, dims, finding)
        }
        SynStmtKind::Fifo(name, ty, depth) => {
            check_memory(alloc, scope, Kind::Fifo, name, *ty, &[*depth], finding)
        }
        SynStmtKind::LineBuffer(name, ty, rows, columns) => {
            check_memory(
                alloc,
                scope,
                Kind::LineBuf,
                name,
                *ty,
                &[*rows, *columns],
                finding,
            )
        }
        SynStmtKind::Let(name, e) => check_val(alloc, scope, stmt.at, name, e, finding),
        SynStmtKind::Set(name, e) => {
            check_set(scope, stmt.at, name, e, finding);
            Ok(())
        }
        SynStmtKind::SetAt(name, indices, e) => {
            check_set_at(scope, name, indices, e, finding);
            Ok(())
        }
        SynStmtKind::Enq(name, e) => {
            check_enq(scope, stmt.at, name, e, finding);
            Ok(())
        }
        SynStmtKind::Load(onto, from, spans) => {
            check_load(scope, stmt.at, onto, from, spans, finding);
            Ok(())
        }
        SynStmtKind::Store(onto, spans, from) => {
            check_store(scope, stmt.at, onto, spans, from, finding);
            Ok(())
        }
        SynStmtKind::Gather(onto, from, places, count) => {
            check_gather(scope, stmt.at, onto, from, places, count, finding);
            Ok(())
        }
        SynStmtKind::Scatter(onto, places, count, from) => {
            check_scatter(scope, stmt.at, onto, places, count, from, finding);
            Ok(())
        }
        SynStmtKind::Block(_, body) => check_block(alloc, scope, body, finding),
        SynStmtKind::Foreach(l) => check_foreach(
            alloc,
            scope,
            &l.counters,
            &l.binds,
            &l.body,
            finding,
        ),
        SynStmtKind::Reduce(l, acc, last, comb) => {
            check_reduce(
                alloc,
                scope,
                &l.counters,
                &l.binds,
                &l.body,
                acc,
                last,
                comb,
                finding,
            )
        }
        SynStmtKind::Fold(l, acc, last, comb) => {
            check_reduce(
                alloc,
                scope,
                &l.counters,
                &l.binds,
                &l.body,
                acc,
                last,
                comb,
                finding,
            )
        }
        SynStmtKind::MemReduce(l, acc, last, comb) => {
            check_mem_reduce(
                alloc,
                scope,
                &l.counters,
                &l.binds,
                &l.body,
                acc,
                last,
                comb,
                finding,
            )
        }
        SynStmtKind::Fsm(start, tested, test, now, body, last, next) => {
            let ty = state_type(scope, start);
            check_begin(alloc, scope, start, tested, test, finding)?;
            check_turn(alloc, scope, now, ty, body, finding)?;
            check_under(alloc, scope, last, ty, still(ty), next, finding)
        }
        SynStmtKind::If(test, first, second) => {
            check(scope, still(Some(Ty::Bit)), test, finding);
            check_block(alloc, scope, first, finding)?;
            check_block(alloc, scope, second, finding)
        }
    }
}
