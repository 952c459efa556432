//! The operations of expressions.
ghost use Rattle.std.specs.Prelude.{◌≡◌, ◌++◌, map, length, IfOk, OnOk};
ghost use Rattle.sp_core.specs.Plain.{plain_ops};
ghost use Rattle.sp_tree.specs.Plain.{plain_expr, plain_exprs, plain_kind, plain_mem};
ghost use Rattle.sp_sugar.specs.Operations.{code, code_of, codes, source_code, word_list};
ghost use Rattle.sp_operations.specs.Sources.{plain_source, sources_of};

use crate::NoMemory;
use crate::numbers::mem_number;
use crate::operations::{accesses, computes, counter_op, literal_op, push_op, read_op};
use crate::sources::{Source, source_at};
use sp_core::{Op, OpKind};
use sp_tree::{Expr, ExprKind, MemDecl};
use sp_words::Ty;
use std::alloc::Global;

/// Appends the use of a value, and tells where its word is.
fn push_source(alloc: Global, ops: &mut Vec<Op>, ty: Ty, source: Source) -> Result<u32, NoMemory>
    ensures ops { OnOk result (plain_ops ops.new.items ≡ plain_ops ops.old.items ++ (source_code (length (plain_ops ops.old.items)) ty (plain_source source)).ops) }
    ensures word { IfOk result (λ place. place ≡ (source_code (length (plain_ops ops.old.items)) ty (plain_source source)).word) }
{
    match source {
        Source::AtPlace(place) => Ok(place),
        Source::InRegister(r) => push_op(ops, read_op(ty, r, Vec::new(alloc))),
        Source::Constant(word) => push_op(ops, literal_op(alloc, ty, word)),
        Source::Count(counter) => push_op(ops, counter_op(alloc, ty, counter)),
    }
}

/// Appends the operations of an expression, and tells where its word is.
#[cycle(push_code)]
#[tactic(auto, unfolding(sp_sugar::specs::Operations::code, sp_sugar::specs::Operations::code_of, sp_sugar::specs::Operations::codes))]
pub fn push_code(
    alloc: Global,
    ops: &mut Vec<Op>,
    mems: &[MemDecl],
    sources: &[Source],
    e: &Expr,
) -> Result<u32, NoMemory>
    ensures ops { OnOk result (plain_ops ops.new.items ≡ plain_ops ops.old.items ++ (code (map plain_mem mems.now) (sources_of sources.now) (length (plain_ops ops.old.items)) (plain_expr e.now)).ops) }
    ensures word { IfOk result (λ place. place ≡ (code (map plain_mem mems.now) (sources_of sources.now) (length (plain_ops ops.old.items)) (plain_expr e.now)).word) }
{
    push_kind(alloc, ops, mems, sources, e.ty, &e.kind)
}

#[cycle(push_code)]
#[tactic(auto, unfolding(sp_sugar::specs::Operations::code, sp_sugar::specs::Operations::code_of, sp_sugar::specs::Operations::codes))]
fn push_kind(
    alloc: Global,
    ops: &mut Vec<Op>,
    mems: &[MemDecl],
    sources: &[Source],
    ty: Ty,
    kind: &ExprKind,
) -> Result<u32, NoMemory>
    ensures ops { OnOk result (plain_ops ops.new.items ≡ plain_ops ops.old.items ++ (code_of (map plain_mem mems.now) (sources_of sources.now) (length (plain_ops ops.old.items)) ty (plain_kind kind.now)).ops) }
    ensures word { IfOk result (λ place. place ≡ (code_of (map plain_mem mems.now) (sources_of sources.now) (length (plain_ops ops.old.items)) ty (plain_kind kind.now)).word) }
{
    match kind {
        ExprKind::Lit(word) => push_op(ops, literal_op(alloc, ty, *word)),
        ExprKind::Count(c) => push_op(ops, counter_op(alloc, ty, c.number())),
        ExprKind::Val(v) => push_source(alloc, ops, ty, source_at(sources, v.number())),
        ExprKind::GetReg(m) => {
            let number = mem_number(mems, m.number());
            push_op(ops, read_op(ty, number, Vec::new(alloc)))
        }
        ExprKind::GetArg(m) => {
            let number = mem_number(mems, m.number());
            push_op(ops, read_op(ty, number, Vec::new(alloc)))
        }
        ExprKind::GetSram(m, indices) => {
            let number = mem_number(mems, m.number());
            let places = push_codes(alloc, ops, mems, sources, indices)?;
            push_op(ops, read_op(ty, number, places))
        }
        ExprKind::GetLine(m, row, column) => {
            let number = mem_number(mems, m.number());
            let row = push_code(alloc, ops, mems, sources, row)?;
            let column = push_code(alloc, ops, mems, sources, column)?;
            push_op(ops, read_op(ty, number, vec![in alloc; row, column]?))
        }
        ExprKind::Deq(m) => {
            let number = mem_number(mems, m.number());
            push_op(ops, accesses(OpKind::Deq, ty, number, Vec::new(alloc)))
        }
        ExprKind::One(op, a) => {
            let place = push_code(alloc, ops, mems, sources, a)?;
            push_op(ops, computes(OpKind::One(*op), ty, vec![in alloc; place]?))
        }
        ExprKind::Two(op, a, b) => {
            let one = push_code(alloc, ops, mems, sources, a)?;
            let two = push_code(alloc, ops, mems, sources, b)?;
            push_op(
                ops,
                computes(OpKind::Two(*op), a.ty, vec![in alloc; one, two]?),
            )
        }
        ExprKind::Shift(left, a, by) => {
            let place = push_code(alloc, ops, mems, sources, a)?;
            push_op(
                ops,
                computes(OpKind::Shift(*left, *by), ty, vec![in alloc; place]?),
            )
        }
        ExprKind::Mux(chosen, a, b) => {
            let chosen = push_code(alloc, ops, mems, sources, chosen)?;
            let one = push_code(alloc, ops, mems, sources, a)?;
            let two = push_code(alloc, ops, mems, sources, b)?;
            push_op(
                ops,
                computes(OpKind::Mux, ty, vec![in alloc; chosen, one, two]?),
            )
        }
        ExprKind::Cast(a) => {
            let place = push_code(alloc, ops, mems, sources, a)?;
            push_op(
                ops,
                computes(OpKind::Cast(ty), a.ty, vec![in alloc; place]?),
            )
        }
    }
}

/// Appends the operations of expressions, from left to right, and tells where their words are.
#[cycle(push_code)]
#[tactic(auto, unfolding(sp_sugar::specs::Operations::code, sp_sugar::specs::Operations::code_of, sp_sugar::specs::Operations::codes))]
pub(crate) fn push_codes(
    alloc: Global,
    ops: &mut Vec<Op>,
    mems: &[MemDecl],
    sources: &[Source],
    all: &[Expr],
) -> Result<Vec<u32>, NoMemory>
    ensures ops { OnOk result (plain_ops ops.new.items ≡ plain_ops ops.old.items ++ (codes (map plain_mem mems.now) (sources_of sources.now) (length (plain_ops ops.old.items)) (plain_exprs all.now)).ops) }
    ensures words { IfOk result (λ places. places.items ≡ (codes (map plain_mem mems.now) (sources_of sources.now) (length (plain_ops ops.old.items)) (plain_exprs all.now)).words) }
{
    let mut places = Vec::new(alloc);
    for e in all {
        places.push(push_code(alloc, ops, mems, sources, e)?)?;
    }
    Ok(places)
}

/// The operations of a word, the last of which gives it.
pub fn word_list(
    alloc: Global,
    mems: &[MemDecl],
    sources: &[Source],
    e: &Expr,
) -> Result<Vec<Op>, NoMemory>
    ensures { IfOk result (λ ops. plain_ops ops.items ≡ word_list (map plain_mem mems.now) (sources_of sources.now) (plain_expr e.now)) }
{
    let mut ops = Vec::new(alloc);
    let _place = push_code(alloc, &mut ops, mems, sources, e)?;
    Ok(ops)
}
