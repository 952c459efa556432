//! Combinations of words, and the loop that combines elements.
ghost use Rattle.std.specs.Prelude.{◌≡◌, ◌++◌, ◌∷◌, [], List, suc, map, length, IfOk, OnOk};
ghost use Rattle.sp_core.specs.Plain.{plain_counter, plain_node, plain_ops};
ghost use Rattle.sp_tree.specs.Plain.{plain_expr, plain_exprs, plain_kind, plain_mem};
ghost use Rattle.sp_tree.specs.PlainExpression as program;
ghost use Rattle.sp_words.specs.Types.{int_type};
ghost use Rattle.sp_words.specs.declared.types.Ty.TheVariants.{Bit};
ghost use Rattle.sp_sugar.specs.Operations as plain;
ghost use Rattle.sp_operations.specs.Elements.{index_ops, index_places};
ghost use Rattle.sp_sugar.specs.Combination.{operator_of, fold_ops, reduce_ops, element_counters, is_last_at, conjunction, is_last_element};

use crate::NoMemory;
use crate::operations::{computes, counter_op, literal_op, push_op, read_op, under, write_op};
use sp_core::{CoreCounter, Op, OpKind};
use sp_tree::{Comb, CtrId, Expr, ExprKind};
use sp_words::{BinOp, Ty};
use std::alloc::{AllocError, Global};

pub(crate) fn operator_of(comb: Comb) -> BinOp
    ensures { result ≡ operator_of comb }
{
    match comb {
        Comb::Add => BinOp::Add,
        Comb::Mul => BinOp::Mul,
        Comb::And => BinOp::And,
        Comb::Or => BinOp::Or,
        Comb::Xor => BinOp::Xor,
        Comb::Min => BinOp::Min,
        Comb::Max => BinOp::Max,
    }
}

/// Appends the combination of the word at a place into a register: read, combined and written.
pub fn push_fold(
    alloc: Global,
    ops: &mut Vec<Op>,
    word: u32,
    acc: u32,
    ty: Ty,
    comb: Comb,
) -> Result<(), NoMemory>
    ensures { OnOk result (plain_ops ops.new.items ≡ plain_ops ops.old.items ++ fold_ops (length (plain_ops ops.old.items)) word acc ty comb) }
{
    let old = push_op(ops, read_op(ty, acc, Vec::new(alloc)))?;
    let operator = OpKind::Two(operator_of(comb));
    let new = push_op(ops, computes(operator, ty, vec![in alloc; old, word]?))?;
    let _place = push_op(ops, write_op(ty, acc, vec![in alloc; new]?))?;
    Ok(())
}

/// Appends the same for an accumulator that may not have begun: then the word alone is written.
pub fn push_reduce(
    alloc: Global,
    ops: &mut Vec<Op>,
    word: u32,
    acc: u32,
    begun: u32,
    ty: Ty,
    comb: Comb,
) -> Result<(), NoMemory>
    ensures { OnOk result (plain_ops ops.new.items ≡ plain_ops ops.old.items ++ reduce_ops (length (plain_ops ops.old.items)) word acc begun ty comb) }
{
    let has = push_op(ops, read_op(Ty::Bit, begun, Vec::new(alloc)))?;
    let old = push_op(ops, under(has, read_op(ty, acc, Vec::new(alloc))))?;
    let operator = OpKind::Two(operator_of(comb));
    let both = push_op(ops, computes(operator, ty, vec![in alloc; old, word]?))?;
    let new = push_op(
        ops,
        computes(OpKind::Mux, ty, vec![in alloc; has, both, word]?),
    )?;
    let _written = push_op(ops, write_op(ty, acc, vec![in alloc; new]?))?;
    let one = push_op(ops, literal_op(alloc, Ty::Bit, 1))?;
    let _begun = push_op(ops, write_op(Ty::Bit, begun, vec![in alloc; one]?))?;
    Ok(())
}

/// The number after a counter's.
fn next(counter: u32) -> Result<u32, NoMemory>
    ensures { IfOk result (λ n. n ≡ suc counter) }
{
    counter.checked_add(1).ok_or(AllocError)
}

fn literal_list(alloc: Global, word: u64) -> Result<Vec<Op>, NoMemory>
    ensures { IfOk result (λ ops. plain_ops ops.items ≡ plain.literal_op int_type word ∷ []) }
{
    let mut ops = Vec::new(alloc);
    ops.push(literal_op(alloc, Ty::int(), word))?;
    Ok(ops)
}

/// Appends a counter for each dimension.
pub(crate) fn push_element_counters(
    alloc: Global,
    out: &mut Vec<CoreCounter>,
    counter: u32,
    dims: &[u32],
) -> Result<(), NoMemory>
    ensures { OnOk result (map plain_counter out.new.items ≡ map plain_counter out.old.items ++ element_counters counter dims.now) }
{
    let [dim, rest @ ..] = dims else {
        return Ok(());
    };
    out.push(CoreCounter {
        id: counter,
        from: literal_list(alloc, 0)?,
        until: literal_list(alloc, *dim as u64)?,
        by: 1,
        par: 1,
    })?;
    push_element_counters(alloc, out, next(counter)?, rest)
}

/// Appends the values of the counters of an element, one for each dimension, and their places.
pub(crate) fn push_indices(
    alloc: Global,
    ops: &mut Vec<Op>,
    places: &mut Vec<u32>,
    counter: u32,
    dims: &[u32],
) -> Result<(), NoMemory>
    ensures ops { OnOk result (plain_ops ops.new.items ≡ plain_ops ops.old.items ++ index_ops counter dims.now) }
    ensures places { OnOk result (places.new.items ≡ places.old.items ++ index_places (length (plain_ops ops.old.items)) dims.now) }
{
    let [_dim, rest @ ..] = dims else {
        return Ok(());
    };
    places.push(push_op(ops, counter_op(alloc, Ty::int(), counter))?)?;
    push_indices(alloc, ops, places, next(counter)?, rest)
}

fn both(alloc: Global, op: BinOp, a: Expr, b: Expr) -> Result<Expr, NoMemory>
    ensures { IfOk result (λ e. plain_expr e ≡ program.expr 0 Bit (program.two op (plain_expr a) (plain_expr b))) }
{
    Ok(Expr {
        at: 0,
        ty: Ty::Bit,
        kind: ExprKind::Two(op, Box::new(alloc, a)?, Box::new(alloc, b)?),
    })
}

/// Whether a counter is at the end of a dimension.
fn is_last_at(alloc: Global, counter: u32, dim: u32) -> Result<Expr, NoMemory>
    ensures { IfOk result (λ e. plain_expr e ≡ is_last_at counter dim) }
{
    let value = Expr {
        at: 0,
        ty: Ty::int(),
        kind: ExprKind::Count(CtrId::new(counter)),
    };
    let end = Expr {
        at: 0,
        ty: Ty::int(),
        kind: ExprKind::Lit(dim.saturating_sub(1) as u64),
    };
    both(alloc, BinOp::Eq, value, end)
}

fn conjunction(alloc: Global, test: Expr, counter: u32, dims: &[u32]) -> Result<Expr, NoMemory>
    ensures { IfOk result (λ e. plain_expr e ≡ conjunction (plain_expr test) counter dims.now) }
{
    let [dim, rest @ ..] = dims else {
        return Ok(test);
    };
    let last = is_last_at(alloc, counter, *dim)?;
    let tests = both(alloc, BinOp::And, test, last)?;
    conjunction(alloc, tests, next(counter)?, rest)
}

/// Whether an element is the last one.
pub(crate) fn is_last_element(alloc: Global, counter: u32, dims: &[u32]) -> Result<Expr, NoMemory>
    ensures { IfOk result (λ e. plain_expr e ≡ is_last_element counter dims.now) }
{
    let [dim, rest @ ..] = dims else {
        return Ok(Expr {
            at: 0,
            ty: Ty::Bit,
            kind: ExprKind::Lit(1),
        });
    };
    let last = is_last_at(alloc, counter, *dim)?;
    conjunction(alloc, last, next(counter)?, rest)
}
