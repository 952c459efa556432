//! Single operations.
ghost use Rattle.std.specs.Prelude.{◌≡◌, ◌++◌, ◌∷◌, [], length, IfOk, OnOk};
ghost use Rattle.sp_core.specs.Plain.{plain_op, plain_ops};
ghost use Rattle.sp_sugar.specs.Operations.{computes, accesses, literal_op, counter_op, read_op, write_op, under};

use crate::NoMemory;
use sp_core::{Op, OpKind};
use sp_words::Ty;
use std::alloc::{AllocError, Global};

/// The place of the next operation of a list.
pub fn next_place(ops: &[Op]) -> Result<u32, NoMemory>
    ensures { IfOk result (λ place. place ≡ length (plain_ops ops.now)) }
{
    let place = ops.len();
    if place > u32::MAX as usize {
        return Err(AllocError);
    }
    Ok(place as u32)
}

/// Appends an operation, and tells its place.
pub fn push_op(ops: &mut Vec<Op>, op: Op) -> Result<u32, NoMemory>
    ensures ops { OnOk result (plain_ops ops.new.items ≡ plain_ops ops.old.items ++ plain_op op ∷ []) }
    ensures place { IfOk result (λ place. place ≡ length (plain_ops ops.old.items)) }
{
    let place = next_place(ops)?;
    ops.push(op)?;
    Ok(place)
}

/// An operation on words at these places.
pub(crate) fn computes(kind: OpKind, ty: Ty, args: Vec<u32>) -> Op
    ensures { plain_op result ≡ computes kind ty args.items }
{
    Op {
        kind,
        ty,
        args,
        mem: None,
        mask: None,
    }
}

/// An access to a memory of the core.
pub(crate) fn accesses(kind: OpKind, ty: Ty, m: u32, args: Vec<u32>) -> Op
    ensures { plain_op result ≡ accesses kind ty m args.items }
{
    Op {
        kind,
        ty,
        args,
        mem: Some(m),
        mask: None,
    }
}

/// A word that stands for itself.
pub(crate) fn literal_op(alloc: Global, ty: Ty, word: u64) -> Op
    ensures { plain_op result ≡ literal_op ty word }
{
    computes(OpKind::Word(word), ty, Vec::new(alloc))
}

/// The value of a counter.
pub(crate) fn counter_op(alloc: Global, ty: Ty, counter: u32) -> Op
    ensures { plain_op result ≡ counter_op ty counter }
{
    computes(OpKind::Count(counter, 0), ty, Vec::new(alloc))
}

/// A read at these indices.
pub fn read_op(ty: Ty, m: u32, indices: Vec<u32>) -> Op
    ensures { plain_op result ≡ read_op ty m indices.items }
{
    accesses(OpKind::Read, ty, m, indices)
}

/// A write, whose word stands after the indices.
pub fn write_op(ty: Ty, m: u32, indices_and_word: Vec<u32>) -> Op
    ensures { plain_op result ≡ write_op ty m indices_and_word.items }
{
    accesses(OpKind::Write, ty, m, indices_and_word)
}

/// The same, done where the word at a place is 1.
pub(crate) fn under(mask: u32, op: Op) -> Op
    ensures { plain_op result ≡ under mask (plain_op op) }
{
    Op {
        kind: op.kind,
        ty: op.ty,
        args: op.args,
        mem: op.mem,
        mask: Some(mask),
    }
}
