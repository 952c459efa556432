//! Whether lists of operations keep their rules.

ghost use Rattle.std.specs.Prelude.{◌≡◌, ◌≤◌, ◌^◌, nat_lt, map, IfOk};
ghost use Rattle.std.specs.List.{list_all};
ghost use Rattle.sp_core.specs.OperationRules.{can_read, can_write, is_fifo, can, is_access, is_in_range, names_rightly, indices_of, is_mask, is_operation_right, are_operations_right, is_word_list, is_early_kind, is_early, is_bound, is_counter_right};
ghost use Rattle.sp_core.specs.PartsPlain.{core_of, near_of, around_of};
ghost use Rattle.sp_core.specs.Plain.{plain_op, plain_counter};
ghost use Rattle.sp_core.specs.Sequential.{has_reset};

use crate::node::CoreCounter;
use crate::operation::{Op, OpKind};
use crate::parts::{Around, Parts, has_lane};
use crate::typed::{give_all, given_type, gives, is_type, last_gives, taken_types};
use sp_words::{Kind, Ty};
use std::alloc::{AllocError, Global};

/// Whether a memory is made fresh by a reset operation.
fn has_reset(kind: Kind, start: Option<u64>) -> bool
    ensures { result ≡ has_reset kind start }
{
    match kind {
        Kind::Fifo => true,
        Kind::Reg => start.is_some(),
        _ => false,
    }
}

fn can_read(kind: Kind) -> bool
    ensures { result ≡ can_read kind }
{
    match kind {
        Kind::Reg | Kind::Sram | Kind::LineBuf | Kind::ArgIn => true,
        _ => false,
    }
}

fn can_write(kind: Kind) -> bool
    ensures { result ≡ can_write kind }
{
    match kind {
        Kind::Reg | Kind::Sram | Kind::ArgOut => true,
        _ => false,
    }
}

fn is_fifo(kind: Kind) -> bool
    ensures { result ≡ is_fifo kind }
{
    match kind {
        Kind::Fifo => true,
        _ => false,
    }
}

/// Whether an access may be one to a memory of this kind.
fn can(op: OpKind, kind: Kind, start: Option<u64>) -> bool
    ensures { result ≡ can op kind start }
{
    match op {
        OpKind::Read => can_read(kind),
        OpKind::Write => can_write(kind),
        OpKind::Enq => is_fifo(kind),
        OpKind::Deq => is_fifo(kind),
        OpKind::Reset => has_reset(kind, start),
        _ => false,
    }
}

fn is_access(kind: OpKind) -> bool
    ensures { result ≡ is_access kind }
{
    match kind {
        OpKind::Read | OpKind::Write | OpKind::Enq | OpKind::Deq | OpKind::Reset => true,
        _ => false,
    }
}

/// Whether a number is less than 2 to this power, at most 64.
pub(crate) fn is_word(word: u64, width: u8) -> bool
    requires { width ≤ 64 }
    ensures { result ≡ nat_lt word (2 ^ width) }
{
    width == 64 || word < 1 << width
}

/// Whether a word, a shift, a counter or lanes are in their range.
fn is_in_range(kind: OpKind, ty: Ty, around: &Around) -> bool
    ensures { result ≡ is_in_range kind ty (around_of around.now) }
{
    match kind {
        OpKind::Word(word) => is_word(word, ty.width()),
        OpKind::Count(counter, lane) => {
            has_lane(&around.counters, counter, lane) && is_type(ty, Ty::int())
        }
        OpKind::Live(counter, first, last) => {
            (first <= last && has_lane(&around.counters, counter, last)) && is_type(ty, Ty::Bit)
        }
        OpKind::Shift(_, by) => by < 64,
        _ => true,
    }
}

/// Whether it names a memory that it may, and only an access does.
fn names_rightly(parts: &Parts, around: &Around, kind: OpKind, ty: Ty, mem: Option<u32>) -> bool
    ensures { result ≡ names_rightly (core_of parts.now) (around_of around.now) kind ty mem }
{
    match mem {
        None => !is_access(kind),
        Some(m) => {
            (is_access(kind) && parts.is_usable(around, m))
                && (can(kind, parts.kind(m), parts.start(m)) && is_type(ty, parts.ty(m)))
        }
    }
}

fn indices_of(parts: &Parts, around: &Around, mem: Option<u32>) -> usize
    ensures { result ≡ indices_of (core_of parts.now) (around_of around.now) mem }
{
    let _here = around;
    match mem {
        None => 0,
        Some(m) => parts.index_count(m),
    }
}

/// Whether a mask is a `Bit`.
fn is_mask(parts: &Parts, around: &Around, earlier: &[Option<Ty>], mask: Option<u32>) -> bool
    ensures { result ≡ is_mask (core_of parts.now) (around_of around.now) earlier.now mask }
{
    let (_core, _here) = (parts, around);
    match mask {
        None => true,
        Some(m) => gives(earlier, m, Ty::Bit),
    }
}

/// Whether an operation keeps its rules, by what those before it give.
fn is_operation_right(
    alloc: Global,
    parts: &Parts,
    around: &Around,
    earlier: &[Option<Ty>],
    op: &Op,
) -> Result<bool, AllocError>
    ensures { IfOk result (λ right. right ≡ is_operation_right (core_of parts.now) (around_of around.now) earlier.now (plain_op op.now)) }
{
    let types = taken_types(alloc, op.kind, op.ty, indices_of(parts, around, op.mem))?;
    Ok(
        (is_in_range(op.kind, op.ty, around)
            && names_rightly(parts, around, op.kind, op.ty, op.mem))
            && (give_all(earlier, &op.args, &types) && is_mask(parts, around, earlier, op.mask)),
    )
}

/// Whether each operation of a list does.
pub(crate) fn are_operations_right(
    alloc: Global,
    parts: &Parts,
    around: &Around,
    ops: &[Op],
) -> Result<bool, AllocError>
    ensures { IfOk result (λ right. right ≡ are_operations_right (core_of parts.now) (around_of around.now) (map plain_op ops.now)) }
{
    let mut earlier = Vec::new(alloc);
    for op in ops {
        if !is_operation_right(alloc, parts, around, &earlier, op)? {
            return Ok(false);
        }
        earlier.push(given_type(op.kind, op.ty))?;
    }
    Ok(true)
}

/// Whether a list does, and gives a word of a type.
pub(crate) fn is_word_list(
    alloc: Global,
    parts: &Parts,
    around: &Around,
    ops: &[Op],
    ty: Ty,
) -> Result<bool, AllocError>
    ensures { IfOk result (λ right. right ≡ is_word_list (core_of parts.now) (around_of around.now) (map plain_op ops.now) ty) }
{
    Ok(are_operations_right(alloc, parts, around, ops)? && last_gives(ops, ty))
}

/// Whether an operation on a memory of this kind may stand in a bound or a slice.
fn is_early_kind(parts: &Parts, around: &Around, op: OpKind, kind: Kind) -> bool
    ensures { result ≡ is_early_kind (core_of parts.now) (around_of around.now) op kind }
{
    let (_core, _here) = (parts, around);
    match op {
        OpKind::Read => match kind {
            Kind::Sram | Kind::LineBuf => false,
            _ => true,
        },
        OpKind::Write | OpKind::Enq | OpKind::Deq | OpKind::Reset => false,
        _ => true,
    }
}

fn is_early(parts: &Parts, around: &Around, op: &Op) -> bool
    ensures { result ≡ is_early (core_of parts.now) (around_of around.now) (plain_op op.now) }
{
    match op.mem {
        None => true,
        Some(m) => is_early_kind(parts, around, op.kind, parts.kind(m)),
    }
}

fn are_early(parts: &Parts, around: &Around, ops: &[Op]) -> bool
    ensures { result ≡ list_all (is_early (core_of parts.now) (around_of around.now)) (map plain_op ops.now) }
{
    for op in ops {
        if !is_early(parts, around, op) {
            return false;
        }
    }
    true
}

/// Whether a bound, an index of a slice or a count keeps its rules.
pub(crate) fn is_bound(
    alloc: Global,
    parts: &Parts,
    around: &Around,
    ops: &[Op],
) -> Result<bool, AllocError>
    ensures { IfOk result (λ right. right ≡ is_bound (core_of parts.now) (around_of around.now) (map plain_op ops.now)) }
{
    Ok(is_word_list(alloc, parts, around, ops, Ty::int())? && are_early(parts, around, ops))
}

/// Whether a counter does.
pub(crate) fn is_counter_right(
    alloc: Global,
    parts: &Parts,
    around: &Around,
    counter: &CoreCounter,
) -> Result<bool, AllocError>
    ensures { IfOk result (λ right. right ≡ is_counter_right (core_of parts.now) (around_of around.now) (plain_counter counter.now)) }
{
    Ok(
        (is_bound(alloc, parts, around, &counter.from)?
            && is_bound(alloc, parts, around, &counter.until)?)
            && ((1 <= counter.by && counter.by < 1 << 31)
                && (1 <= counter.par && counter.par <= 16)),
    )
}
