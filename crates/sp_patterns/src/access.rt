//! The forms of accesses among the operations of a list.
ghost use Rattle.std.specs.Prelude.{◌≡◌, ◌≤◌, ◌++◌, ◌∷◌, [], ℕ, take, map, length, option_map, slice_index_or, IfOk, OnOk, None, ◌↔◌, IsTrue};
ghost use Rattle.sp_core.specs.Plain.{plain_op, plain_ops, plain_mem};
ghost use Rattle.sp_core.specs.OperationRules.{is_access};
ghost use Rattle.sp_patterns.specs.Forms.{forms_of};
ghost use Rattle.sp_patterns.specs.Indices.{index_form, indices_at, forms_at, access_forms, rows_of};
ghost use Rattle.sp_patterns.specs.Patterns.{some_forms, list_forms};
ghost use Rattle.sp_patterns.specs.Ranges.{plain_around};

use crate::around::Around;
use crate::forms::forms_of;
use crate::index::{copy_of, is_index};
use sp_affine::Form;
use sp_core::{CoreMem, Op, OpKind};
use sp_words::Kind;
use std::alloc::{AllocError, Global};

fn is_access(kind: OpKind) -> bool
    ensures { result ≡ is_access kind }
{
    match kind {
        OpKind::Read => true,
        OpKind::Write => true,
        OpKind::Enq => true,
        OpKind::Deq => true,
        OpKind::Reset => true,
        OpKind::Word(_) => false,
        OpKind::Count(_, _) => false,
        OpKind::Live(_, _, _) => false,
        OpKind::One(_) => false,
        OpKind::Two(_) => false,
        OpKind::Shift(_, _) => false,
        OpKind::Mux => false,
        OpKind::Cast(_) => false,
    }
}

/// How many indices an access to a memory has.
fn indices_at(mems: &[CoreMem], mem: Option<u32>) -> usize
    ensures { result ≡ indices_at (map plain_mem mems.now) mem }
{
    let Some(m) = mem else {
        return 0;
    };
    let Some(mem) = mems.get(m as usize) else {
        return 0;
    };
    match mem.kind {
        Kind::Sram => mem.dims.len(),
        Kind::LineBuf => mem.dims.len(),
        _ => 0,
    }
}

/// The form of an operand that is an index.
fn index_at(
    alloc: Global,
    ranges: &[Option<(i32, i32)>],
    forms: &[Option<Form>],
    place: u32,
) -> Result<Option<Form>, AllocError>
    requires { length ranges.now ≤ 1024 }
    ensures { IfOk result (λ r. r ≡ index_form ranges.now (slice_index_or forms.now place None)) }
{
    let Some(Some(form)) = forms.get(place as usize) else {
        return Ok(None);
    };
    if is_index(ranges, form) {
        Ok(Some(copy_of(alloc, form)?))
    } else {
        Ok(None)
    }
}

/// The forms of operands that are indices, where all are known.
fn forms_at(
    alloc: Global,
    ranges: &[Option<(i32, i32)>],
    forms: &[Option<Form>],
    args: &[u32],
) -> Result<Option<Vec<Form>>, AllocError>
    requires { length ranges.now ≤ 1024 }
    ensures { IfOk result (λ r. option_map (λ row. row.items) r ≡ forms_at ranges.now forms.now args.now) }
{
    let mut row = Vec::with_capacity(alloc, args.len())?;
    for place in args {
        let Some(form) = index_at(alloc, ranges, forms, *place)? else {
            return Ok(None);
        };
        row.push(form)?;
    }
    Ok(Some(row))
}

/// The first operands, so many of them as there are.
fn first_args(args: &[u32], count: usize) -> &[u32]
    ensures { result.now ≡ take count args.now }
{
    match args.get(..count) {
        Some(first) => first,
        None => args,
    }
}

/// The forms of a list, for accesses under one mask.
#[derive(Debug, Drop)]
struct Masked {
    mask: Option<u32>,
    forms: Vec<Option<Form>>,
}

fn is_same_mask(a: Option<u32>, b: Option<u32>) -> bool
    ensures { IsTrue result ↔ (a ≡ b) }
{
    match (a, b) {
        (None, None) => true,
        (Some(x), Some(y)) => x == y,
        _ => false,
    }
}

/// A row more.
pub fn add_row(rows: &mut Vec<Option<Vec<Form>>>, row: Option<Vec<Form>>) -> Result<(), AllocError>
    ensures { OnOk result (rows_of rows.new.items ≡ rows_of rows.old.items ++ option_map (λ r. r.items) row ∷ []) }
{
    rows.push(row)?;
    Ok(())
}

fn add_access(
    alloc: Global,
    mems: &[CoreMem],
    around: &Around,
    ops: &[Op],
    op: &Op,
    known: &mut Masked,
    rows: &mut Vec<Option<Vec<Form>>>,
) -> Result<(), AllocError>
    requires few { length around.now.ranges.items ≤ 1024 }
    requires known { known.old.forms.items ≡ forms_of (map plain_mem mems.now) (plain_ops ops.now) known.old.mask around.now.places.items }
    ensures known { OnOk result (known.new.forms.items ≡ forms_of (map plain_mem mems.now) (plain_ops ops.now) known.new.mask around.now.places.items) }
    ensures row { OnOk result (rows_of rows.new.items ≡ rows_of rows.old.items ++ access_forms (map plain_mem mems.now) (plain_around around.now) (plain_ops ops.now) (plain_op op.now) ∷ []) }
{
    if !is_same_mask(op.mask, known.mask) {
        *known = Masked {
            mask: op.mask,
            forms: forms_of(alloc, mems, ops, op.mask, &around.places)?,
        };
    }
    let args = first_args(&op.args, indices_at(mems, op.mem));
    let row = forms_at(alloc, &around.ranges, &known.forms, args)?;
    add_row(rows, row)
}

/// The forms of the accesses of a list.
pub fn add_list(
    alloc: Global,
    mems: &[CoreMem],
    around: &Around,
    ops: &[Op],
    rows: &mut Vec<Option<Vec<Form>>>,
) -> Result<(), AllocError>
    requires { length around.now.ranges.items ≤ 1024 }
    ensures { OnOk result (rows_of rows.new.items ≡ rows_of rows.old.items ++ list_forms (map plain_mem mems.now) (plain_around around.now) (plain_ops ops.now)) }
{
    let mut known = Masked {
        mask: None,
        forms: forms_of(alloc, mems, ops, None, &around.places)?,
    };
    for op in ops {
        if is_access(op.kind) {
            add_access(alloc, mems, around, ops, op, &mut known, rows)?;
        }
    }
    Ok(())
}
