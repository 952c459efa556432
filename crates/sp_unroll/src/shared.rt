//! Which operations of a body depend on the lane, and so which reads stand once for all lanes.

ghost use Rattle.std.specs.Prelude.{◌≡◌, ◌||◌, ℕ, List, slice_index_or, false, IfOk};
ghost use Rattle.sp_core.specs.PlainCore.{PlainOp};
ghost use Rattle.std.specs.List.{list_any};
ghost use Rattle.sp_core.specs.Declarations.{is_among};
ghost use Rattle.sp_core.specs.Plain.{plain_op, plain_ops};
ghost use Rattle.sp_lanes.specs.Shared.{changes_memory, is_read, is_of, does_change, differs, is_of_lane, is_mask_of_lane, does_depend, shared};

use crate::NoMemory;
use sp_core::{Op, OpKind};
use std::alloc::Global;

fn changes_memory(kind: OpKind) -> bool
    ensures { result ≡ changes_memory kind }
{
    match kind {
        OpKind::Write => true,
        OpKind::Enq => true,
        OpKind::Deq => true,
        OpKind::Reset => true,
        _ => false,
    }
}

fn is_read(kind: OpKind) -> bool
    ensures { result ≡ is_read kind }
{
    match kind {
        OpKind::Read => true,
        _ => false,
    }
}

fn is_of(mem: Option<u32>, m: u32) -> bool
    ensures { result ≡ is_of mem m }
{
    match mem {
        None => false,
        Some(k) => k == m,
    }
}

fn is_among(n: u32, numbers: &[u32]) -> bool
    ensures { result ≡ is_among n numbers.now }
{
    for m in numbers {
        if n == *m {
            return true;
        }
    }
    false
}

/// Whether some operation changes a memory.
fn does_change(ops: &[Op], m: u32) -> bool
    ensures { result ≡ does_change (plain_ops ops.now) m }
{
    for op in ops {
        if changes_memory(op.kind) && is_of(op.mem, m) {
            return true;
        }
    }
    false
}

/// Whether a memory that is read differs by lane: each lane has it for its own, or the body changes it.
fn differs(own: &[u32], body: &[Op], mem: Option<u32>) -> bool
    ensures { (counter : ℕ) → result ≡ differs counter own.now (plain_ops body.now) mem }
{
    match mem {
        None => false,
        Some(m) => is_among(m, own) || does_change(body, m),
    }
}

/// Whether an operation depends on the lane whatever its operands are.
fn is_of_lane(counter: u32, own: &[u32], body: &[Op], kind: OpKind, mem: Option<u32>) -> bool
    ensures { result ≡ is_of_lane counter own.now (plain_ops body.now) kind mem }
{
    match kind {
        OpKind::Count(c, _) => c == counter,
        OpKind::Live(c, _, _) => c == counter,
        OpKind::Deq => true,
        OpKind::Read => differs(own, body, mem),
        _ => false,
    }
}

/// Whether the operation at a place depends on the lane, by those that were looked at.
fn depends_at(earlier: &[bool], place: u32) -> bool
    ensures { result ≡ slice_index_or earlier.now place false }
{
    match earlier.get(place as usize) {
        Some(depends) => *depends,
        None => false,
    }
}

fn is_mask_of_lane(earlier: &[bool], mask: Option<u32>) -> bool
    ensures { (counter : ℕ) (own : List ℕ) (body : List PlainOp) → result ≡ is_mask_of_lane counter own body earlier.now mask }
{
    match mask {
        None => false,
        Some(k) => depends_at(earlier, k),
    }
}

fn some_depend(earlier: &[bool], args: &[u32]) -> bool
    ensures { result ≡ list_any (λ k. slice_index_or earlier.now k false) args.now }
{
    for k in args {
        if depends_at(earlier, *k) {
            return true;
        }
    }
    false
}

fn either(a: bool, b: bool) -> bool
    ensures { result ≡ (a || b) }
{
    a || b
}

/// Whether an operation depends on the lane, by whether earlier ones do.
fn does_depend(counter: u32, own: &[u32], body: &[Op], earlier: &[bool], op: &Op) -> bool
    ensures { result ≡ does_depend counter own.now (plain_ops body.now) earlier.now (plain_op op.now) }
{
    let of_lane = is_of_lane(counter, own, body, op.kind, op.mem);
    let of_mask = is_mask_of_lane(earlier, op.mask);
    let of_args = some_depend(earlier, &op.args);
    either(either(of_lane, of_mask), of_args)
}

/// Whether each operation of a body stands once for all lanes.
pub(crate) fn shared(
    alloc: Global,
    counter: u32,
    own: &[u32],
    body: &[Op],
) -> Result<Vec<bool>, NoMemory>
    ensures { IfOk result (λ all. all.items ≡ shared counter own.now (plain_ops body.now) (plain_ops body.now)) }
{
    let mut all = Vec::new(alloc);
    let mut earlier = Vec::new(alloc);
    for op in body {
        let depends = does_depend(counter, own, body, &earlier, op);
        all.push(is_read(op.kind) && !depends)?;
        earlier.push(depends)?;
    }
    Ok(all)
}
