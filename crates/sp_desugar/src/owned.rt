//! The numbers of registers that a body owns.
ghost use Rattle.std.specs.Prelude.{◌≡◌, ◌≤◌, ◌-◌, ◌+◌, ◌++◌, ◌∷◌, [], List, map, length, IfOk, OnOk};
ghost use Rattle.sp_core.specs.Plain as core;
ghost use Rattle.sp_core.specs.PlainCore.{PlainMem};
ghost use Rattle.sp_tree.specs.PlainTree.{plain_counter, plain_stmt_kind, plain_stmts};
ghost use Rattle.sp_sugar.specs.Early.{bounds_of, is_early, registers_for};
ghost use Rattle.sp_sugar.specs.Numbers.{numbers_from, state_register};
ghost use Rattle.sp_sugar.specs.Registers.{beside, at_end};
ghost use Rattle.sp_sugar.specs.Stages.{first_of};
ghost use Rattle.sp_desugar.specs.Names.{plain_ending};

use crate::NoMemory;
use crate::early::{Crossing, after};
use crate::registers::{push_at_end, push_beside};
use crate::uses::Ending;
use sp_core::CoreMem;
use sp_operations::state_register;
use sp_tree::{Counter, Stmt, StmtKind};
use sp_words::Ty;
use std::alloc::{AllocError, Global};

/// The number of the next register.
pub(crate) fn next_number(regs: &[CoreMem]) -> Result<u32, NoMemory>
    ensures { IfOk result (λ n. n ≡ length (map core.plain_mem regs.now)) }
{
    let n = regs.len();
    if n > u32::MAX as usize {
        return Err(AllocError);
    }
    Ok(n as u32)
}

/// Appends the numbers from the first up to the end, which is not taken.
fn push_numbers(out: &mut Vec<u32>, first: u32, end: u32) -> Result<(), NoMemory>
    requires { first ≤ end }
    ensures { OnOk result (out.new.items ≡ out.old.items ++ numbers_from first (end - first)) }
{
    for n in first..end {
        out.push(n)?;
    }
    Ok(())
}

/// Appends the registers beside a statement, and their numbers to those that the body owns; tells the first number.
pub(crate) fn own_beside(
    alloc: Global,
    regs: &mut Vec<CoreMem>,
    owned: &mut Vec<u32>,
    kind: &StmtKind,
    rest: &[Stmt],
    ending: Ending<'_>,
) -> Result<u32, NoMemory>
    ensures regs { OnOk result (map core.plain_mem regs.new.items ≡ map core.plain_mem regs.old.items ++ beside (plain_stmt_kind kind.now) (plain_stmts rest.now) (plain_ending ending.entry)) }
    ensures owned { OnOk result (owned.new.items ≡ owned.old.items ++ numbers_from (length (map core.plain_mem regs.old.items)) (length (beside (plain_stmt_kind kind.now) (plain_stmts rest.now) (plain_ending ending.entry)))) }
    ensures first { IfOk result (λ b. b ≡ length (map core.plain_mem regs.old.items)) }
{
    let first = next_number(regs)?;
    push_beside(alloc, regs, kind, rest, ending)?;
    let end = next_number(regs)?;
    push_numbers(owned, first, end)?;
    Ok(first)
}

/// The same for the register of a word that is computed in the last run of a body.
pub(crate) fn own_at_end(
    alloc: Global,
    regs: &mut Vec<CoreMem>,
    owned: &mut Vec<u32>,
    ending: Ending<'_>,
) -> Result<u32, NoMemory>
    ensures regs { OnOk result (map core.plain_mem regs.new.items ≡ map core.plain_mem regs.old.items ++ at_end (plain_ending ending.entry)) }
    ensures owned { OnOk result (owned.new.items ≡ owned.old.items ++ numbers_from (length (map core.plain_mem regs.old.items)) (length (at_end (plain_ending ending.entry)))) }
    ensures first { IfOk result (λ n. n ≡ length (map core.plain_mem regs.old.items)) }
{
    let first = next_number(regs)?;
    push_at_end(alloc, regs, ending)?;
    let end = next_number(regs)?;
    push_numbers(owned, first, end)?;
    Ok(first)
}

/// The first register of those that were added since there were so many, if there is one.
pub(crate) fn first_added(regs: &[CoreMem], first: u32) -> Option<u32>
    ensures { (before added : List PlainMem) → map core.plain_mem regs.now ≡ before ++ added → first ≡ length before → result ≡ first_of first added }
{
    if (first as usize) < regs.len() {
        return Some(first);
    }
    None
}

/// Appends the register of the state of an FSM, and tells its number.
pub(crate) fn push_state(alloc: Global, regs: &mut Vec<CoreMem>, ty: Ty) -> Result<u32, NoMemory>
    ensures regs { OnOk result (map core.plain_mem regs.new.items ≡ map core.plain_mem regs.old.items ++ state_register ty ∷ []) }
    ensures number { IfOk result (λ r. r ≡ length (map core.plain_mem regs.old.items)) }
{
    let r = next_number(regs)?;
    regs.push(state_register(alloc, ty)?)?;
    Ok(r)
}

/// The first number after those of the registers of early bounds.
pub(crate) fn after_bounds(r: u32, counters: &[Counter]) -> Result<u32, NoMemory>
    ensures { IfOk result (λ n. n ≡ r + length (registers_for is_early (bounds_of (map plain_counter counters.now)))) }
{
    let [counter, rest @ ..] = counters else {
        return Ok(r);
    };
    let second = after(Crossing::Bound, r, &counter.from)?;
    let next = after(Crossing::Bound, second, &counter.until)?;
    after_bounds(next, rest)
}
