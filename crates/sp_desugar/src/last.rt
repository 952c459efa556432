//! The last stages of a body.
ghost use Rattle.std.specs.Prelude.{◌≡◌, ℕ, List, map, OnOk};
ghost use Rattle.sp_core.specs.Plain as core;
ghost use Rattle.sp_core.specs.PlainCore.{no_stage};
ghost use Rattle.sp_tree.specs.Plain.{plain_expr, plain_mem};
ghost use Rattle.sp_tree.specs.PlainProgram.{PlainMem};
ghost use Rattle.sp_sugar.specs.Stages.{combination_stage, last_stages};
ghost use Rattle.sp_sugar.specs.Uses.{in_combination, in_last_run};
ghost use Rattle.sp_desugar.specs.Crossings.{onto};
ghost use Rattle.sp_desugar.specs.Names.{plain_ending};
ghost use Rattle.sp_operations.specs.Running.{run_of};
ghost use Rattle.sp_desugar.specs.Tree.{plain_combines, end_stages};

use crate::NoMemory;
use crate::combines::{Combines, push_combining};
use crate::stages::{push_run, push_stage};
use crate::uses::Ending;
use sp_core::{Node, Op, Stage};
use sp_operations::{
    Run, add_code, add_op, element_loop, next_place, push_code, push_op, read_op, write_op,
};
use sp_tree::{Expr, MemDecl};
use std::alloc::Global;

/// Appends the combination of a word as a stage, after the word's own operations.
fn push_combination(
    alloc: Global,
    out: &mut Vec<Stage>,
    mut ops: Vec<Op>,
    word: u32,
    combines: Combines<'_>,
) -> Result<(), NoMemory>
    ensures { OnOk result ((mems : List PlainMem) (counters : ℕ) → onto out.new.items no_stage ≡ onto out.old.items (combination_stage mems counters (record { ops = core.plain_ops ops.items; word = word }) (plain_combines combines.entry))) }
{
    let comb = next_place(&ops)?;
    push_combining(alloc, &mut ops, word, combines)?;
    let node = Node::Inner {
        counters: Vec::new(alloc),
        owned: Vec::new(alloc),
        ops,
        comb: Some(comb),
    };
    push_stage(out, true, node)?;
    Ok(())
}

/// Appends the last run, and the combination of a word that is computed there.
fn push_apart(
    alloc: Global,
    out: &mut Vec<Stage>,
    mems: &[MemDecl],
    run: Run,
    e: &Expr,
    combines: Combines<'_>,
) -> Result<(), NoMemory>
    ensures { OnOk result ((counters : ℕ) (n : ℕ) → onto out.new.items no_stage ≡ onto out.old.items (end_stages (map plain_mem mems.now) counters (run_of run) n (in_combination (plain_expr e.now)) (plain_combines combines.entry))) }
{
    let mut ops = Vec::new(alloc);
    let word = push_code(alloc, &mut ops, mems, &run.elsewhere, e)?;
    push_run(alloc, out, run.ops)?;
    push_combination(alloc, out, ops, word, combines)?;
    Ok(())
}

/// Appends the last run with the word that is combined, and the combination of the word in its register.
fn push_with_word(
    alloc: Global,
    out: &mut Vec<Stage>,
    mems: &[MemDecl],
    mut run: Run,
    n: u32,
    e: &Expr,
    combines: Combines<'_>,
) -> Result<(), NoMemory>
    ensures { OnOk result ((counters : ℕ) → onto out.new.items no_stage ≡ onto out.old.items (end_stages (map plain_mem mems.now) counters (run_of run) n (in_last_run (plain_expr e.now)) (plain_combines combines.entry))) }
{
    let word = add_code(alloc, &mut run, mems, e)?;
    add_op(&mut run, write_op(e.ty, n, vec![in alloc; word]?))?;
    push_run(alloc, out, run.ops)?;
    let mut ops = Vec::new(alloc);
    let again = push_op(&mut ops, read_op(e.ty, n, Vec::new(alloc)))?;
    push_combination(alloc, out, ops, again, combines)?;
    Ok(())
}

/// Appends the last stages of a body whose loop combines no elements.
fn push_end(
    alloc: Global,
    out: &mut Vec<Stage>,
    mems: &[MemDecl],
    run: Run,
    n: u32,
    ending: Ending<'_>,
    combines: Combines<'_>,
) -> Result<(), NoMemory>
    ensures { OnOk result ((counters : ℕ) → onto out.new.items no_stage ≡ onto out.old.items (end_stages (map plain_mem mems.now) counters (run_of run) n (plain_ending ending.entry) (plain_combines combines.entry))) }
{
    match ending {
        Ending::NoMore => {
            push_run(alloc, out, run.ops)?;
            Ok(())
        }
        Ending::InCombination(e) => {
            push_apart(alloc, out, mems, run, e, combines)?;
            Ok(())
        }
        Ending::InLastRun(e) => {
            push_with_word(alloc, out, mems, run, n, e, combines)?;
            Ok(())
        }
    }
}

/// Appends the last stages of a body: its last run, which may compute the word that is combined, and the combination. `n`
/// is the register of that word.
pub(crate) fn push_last(
    alloc: Global,
    out: &mut Vec<Stage>,
    mems: &[MemDecl],
    counters: u32,
    run: Run,
    n: u32,
    ending: Ending<'_>,
    combines: Combines<'_>,
) -> Result<(), NoMemory>
    ensures { OnOk result (onto out.new.items no_stage ≡ onto out.old.items (last_stages (map plain_mem mems.now) counters (run_of run) n (plain_ending ending.entry) (plain_combines combines.entry))) }
{
    match combines {
        Combines::ReducesElements(part, acc, begun, comb) => {
            push_run(alloc, out, run.ops)?;
            let node = element_loop(alloc, mems, counters, part, acc, begun, comb)?;
            push_stage(out, true, node)?;
            Ok(())
        }
        Combines::Nothing => {
            push_end(alloc, out, mems, run, n, ending, combines)?;
            Ok(())
        }
        Combines::Folds(_, _, _) => {
            push_end(alloc, out, mems, run, n, ending, combines)?;
            Ok(())
        }
        Combines::Reduces(_, _, _, _) => {
            push_end(alloc, out, mems, run, n, ending, combines)?;
            Ok(())
        }
    }
}
