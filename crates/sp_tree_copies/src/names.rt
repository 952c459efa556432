//! The nets of copies by which the operations of lists, transfers and the states of FSMs are named.
ghost use Rattle.std.specs.Prelude.{◌≡◌, [], ◌∷◌, map, List, OnOk};
ghost use Rattle.sp_core.specs.Plain.{plain_counter, plain_ops, plain_span};
ghost use Rattle.sp_core.specs.PlainCore.{PlainCore};
ghost use Rattle.sp_copy_nets.specs.Table.{numbers_at};
ghost use Rattle.sp_tree_handed.specs.declared.owners.LoopTurns.{LoopTurns};
ghost use Rattle.sp_tree_copies.specs.declared.numbers.LoopCopies.{LoopCopies};
ghost use Rattle.sp_tree_handed.specs.declared.owners.Keeping.{Keeping};
ghost use Rattle.sp_tree_copies.specs.Naming.{bound_names, transfer_names, name_of, names_of, span_names};
ghost use Rattle.sp_tree_copies.specs.Walks.{Adds, KeepsNext, KeepsStanding};

use crate::walk::Walk;
use sp_core::{CoreCounter, CoreSpan, Op};
use sp_netlist::{NetId, NoMemory};
use sp_tree_handed::Keeping;

/// The net of a memory's copy, of those around.
fn net_at(around: &[Option<NetId>], m: u32) -> Option<NetId>
    ensures { result ≡ numbers_at around.now m }
{
    match around.get(m as usize) {
        Some(net) => *net,
        None => None,
    }
}

/// The net of the copy of an operation's memory.
fn net_of(around: &[Option<NetId>], mem: Option<u32>) -> Option<NetId>
    ensures { result ≡ name_of (numbers_at around.now) mem }
{
    match mem {
        Some(m) => net_at(around, m),
        None => None,
    }
}

/// Names the operations of a list.
pub(crate) fn name_ops(
    walk: &mut Walk,
    around: &[Option<NetId>],
    ops: &[Op],
) -> Result<(), NoMemory>
    ensures adds { OnOk result (Adds (names_of (numbers_at around.now) (plain_ops ops.now)) [] [] 0 0 walk.old walk.new) }
    ensures stand { OnOk result ((core : PlainCore) (turns : List LoopTurns) (kept : List Keeping) (loops : List LoopCopies) → KeepsStanding core turns kept loops around.now walk.old walk.new) }
{
    for op in ops {
        walk.names.push(net_of(around, op.mem))?;
    }
    Ok(())
}

/// Names those of the bounds of counters: of each the first bound, and then the other one.
pub(crate) fn name_bounds(
    walk: &mut Walk,
    around: &[Option<NetId>],
    counters: &[CoreCounter],
) -> Result<(), NoMemory>
    ensures adds { OnOk result (Adds (bound_names (numbers_at around.now) (map plain_counter counters.now)) [] [] 0 0 walk.old walk.new) }
    ensures stand { OnOk result ((core : PlainCore) (turns : List LoopTurns) (kept : List Keeping) (loops : List LoopCopies) → KeepsStanding core turns kept loops around.now walk.old walk.new) }
{
    for counter in counters {
        name_ops(walk, around, &counter.from)?;
        name_ops(walk, around, &counter.until)?;
    }
    Ok(())
}

/// Names those of a span: of its index, or of its first end and then of the other one.
fn name_span(walk: &mut Walk, around: &[Option<NetId>], span: &CoreSpan) -> Result<(), NoMemory>
    ensures adds { OnOk result (Adds (span_names (numbers_at around.now) (plain_span span.now ∷ [])) [] [] 0 0 walk.old walk.new) }
    ensures stand { OnOk result ((core : PlainCore) (turns : List LoopTurns) (kept : List Keeping) (loops : List LoopCopies) → KeepsStanding core turns kept loops around.now walk.old walk.new) }
{
    match span {
        CoreSpan::One(ops) => name_ops(walk, around, ops),
        CoreSpan::Range(first, other) => {
            name_ops(walk, around, first)?;
            name_ops(walk, around, other)
        }
    }
}

/// Names those of spans, one after the other.
fn name_spans(walk: &mut Walk, around: &[Option<NetId>], spans: &[CoreSpan]) -> Result<(), NoMemory>
    ensures adds { OnOk result (Adds (span_names (numbers_at around.now) (map plain_span spans.now)) [] [] 0 0 walk.old walk.new) }
    ensures stand { OnOk result ((core : PlainCore) (turns : List LoopTurns) (kept : List Keeping) (loops : List LoopCopies) → KeepsStanding core turns kept loops around.now walk.old walk.new) }
{
    for span in spans {
        name_span(walk, around, span)?;
    }
    Ok(())
}

/// Names a load or a store by the copy of its memory, behind the operations of its spans.
pub(crate) fn name_transfer(
    walk: &mut Walk,
    around: &[Option<NetId>],
    spans: &[CoreSpan],
    mem: u32,
) -> Result<(), NoMemory>
    ensures adds { OnOk result (Adds (transfer_names (numbers_at around.now) mem (map plain_span spans.now)) [] [] 0 0 walk.old walk.new) }
    ensures stand { OnOk result ((core : PlainCore) (turns : List LoopTurns) (kept : List Keeping) (loops : List LoopCopies) → KeepsStanding core turns kept loops around.now walk.old walk.new) }
{
    name_spans(walk, around, spans)?;
    let net = net_at(around, mem);
    walk.names.push(net)?;
    Ok(())
}

/// An FSM keeps its state by the next net that the tree hands on, in the copy around it.
pub(crate) fn keep_next(
    walk: &mut Walk,
    around: &[Option<NetId>],
    kept: &[Keeping],
    state: u32,
) -> Result<(), NoMemory>
    ensures keeps { OnOk result (KeepsNext kept.now (numbers_at around.now state) walk.old walk.new) }
    ensures stand { OnOk result ((core : PlainCore) (turns : List LoopTurns) (loops : List LoopCopies) → KeepsStanding core turns kept.now loops around.now walk.old walk.new) }
{
    let Some(next) = kept.get(walk.states) else {
        return Ok(());
    };
    let copy = net_at(around, state);
    walk.kept.push(Keeping {
        mem: next.mem,
        done: next.done,
        word: next.word,
        copy,
    })?;
    walk.states += 1;
    Ok(())
}
