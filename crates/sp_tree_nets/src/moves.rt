//! The transfers of a tree.
ghost use Rattle.std.specs.Prelude.{◌≡◌, ℕ, ◌+◌, ◌<◌, ◌^◌, ◌++◌, map, IfOk, OnOk};
ghost use Rattle.sp_gates.specs.Nets.{HasNet};
ghost use Rattle.sp_core.specs.Numbering.{spans_size};
ghost use Rattle.sp_core.specs.Plain.{plain_span};
ghost use Rattle.sp_core.specs.PlainCore.{PlainCore};
ghost use Rattle.sp_op_nets.specs.Acted.{answers_in};
ghost use Rattle.sp_op_nets.specs.Reserved.{Reserves};
ghost use Rattle.sp_bound_nets.specs.Spans.{AreSpansRight};
ghost use Rattle.sp_tree_handed.specs.declared.moves.Direction.{Direction};
ghost use Rattle.sp_tree_handed.specs.Lists.{spans_in};
ghost use Rattle.sp_tree_handed.specs.Moves.{AreMovesStanding, HasEnd, end_at, slices_in};
ghost use Rattle.sp_tree_handed.specs.Standing.{AreListsStanding, HandedStand};
ghost use Rattle.sp_tree_nets.specs.Slices.{IsSliceTree, transfer_node};

use crate::owners::no_owners;
use crate::tree::TreeNets;
use sp_bound_nets::emit_spans;
use sp_core::CoreSpan;
use sp_netlist::{Builder, Child, NetId, NoMemory};
use sp_op_nets::AroundNets;
use sp_tree_handed::TreeMove;
use std::alloc::Global;

/// Further transfers, behind those before.
pub(crate) fn append_moves(all: &mut Vec<TreeMove>, more: Vec<TreeMove>) -> Result<(), NoMemory>
    ensures { OnOk result (all.new.items ≡ all.old.items ++ more.items) }
{
    for one in more {
        all.push(one)?;
    }
    Ok(())
}

/// Those of one part, and behind them those of another.
pub(crate) fn both_moves(
    one: Vec<TreeMove>,
    other: Vec<TreeMove>,
) -> Result<Vec<TreeMove>, NoMemory>
    ensures { IfOk result (λ both. both.items ≡ one.items ++ other.items) }
{
    let mut all = one;
    append_moves(&mut all, other)?;
    Ok(all)
}

/// The net by which the transfer of a node is done, by the node's number.
fn end_of(ends: &[Option<NetId>], index: u32) -> Option<NetId>
    ensures { result ≡ end_at ends.now index }
{
    match ends.get(index as usize) {
        Some(end) => *end,
        None => None,
    }
}

/// Emits the nets of the ends of a transfer's slice, whichever way its words go. `index` is the number of its node, and `number` that of its first operation.
pub(crate) fn emit_slice(
    alloc: Global,
    builder: &mut Builder,
    spans: &[CoreSpan],
    index: u32,
    number: u32,
    around: &[AroundNets],
    ends: &[Option<NetId>],
    start: NetId,
) -> Result<TreeNets, NoMemory>
    requires right { AreSpansRight builder.old around.now (map plain_span spans.now) }
    requires numbers { number + spans_size (map plain_span spans.now) < 2 ^ 32 }
    requires start { HasNet builder.old start 1 }
    requires end { HasEnd builder.old ends.now index }
    ensures reserves { IfOk result (λ tree. Reserves builder.old builder.new (answers_in tree.acted.items)) }
    ensures start { IfOk result (λ tree. tree.child.start ≡ start) }
    ensures done { IfOk result (λ tree. HasNet builder.new tree.child.done 1) }
    ensures lists { IfOk result (λ tree. (core : PlainCore) → AreListsStanding builder.new core (spans_in (map plain_span spans.now) number) tree.acted.items) }
    ensures owners { IfOk result (λ tree. (core : PlainCore) → HandedStand builder.new core tree.owners) }
    ensures moves { IfOk result (λ tree. (way : Direction) (dram mem : ℕ) → AreMovesStanding builder.new (slices_in (transfer_node way dram mem (map plain_span spans.now)) index) tree.moves.items) }
    ensures tree { IfOk result (λ tree. IsSliceTree builder.old builder.new around.now ends.now (map plain_span spans.now) index number tree.child tree.acted.items tree.owners.turns.items tree.owners.kept.items tree.moves.items) }
{
    let Some(done) = end_of(ends, index) else {
        unreachable!()
    };
    let slice = emit_spans(alloc, builder, spans, number, around)?;
    let mut moves = Vec::new(alloc);
    moves.push(TreeMove {
        node: index,
        start,
        nets: slice.nets,
    })?;
    Ok(TreeNets {
        child: Child { start, done },
        acted: slice.acted,
        owners: no_owners(alloc),
        moves,
    })
}
