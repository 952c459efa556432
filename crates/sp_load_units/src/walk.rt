//! A walk over a tree, in the order of the numbers of its nodes.
ghost use Rattle.std.specs.Prelude.{◌≡◌, ◌+◌, ◌<◌, ◌≤◌, ◌^◌, [], ◌∷◌, ◌++◌, length, All, None, OnOk};
ghost use Rattle.sp_core.specs.CoreParts.{plain_core};
ghost use Rattle.sp_core.specs.Numbering.{node_count, number_count};
ghost use Rattle.sp_core.specs.Plain.{plain_node};
ghost use Rattle.sp_tree_handed.specs.Transfers.{core_transfer, transfers_in};
ghost use Rattle.sp_load_units.specs.Units.{IsTransferOf};
ghost use Rattle.sp_load_units.specs.Walks.{CanGo, Adds, Walked};

use crate::adding::{await_end, word_width};
use crate::ports::add_port;
use crate::unit::TransferUnit;
use sp_core::{Core, Node};
use sp_netlist::{Builder, NetId, NoMemory};
use sp_plan::{count_numbers, counters_size, spans_size};
use sp_tree_handed::{CoreTransfer, Direction};

/// The units so far, the nets by which nodes are done, by their numbers, and the number of the next operation.
#[derive(Debug, Drop)]
pub(crate) struct Walk {
    pub units: Vec<TransferUnit>,
    pub ends: Vec<Option<NetId>>,
    pub number: u32,
}

/// Passes numbers of operations.
fn skip(walk: &mut Walk, numbers: u32)
    requires { walk.old.number + numbers < 2 ^ 32 }
    ensures units { walk.new.units.items ≡ walk.old.units.items }
    ensures ends { walk.new.ends.items ≡ walk.old.ends.items }
    ensures number { walk.new.number ≡ walk.old.number + numbers }
{
    walk.number += numbers;
}

/// Passes a node that is no transfer, and numbers of operations.
fn pass(walk: &mut Walk, numbers: u32) -> Result<(), NoMemory>
    requires { walk.old.number + numbers < 2 ^ 32 }
    ensures units { OnOk result (walk.new.units.items ≡ walk.old.units.items) }
    ensures ends { OnOk result (walk.new.ends.items ≡ walk.old.ends.items ++ None ∷ []) }
    ensures number { OnOk result (walk.new.number ≡ walk.old.number + numbers) }
{
    walk.ends.push(None)?;
    walk.number += numbers;
    Ok(())
}

/// A transfer, by the numbers of its node and its own.
fn transfer_at(direction: Direction, node: u32, number: u32, dram: u32, mem: u32) -> CoreTransfer
    ensures { result ≡ core_transfer direction node number dram mem }
{
    CoreTransfer {
        direction,
        node,
        number,
        dram,
        mem,
    }
}

/// Adds the unit of a transfer, whose slice has so many operations.
fn add_one(
    builder: &mut Builder,
    walk: &mut Walk,
    core: &Core,
    direction: Direction,
    dram: u32,
    mem: u32,
    ops: u32,
) -> Result<(), NoMemory>
    requires go { CanGo (plain_core core.now) builder.old walk.old }
    requires transfer { IsTransferOf (plain_core core.now) (core_transfer direction (length walk.old.ends.items) (walk.old.number + ops) dram mem) }
    requires node { length walk.old.ends.items < 2 ^ 32 }
    requires numbers { walk.old.number + (ops + 1) < 2 ^ 32 }
    ensures adds { OnOk result (Adds (plain_core core.now) builder.old walk.old builder.new walk.new (core_transfer direction (length walk.old.ends.items) (walk.old.number + ops) dram mem ∷ [])) }
    ensures nodes { OnOk result (length walk.new.ends.items ≡ length walk.old.ends.items + 1) }
    ensures number { OnOk result (walk.new.number ≡ walk.old.number + (ops + 1)) }
{
    let node = walk.ends.len() as u32;
    let transfer = transfer_at(direction, node, walk.number + ops, dram, mem);
    let channel = walk.units.len() as u64;
    let width = word_width(core, dram);
    let port = add_port(builder, direction, channel, dram, width)?;
    let done = await_end(builder)?;
    walk.units.push(TransferUnit {
        transfer,
        port,
        done,
    })?;
    walk.ends.push(Some(done))?;
    walk.number += ops + 1;
    Ok(())
}

/// Adds the units of a node and all in it. So many nodes have ends as stand before it.
pub(crate) fn add_node(
    builder: &mut Builder,
    walk: &mut Walk,
    core: &Core,
    node: &Node,
) -> Result<(), NoMemory>
    requires go { CanGo (plain_core core.now) builder.old walk.old }
    requires transfers { All (IsTransferOf (plain_core core.now)) (transfers_in (plain_node node.now) (length walk.old.ends.items) walk.old.number) }
    requires nodes { length walk.old.ends.items + node_count (plain_node node.now) ≤ 2 ^ 30 }
    requires numbers { walk.old.number + number_count (plain_node node.now) ≤ 2 ^ 30 }
    ensures walked { OnOk result (Walked (plain_core core.now) (plain_node node.now) builder.old walk.old builder.new walk.new) }
{
    match node {
        Node::Inner { .. } => pass(walk, count_numbers(node)),
        Node::Outer {
            counters,
            stages,
            ..
        } => {
            let numbers = counters_size(counters);
            pass(walk, numbers)?;
            for stage in stages {
                add_node(builder, walk, core, &stage.node)?;
            }
            Ok(())
        }
        Node::Fsm {
            start,
            test,
            body,
            next,
            ..
        } => {
            let numbers = (start.len() + test.len()) as u32;
            pass(walk, numbers)?;
            add_node(builder, walk, core, body)?;
            skip(walk, next.len() as u32);
            Ok(())
        }
        Node::Branch { test, yes, no } => {
            pass(walk, test.len() as u32)?;
            add_node(builder, walk, core, yes)?;
            add_node(builder, walk, core, no)
        }
        Node::Load { dram, mem, span } => {
            let ops = spans_size(span);
            add_one(builder, walk, core, Direction::Load, *dram, *mem, ops)
        }
        Node::Store { dram, mem, span } => {
            let ops = spans_size(span);
            add_one(builder, walk, core, Direction::Store, *dram, *mem, ops)
        }
        Node::Sparse { .. } => pass(walk, count_numbers(node)),
    }
}
