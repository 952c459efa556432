//! Accesses by the nets that a circuit hands on.
ghost use Rattle.std.specs.Prelude.{◌≡◌, ℕ, ◌+◌, ◌<◌, ◌^◌, length, take, drop, IfOk, OnOk};
ghost use Rattle.sp_core.specs.Plain.{plain_ops};
ghost use Rattle.sp_access_nets.specs.Accesses.{AddAccesses, answer_in, AreHandedOn, AreNetsHandedOn, copy_in};

use crate::access::AccessNets;
use sp_circuit_ops::WordNet;
use sp_core::Op;
use sp_netlist::{NetId, NoMemory};
use sp_op_nets::ActedList;
use sp_pipe::{Act, PipeOp};
use std::alloc::Global;

/// The net on which an operation is to be answered.
fn answer_net(act: Act) -> Option<WordNet>
    ensures { result ≡ answer_in act }
{
    match act {
        Act::Read(net, after) => Some(WordNet { net, after }),
        Act::Deq(net, after) => Some(WordNet { net, after }),
        _ => None,
    }
}

/// The net of the number of the copy on which the operation of a number acts.
fn copy_net(copies: &[Option<NetId>], number: u32) -> Option<NetId>
    ensures { result ≡ copy_in copies.now number }
{
    match copies.get(number as usize) {
        Some(net) => *net,
        None => None,
    }
}

/// The first nets of a list, and those behind them. Where there are fewer, all of them are the first ones.
fn split_within(nets: &[NetId], count: usize) -> (&[NetId], &[NetId])
    ensures front { result.0.now ≡ take count nets.now }
    ensures back { result.1.now ≡ drop count nets.now }
{
    if count <= nets.len() {
        nets.split_at(count)
    } else {
        (nets, &[])
    }
}

/// Adds the accesses of operations, of which the first one has this number, with the nets that stand for them in order.
fn add_accesses(
    alloc: Global,
    accesses: &mut Vec<AccessNets>,
    number: u32,
    ops: &[Op],
    placed: &[PipeOp],
    nets: &[NetId],
    copies: &[Option<NetId>],
) -> Result<(), NoMemory>
    requires numbers { number + length ops.now < 2 ^ 32 }
    ensures { OnOk result (AddAccesses (copy_in copies.now) number (plain_ops ops.now) placed.now nets.now accesses.old.items accesses.new.items) }
{
    let [op, later @ ..] = ops else {
        return Ok(());
    };
    let [first, rest @ ..] = placed else {
        return Ok(());
    };
    let Some(mem) = op.mem else {
        return add_accesses(alloc, accesses, number + 1, later, rest, nets, copies);
    };
    let [enable, behind @ ..] = nets else {
        return Ok(());
    };
    let (operands, left) = split_within(behind, first.args.len());
    accesses.push(AccessNets {
        number,
        kind: op.kind,
        mem,
        enable: *enable,
        operands: Vec::from_slice(alloc, operands)?,
        copy: copy_net(copies, number),
        answer: answer_net(first.act),
    })?;
    add_accesses(alloc, accesses, number + 1, later, rest, left, copies)
}

/// The accesses of a list of operations as its circuit has them. `copies` has by the number of each operation the net that carries the
/// number of the copy on which it acts, if there is one.
pub fn accesses_of(
    alloc: Global,
    ops: &[Op],
    acted: &ActedList,
    copies: &[Option<NetId>],
) -> Result<Vec<AccessNets>, NoMemory>
    requires numbers { acted.now.number + length ops.now < 2 ^ 32 }
    ensures nets { IfOk result (λ accesses. AreNetsHandedOn (plain_ops ops.now) acted.now.ops.items acted.now.nets.items accesses.items) }
    ensures accesses { IfOk result (λ accesses. AreHandedOn (copy_in copies.now) acted.now.number (plain_ops ops.now) acted.now.ops.items acted.now.nets.items accesses.items) }
{
    let mut accesses = Vec::new(alloc);
    add_accesses(
        alloc,
        &mut accesses,
        acted.number,
        ops,
        &acted.ops,
        &acted.nets,
        copies,
    )?;
    Ok(accesses)
}
