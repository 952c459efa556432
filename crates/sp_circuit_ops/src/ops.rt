//! One operation, and a list of them.
ghost use Rattle.std.specs.Prelude.{◌≡◌, true, length, IfOk};
ghost use Rattle.sp_part_runs.specs.ActsCircuits.{IsActOf, is_given, is_answered, net_of, answer_of};
ghost use Rattle.sp_circuit_ops.specs.Circuit.{ArePlaced, IsPlacedOp};

use sp_core::{Op, OpKind};
use sp_netlist::{NetId, NoMemory};
use sp_pipe::{Act, PipeOp};
use std::alloc::Global;

/// The net of an operation: of a counter or a lane the one with its word in the cycle in which its group is issued, of a read or a
/// take the one on which its word comes so many cycles later. Of any other operation it says nothing.
#[derive(Clone, Copy, Debug, PartialEq, Eq)]
pub struct WordNet {
    pub net: NetId,
    pub after: u32,
}

/// What an operation does in a circuit.
fn act_of(kind: OpKind, net: WordNet) -> Act
    ensures of { IsActOf kind result }
    ensures given { is_given result ≡ true → net_of result ≡ net.net }
    ensures answered { is_answered result ≡ true → net_of result ≡ net.net }
    ensures later { is_answered result ≡ true → answer_of result ≡ net.after }
{
    match kind {
        OpKind::Word(word) => Act::Word(word),
        OpKind::Count(_, _) => Act::Given(net.net),
        OpKind::Live(_, _, _) => Act::Given(net.net),
        OpKind::Read => Act::Read(net.net, net.after),
        OpKind::Write => Act::Write,
        OpKind::Enq => Act::Enq,
        OpKind::Deq => Act::Deq(net.net, net.after),
        OpKind::Reset => Act::Reset,
        OpKind::One(op) => Act::One(op),
        OpKind::Two(op) => Act::Two(op),
        OpKind::Shift(left, by) => Act::Shift(left, by),
        OpKind::Mux => Act::Mux,
        OpKind::Cast(to) => Act::Cast(to),
    }
}

/// An operation at a time, in cycles after the issue of its group.
fn circuit_op(op: &Op, time: u32, net: WordNet) -> Result<PipeOp, NoMemory>
    ensures { IfOk result (IsPlacedOp op.now time net.net net.after) }
{
    Ok(PipeOp {
        act: act_of(op.kind, net),
        ty: op.ty,
        args: op.args.clone()?,
        mask: op.mask,
        time,
    })
}

/// The operations of a list as those of a circuit, each at its time after the issue of its group, and with its net.
pub fn circuit_ops(
    alloc: Global,
    ops: &[Op],
    times: &[u32],
    nets: &[WordNet],
) -> Result<Vec<PipeOp>, NoMemory>
    requires times { length times.now ≡ length ops.now }
    requires nets { length nets.now ≡ length ops.now }
    ensures { IfOk result (λ placed. ArePlaced ops.now times.now nets.now placed.items) }
{
    let mut placed = Vec::new(alloc);
    for index in 0..ops.len() {
        placed.push(circuit_op(&ops[index], times[index], nets[index])?)?;
    }
    Ok(placed)
}
