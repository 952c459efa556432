//! Words of operations that have a mask.
ghost use Rattle.std.specs.Prelude.{◌≡◌, ℕ, ◌+◌, ◌≤◌, IsTrue, [], length, take, if◌then◌else◌, IfOk, OnOk};
ghost use Rattle.sp_gates.specs.Bits.{IsOne};
ghost use Rattle.sp_gates.specs.Grows.{Fills};
ghost use Rattle.sp_gates.specs.Nets.{HasNet};
ghost use Rattle.sp_gates.specs.Runs.{RunsOn};
ghost use Rattle.sp_netlist.specs.Signals.{Signals};
ghost use Rattle.sp_pipe.specs.Acts.{AreStages, IsMasked};
ghost use Rattle.sp_pipe.specs.Right.{OpFits};
ghost use Rattle.sp_pipe.specs.Values.{given_width, gives_word};

use crate::kinds::{given_width, gives_word, time_of, word_time};
use crate::operands::operand;
use crate::part::PipeOp;
use crate::words::Stage;
use sp_gates::{choose, constant, delay};
use sp_netlist::{Builder, NetId, NoMemory};

/// A net with the word of an operation, by one with what it gives where it is done: 0 where its mask is 0. `one` is always 1.
fn masked(
    builder: &mut Builder,
    stages: &[Stage],
    ops: &[PipeOp],
    op: &PipeOp,
    net: NetId,
    one: NetId,
) -> Result<NetId, NoMemory>
    requires within { length stages.now ≤ length ops.now }
    requires fits { OpFits builder.old (take (length stages.now) ops.now) op.now }
    requires stages { AreStages builder.old stages.now ops.now }
    requires net { HasNet builder.old net (given_width op.now.act op.now.ty) }
    requires one { IsOne builder.old one }
    ensures fills { OnOk result (Fills builder.old builder.new []) }
    ensures net { IfOk result (λ word. HasNet builder.new word (given_width op.now.act op.now.ty)) }
    ensures word { IfOk result (λ word. IsMasked builder.new word net ops.now op.now) }
{
    match op.mask {
        None => Ok(net),
        Some(mask) => {
            let width = given_width(op.act, op.ty);
            let time = time_of(op);
            let wanted = operand(builder, stages, ops, mask, 1, time, one)?;
            let late = delay(builder, width, net, time - word_time(op), one)?;
            let zero = constant(builder, width, 0)?;
            let word = choose(builder, width, wanted, late, zero)?;
            Ok(word)
        }
    }
}

/// The same of any operation, where it gives a word.
pub(crate) fn under_mask(
    builder: &mut Builder,
    stages: &[Stage],
    ops: &[PipeOp],
    op: &PipeOp,
    net: NetId,
    one: NetId,
) -> Result<NetId, NoMemory>
    requires within { length stages.now ≤ length ops.now }
    requires fits { OpFits builder.old (take (length stages.now) ops.now) op.now }
    requires stages { AreStages builder.old stages.now ops.now }
    requires net { IsTrue (gives_word op.now.act) → HasNet builder.old net (given_width op.now.act op.now.ty) }
    requires one { IsOne builder.old one }
    ensures fills { OnOk result (Fills builder.old builder.new []) }
    ensures net { IfOk result (λ word. IsTrue (gives_word op.now.act) → HasNet builder.new word (given_width op.now.act op.now.ty)) }
    ensures word { IfOk result (λ word. IsTrue (gives_word op.now.act) → IsMasked builder.new word net ops.now op.now) }
{
    if gives_word(op.act) {
        let word = masked(builder, stages, ops, op, net, one)?;
        Ok(word)
    } else {
        Ok(net)
    }
}
