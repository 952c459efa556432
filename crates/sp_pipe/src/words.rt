//! The words of operations on nets.
ghost use Rattle.std.specs.Prelude.{◌≡◌, ℕ, ◌<◌, IsTrue, true, [], length, slice_index, IfOk, OnOk};
ghost use Rattle.sp_gates.specs.Bits.{IsOne};
ghost use Rattle.sp_gates.specs.Grows.{Fills};
ghost use Rattle.sp_gates.specs.Nets.{HasNet};
ghost use Rattle.sp_pipe.specs.Acts.{IsComputed};
ghost use Rattle.sp_pipe.specs.Right.{ActFits};
ghost use Rattle.sp_pipe.specs.Values.{gives_word, given_width, taken_width, takes};

use crate::operators::{binary, shifted, unary};
use crate::part::{Act, PipeOp};
use sp_gates::{cast, choose, constant};
use sp_netlist::{Builder, NetId, NoMemory};

/// The net of a word, and how many cycles after the issue of its group the word stands there first.
#[derive(Clone, Copy, Debug)]
pub struct Stage {
    pub net: NetId,
    pub time: u32,
}

/// The net that has the word of an operation, where it gives one, by the nets of the words that it takes. `one` is always 1.
pub(crate) fn computed(
    builder: &mut Builder,
    op: &PipeOp,
    operands: &[NetId],
    one: NetId,
) -> Result<NetId, NoMemory>
    requires act { ActFits builder.old op.now.ty op.now.act }
    requires count { takes op.now.act (length operands.now) ≡ true }
    requires nets { (i : ℕ) → i < length operands.now → HasNet builder.old (slice_index operands.now i) (taken_width op.now.act op.now.ty (length operands.now) i) }
    requires one { IsOne builder.old one }
    ensures fills { OnOk result (Fills builder.old builder.new []) }
    ensures net { IfOk result (λ net. IsTrue (gives_word op.now.act) → HasNet builder.new net (given_width op.now.act op.now.ty)) }
    ensures word { IfOk result (λ net. IsTrue (gives_word op.now.act) → IsComputed builder.new net op.now operands.now) }
{
    match op.act {
        Act::Given(net) => Ok(net),
        Act::Word(word) => {
            let net = constant(builder, op.ty.width(), word)?;
            Ok(net)
        }
        Act::One(unary_op) => {
            let net = unary(builder, op.ty, unary_op, operands[0])?;
            Ok(net)
        }
        Act::Two(binary_op) => {
            let net = binary(builder, op.ty, binary_op, operands[0], operands[1])?;
            Ok(net)
        }
        Act::Shift(left, by) => {
            let net = shifted(builder, op.ty, left, operands[0], by)?;
            Ok(net)
        }
        Act::Mux => {
            let width = op.ty.width();
            let net = choose(builder, width, operands[0], operands[1], operands[2])?;
            Ok(net)
        }
        Act::Cast(to) => {
            let net = cast(builder, op.ty, to, operands[0])?;
            Ok(net)
        }
        Act::Read(net, _) => Ok(net),
        Act::Deq(net, _) => Ok(net),
        _ => Ok(one),
    }
}
