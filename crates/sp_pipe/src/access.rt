//! Where operations act on memories.
ghost use Rattle.std.specs.Prelude.{◌≡◌, ℕ, ◌+◌, ◌<◌, ◌≤◌, ◌&&◌, false, [], length, take, IfOk, OnOk};
ghost use Rattle.sp_gates.specs.Bits.{IsOne};
ghost use Rattle.sp_gates.specs.Grows.{Fills};
ghost use Rattle.sp_gates.specs.Nets.{HasNet};
ghost use Rattle.sp_gates.specs.Runs.{RunsOn};
ghost use Rattle.sp_gates.specs.Tested.{is_on};
ghost use Rattle.sp_netlist.specs.Signals.{Signals};
ghost use Rattle.sp_pipe.specs.Acts.{AreStages};
ghost use Rattle.sp_pipe.specs.Right.{OpFits};
ghost use Rattle.sp_pipe.specs.Values.{is_wanted, words_of};

use crate::operands::operand;
use crate::part::PipeOp;
use crate::words::Stage;
use sp_gates::{delay, on_both};
use sp_netlist::{Builder, NetId, NoMemory};

/// A net that is 1 where an access acts: at its time after the issue of a group in which its mask is 1. `one` is always 1.
pub(crate) fn enable_of(
    builder: &mut Builder,
    stages: &[Stage],
    ops: &[PipeOp],
    op: &PipeOp,
    issue: NetId,
    one: NetId,
) -> Result<NetId, NoMemory>
    requires within { length stages.now ≤ length ops.now }
    requires fits { OpFits builder.old (take (length stages.now) ops.now) op.now }
    requires stages { AreStages builder.old stages.now ops.now }
    requires issue { HasNet builder.old issue 1 }
    requires one { IsOne builder.old one }
    ensures fills { OnOk result (Fills builder.old builder.new []) }
    ensures net { IfOk result (λ net. HasNet builder.new net 1) }
    ensures enabled { IfOk result (λ net. (s : Signals) → RunsOn s builder.new.cells → (u : ℕ) → is_on s net (u + op.now.time) ≡ (is_on s issue u && is_wanted (words_of s u ops.now) op.now.mask)) }
    ensures early { IfOk result (λ net. (s : Signals) → RunsOn s builder.new.cells → (t : ℕ) → t < op.now.time → is_on s net t ≡ false) }
{
    let late = delay(builder, 1, issue, op.time, one)?;
    match op.mask {
        None => Ok(late),
        Some(mask) => {
            let wanted = operand(builder, stages, ops, mask, 1, op.time, one)?;
            let net = on_both(builder, late, wanted)?;
            Ok(net)
        }
    }
}
