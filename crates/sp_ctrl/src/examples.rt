//! A worked branch.
ghost use Rattle.std.specs.Prelude.{◌≡◌, ℕ, suc, ◌+◌, IfOk, OnOk};
ghost use Rattle.sp_gates.specs.Bits.{IsOne};
ghost use Rattle.sp_gates.specs.Grows.{Opens};
ghost use Rattle.sp_gates.specs.Nets.{HasNet};
ghost use Rattle.sp_gates.specs.Runs.{RunsOn};
ghost use Rattle.sp_gates.specs.Tested.{is_on};
ghost use Rattle.sp_netlist.specs.Signals.{Signals};
ghost use Rattle.sp_ctrl.specs.Fits.{IsChild};
ghost use Rattle.sp_ctrl.specs.Runs.{IsAfter};

use crate::choices::after;
use crate::emitting::emit;
use crate::part::Part;
use sp_gates::{one, reserve};
use sp_netlist::{Builder, Child, Ends, NetId, NoMemory};
use std::alloc::Global;

/// A part that is done a cycle after it is started. `one` is always 1.
fn short_child(builder: &mut Builder, one: NetId) -> Result<Child, NoMemory>
    requires { IsOne builder.old one }
    ensures opens { IfOk result (λ child. Opens builder.old builder.new child.start) }
    ensures child { IfOk result (λ child. IsChild builder.new child) }
    ensures takes { IfOk result (λ child. (s : Signals) → RunsOn s builder.new.cells → IsAfter (is_on s child.done) (is_on s child.start)) }
{
    let start = reserve(builder, 1)?;
    let done = after(builder, start, one)?;
    Ok(Child { start, done })
}

/// A branch over three such parts: whatever the test gives, it is done five cycles after its start.
pub fn worked_branch(
    alloc: Global,
    builder: &mut Builder,
    start: NetId,
    tested: NetId,
) -> Result<Ends, NoMemory>
    requires start { HasNet builder.old start 1 }
    requires tested { HasNet builder.old tested 1 }
    ensures done { IfOk result (λ ends. (s : Signals) → RunsOn s builder.new.cells → (t : ℕ) → is_on s ends.done (suc (suc (suc (suc (suc t))))) ≡ is_on s start t) }
{
    let one = one(builder)?;
    let test = short_child(builder, one)?;
    let yes = short_child(builder, one)?;
    let no = short_child(builder, one)?;
    let part = Part::Branch {
        start,
        test,
        tested,
        yes,
        no,
    };
    let ends = emit(alloc, builder, part)?;
    Ok(ends)
}
