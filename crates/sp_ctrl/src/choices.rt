//! Where a test goes, and what comes a cycle later.
ghost use Rattle.std.specs.Prelude.{◌≡◌, ℕ, ◌&&◌, ◌||◌, not, [], IfOk, OnOk};
ghost use Rattle.sp_gates.specs.Bits.{IsOne};
ghost use Rattle.sp_gates.specs.Grows.{Fills};
ghost use Rattle.sp_gates.specs.Nets.{HasNet};
ghost use Rattle.sp_gates.specs.Runs.{RunsOn};
ghost use Rattle.sp_gates.specs.Tested.{is_on};
ghost use Rattle.sp_netlist.specs.Signals.{Signals};
ghost use Rattle.sp_ctrl.specs.Runs.{IsAfter};

use sp_gates::{delay, on_both, on_either, on_not};
use sp_netlist::{Builder, NetId, NoMemory};

/// The nets of a test: it gave 1, and it gave 0.
#[derive(Clone, Copy, Debug)]
pub(crate) struct Decision {
    pub(crate) yes: NetId,
    pub(crate) no: NetId,
}

/// Where a test is done, and what it gave there.
pub(crate) fn decided(
    builder: &mut Builder,
    done: NetId,
    tested: NetId,
) -> Result<Decision, NoMemory>
    requires done { HasNet builder.old done 1 }
    requires tested { HasNet builder.old tested 1 }
    ensures fills { OnOk result (Fills builder.old builder.new []) }
    ensures yes_net { IfOk result (λ nets. HasNet builder.new nets.yes 1) }
    ensures no_net { IfOk result (λ nets. HasNet builder.new nets.no 1) }
    ensures yes { IfOk result (λ nets. (s : Signals) → RunsOn s builder.new.cells → (t : ℕ) → is_on s nets.yes t ≡ (is_on s done t && is_on s tested t)) }
    ensures no { IfOk result (λ nets. (s : Signals) → RunsOn s builder.new.cells → (t : ℕ) → is_on s nets.no t ≡ (is_on s done t && not (is_on s tested t))) }
{
    let yes = on_both(builder, done, tested)?;
    let other = on_not(builder, tested)?;
    let no = on_both(builder, done, other)?;
    Ok(Decision { yes, no })
}

/// A net that is 1 in the cycle after each one in which the other is. `one` is always 1.
pub(crate) fn after(builder: &mut Builder, net: NetId, one: NetId) -> Result<NetId, NoMemory>
    requires net { HasNet builder.old net 1 }
    requires one { IsOne builder.old one }
    ensures fills { OnOk result (Fills builder.old builder.new []) }
    ensures net { IfOk result (λ late. HasNet builder.new late 1) }
    ensures after { IfOk result (λ late. (s : Signals) → RunsOn s builder.new.cells → IsAfter (is_on s late) (is_on s net)) }
{
    let late = delay(builder, 1, net, 1, one)?;
    Ok(late)
}

/// A net that is 1 in the cycle after each one in which one of the two is.
pub(crate) fn after_either(
    builder: &mut Builder,
    a: NetId,
    b: NetId,
    one: NetId,
) -> Result<NetId, NoMemory>
    requires left { HasNet builder.old a 1 }
    requires right { HasNet builder.old b 1 }
    requires one { IsOne builder.old one }
    ensures fills { OnOk result (Fills builder.old builder.new []) }
    ensures net { IfOk result (λ late. HasNet builder.new late 1) }
    ensures after { IfOk result (λ late. (s : Signals) → RunsOn s builder.new.cells → IsAfter (is_on s late) (λ t. is_on s a t || is_on s b t)) }
{
    let either = on_either(builder, a, b)?;
    let late = after(builder, either, one)?;
    Ok(late)
}
