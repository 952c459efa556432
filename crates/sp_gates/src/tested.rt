//! Gates on nets of one bit of which only the width is known, as those that a part around drives later. What counts is
//! whether a net is 1.
ghost use Rattle.std.specs.Prelude.{◌≡◌, ℕ, suc, ◌&&◌, ◌||◌, not, false, [], ◌∷◌, IfOk, OnOk};
ghost use Rattle.sp_netlist.specs.Signals.{Signals};
ghost use Rattle.sp_gates.specs.Nets.{HasNet, Awaits};
ghost use Rattle.sp_gates.specs.Runs.{RunsOn};
ghost use Rattle.sp_gates.specs.Grows.{Fills};
ghost use Rattle.sp_gates.specs.Bits.{IsOne};
ghost use Rattle.sp_gates.specs.Tested.{is_on};

use crate::gates::{choose, constant, drive};
use sp_netlist::{Builder, NetId, NoMemory};

/// A net that is 1 exactly where both are.
pub fn on_both(builder: &mut Builder, a: NetId, b: NetId) -> Result<NetId, NoMemory>
    requires left { HasNet builder.old a 1 }
    requires right { HasNet builder.old b 1 }
    ensures fills { OnOk result (Fills builder.old builder.new []) }
    ensures net { IfOk result (λ net. HasNet builder.new net 1) }
    ensures on { IfOk result (λ net. (s : Signals) → RunsOn s builder.new.cells → (t : ℕ) → is_on s net t ≡ (is_on s a t && is_on s b t)) }
{
    let net = choose(builder, 1, a, b, a)?;
    Ok(net)
}

/// A net that is 1 exactly where one of the two is.
pub fn on_either(builder: &mut Builder, a: NetId, b: NetId) -> Result<NetId, NoMemory>
    requires left { HasNet builder.old a 1 }
    requires right { HasNet builder.old b 1 }
    ensures fills { OnOk result (Fills builder.old builder.new []) }
    ensures net { IfOk result (λ net. HasNet builder.new net 1) }
    ensures on { IfOk result (λ net. (s : Signals) → RunsOn s builder.new.cells → (t : ℕ) → is_on s net t ≡ (is_on s a t || is_on s b t)) }
{
    let net = choose(builder, 1, a, a, b)?;
    Ok(net)
}

/// A net that is 1 exactly where the other isn't.
pub fn on_not(builder: &mut Builder, a: NetId) -> Result<NetId, NoMemory>
    requires { HasNet builder.old a 1 }
    ensures fills { OnOk result (Fills builder.old builder.new []) }
    ensures net { IfOk result (λ net. HasNet builder.new net 1) }
    ensures on { IfOk result (λ net. (s : Signals) → RunsOn s builder.new.cells → (t : ℕ) → is_on s net t ≡ not (is_on s a t)) }
{
    let zero = constant(builder, 1, 0)?;
    let one = constant(builder, 1, 1)?;
    let net = choose(builder, 1, a, zero, one)?;
    Ok(net)
}

/// Drives a reserved net: it is 1 in the cycle after each one in which `next` is, and not in cycle 0. `one` is always 1.
pub fn drive_after(
    builder: &mut Builder,
    net: NetId,
    next: NetId,
    one: NetId,
) -> Result<(), NoMemory>
    requires net { Awaits builder.old net 1 }
    requires next { HasNet builder.old next 1 }
    requires one { IsOne builder.old one }
    ensures fills { OnOk result (Fills builder.old builder.new (net ∷ [])) }
    ensures first { OnOk result ((s : Signals) → RunsOn s builder.new.cells → is_on s net 0 ≡ false) }
    ensures later { OnOk result ((s : Signals) → RunsOn s builder.new.cells → (t : ℕ) → is_on s net (suc t) ≡ is_on s next t) }
{
    drive(builder, net, 1, 0, next, one)?;
    Ok(())
}
