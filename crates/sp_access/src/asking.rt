//! Which of several accesses a port serves.
ghost use Rattle.std.specs.Prelude.{◌≡◌, ℕ, [], All, IfOk, OnOk};
ghost use Rattle.sp_netlist.specs.Signals.{Signals};
ghost use Rattle.sp_gates.specs.Grows.{Fills};
ghost use Rattle.sp_gates.specs.Nets.{HasNet};
ghost use Rattle.sp_gates.specs.Runs.{RunsOn};
ghost use Rattle.sp_gates.specs.Tested.{is_on};
ghost use Rattle.sp_access.specs.Asking.{AccessFits, is_asked, last_place};

use crate::access::Access;
use sp_gates::{choose, constant, on_either};
use sp_netlist::{Builder, NetId, NoMemory};

/// A net that is 1 where some access asks.
pub fn asked(builder: &mut Builder, accesses: &[Access]) -> Result<NetId, NoMemory>
    requires { All (AccessFits builder.old) accesses.now }
    ensures fills { OnOk result (Fills builder.old builder.new []) }
    ensures net { IfOk result (λ net. HasNet builder.new net 1) }
    ensures on { IfOk result (λ net. (s : Signals) → RunsOn s builder.new.cells → (t : ℕ) → is_on s net t ≡ is_asked s t accesses.now) }
{
    let mut net = constant(builder, 1, 0)?;
    for a in accesses {
        net = on_either(builder, net, a.on)?;
    }
    Ok(net)
}

/// The place of the last access that asks.
pub fn place_asked(builder: &mut Builder, accesses: &[Access]) -> Result<NetId, NoMemory>
    requires { All (AccessFits builder.old) accesses.now }
    ensures fills { OnOk result (Fills builder.old builder.new []) }
    ensures net { IfOk result (λ net. HasNet builder.new net 32) }
    ensures word { IfOk result (λ net. (s : Signals) → RunsOn s builder.new.cells → (t : ℕ) → s.net t net ≡ last_place s t accesses.now 0) }
{
    let mut net = constant(builder, 32, 0)?;
    for a in accesses {
        net = choose(builder, 32, a.on, a.place, net)?;
    }
    Ok(net)
}
