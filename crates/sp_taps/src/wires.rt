//! Nets that were promised, and are computed.
ghost use Rattle.std.specs.Prelude.{◌≡◌, ℕ, [], ◌∷◌, OnOk};
ghost use Rattle.sp_netlist.specs.Rules.{IsWidth};
ghost use Rattle.sp_netlist.specs.Signals.{Signals};
ghost use Rattle.sp_gates.specs.Bits.{IsOne};
ghost use Rattle.sp_gates.specs.Grows.{Fills};
ghost use Rattle.sp_gates.specs.Nets.{HasNet};
ghost use Rattle.sp_gates.specs.Runs.{RunsOn};
ghost use Rattle.sp_taps.specs.Wires.{IsWire};

use sp_netlist::{Builder, Cell, NetId, NoMemory};

/// Drives a promised net: it has the word of the other in each cycle. `one` is always 1.
pub fn connect(
    builder: &mut Builder,
    net: NetId,
    width: u8,
    from: NetId,
    one: NetId,
) -> Result<(), NoMemory>
    requires width { IsWidth width }
    requires net { IsWire builder.old net width }
    requires from { HasNet builder.old from width }
    requires one { IsOne builder.old one }
    ensures fills { OnOk result (Fills builder.old builder.new (net ∷ [])) }
    ensures word { OnOk result ((s : Signals) → RunsOn s builder.new.cells → (t : ℕ) → s.net t net ≡ s.net t from) }
{
    builder.add(Cell::Mux(net, width, one, from, from))?;
    Ok(())
}
