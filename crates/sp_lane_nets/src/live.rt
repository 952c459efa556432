//! Whether some lanes have an iteration.
ghost use Rattle.std.specs.Prelude.{◌≡◌, ℕ, ◌-◌, ◌<◌, ◌≤◌, [], length, slice_index, IfOk, OnOk};
ghost use Rattle.sp_netlist.specs.Signals.{Signals};
ghost use Rattle.sp_core.specs.Scope.{is_some_up_to};
ghost use Rattle.sp_gates.specs.Grows.{Fills};
ghost use Rattle.sp_gates.specs.Nets.{HasNet};
ghost use Rattle.sp_gates.specs.Runs.{RunsOn};
ghost use Rattle.sp_gates.specs.Tested.{is_on};

use sp_gates::on_either;
use sp_netlist::{Builder, NetId, NoMemory};

/// A net that is 1 where some lane from the first up to the last has an iteration, by a net for each lane that is 1 where it has.
pub fn some_live(
    builder: &mut Builder,
    masks: &[NetId],
    first: usize,
    last: usize,
) -> Result<NetId, NoMemory>
    requires order { first ≤ last }
    requires within { last < length masks.now }
    requires masks { (i : ℕ) → i < length masks.now → HasNet builder.old (slice_index masks.now i) 1 }
    ensures fills { OnOk result (Fills builder.old builder.new []) }
    ensures net { IfOk result (λ net. HasNet builder.new net 1) }
    ensures on { IfOk result (λ net. (s : Signals) → RunsOn s builder.new.cells → (t : ℕ) → is_on s net t ≡ is_some_up_to (λ l. is_on s (slice_index masks.now l) t) first (last - first)) }
{
    let mut net = masks[first];
    for i in 0..last - first {
        net = on_either(builder, net, masks[first + 1 + i])?;
    }
    Ok(net)
}
