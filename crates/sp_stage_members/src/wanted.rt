//! Whether a stage is wanted.
ghost use Rattle.std.specs.Prelude.{ℕ, ◌<◌, ◌≤◌, [], length, slice_index, IfOk, OnOk};
ghost use Rattle.sp_netlist.specs.Signals.{Signals};
ghost use Rattle.sp_gates.specs.Grows.{Fills};
ghost use Rattle.sp_gates.specs.Nets.{HasNet};
ghost use Rattle.sp_gates.specs.Runs.{RunsOn};
ghost use Rattle.sp_sequence.specs.Fits.{WantedFits};
ghost use Rattle.sp_stage_members.specs.Members.{IsWanted};

use sp_lane_nets::some_live;
use sp_netlist::{Builder, NetId, NoMemory};

/// A net that is 1 where some lane from the first up to the last has an iteration, by a net for each lane that is 1 where it has.
/// Lanes from the first one of all on always have one, and need no net.
pub fn wanted_net(
    builder: &mut Builder,
    masks: &[NetId],
    first: u32,
    last: u32,
) -> Result<Option<NetId>, NoMemory>
    requires order { first ≤ last }
    requires lanes { 1 ≤ first → last < length masks.now }
    requires masks { (i : ℕ) → i < length masks.now → HasNet builder.old (slice_index masks.now i) 1 }
    ensures fills { OnOk result (Fills builder.old builder.new []) }
    ensures fits { IfOk result (λ wanted. WantedFits builder.new wanted) }
    ensures told { IfOk result (λ wanted. (s : Signals) → RunsOn s builder.new.cells → IsWanted s masks.now first last wanted) }
{
    if first == 0 {
        return Ok(None);
    }
    let net = some_live(builder, masks, first as usize, last as usize)?;
    Ok(Some(net))
}
