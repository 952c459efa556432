//! The lanes of the last counter.
ghost use Rattle.std.specs.Prelude.{◌≡◌, ℕ, ◌*◌, ◌<◌, ◌^◌, ℤ, pos, ◌+ℤ◌, int_lt, [], IfOk, OnOk};
ghost use Rattle.sp_netlist.specs.Signals.{Signals};
ghost use Rattle.sp_gates.specs.Grows.{Fills};
ghost use Rattle.sp_gates.specs.Nets.{HasNet};
ghost use Rattle.sp_gates.specs.Runs.{RunsOn};
ghost use Rattle.sp_gates.specs.Tested.{is_on};
ghost use Rattle.sp_counters.specs.Counting.{advance_of, number};
ghost use Rattle.sp_counters.specs.Pieces.{AreMasks, HasInt};

use crate::part::{Count, Counter};
use crate::wide::{below, moved};
use sp_netlist::{Builder, NetId, NoMemory};
use std::alloc::Global;

/// A net that is 1 where the value of a lane is below the bound.
fn mask(builder: &mut Builder, counter: &Counter, more: u64) -> Result<NetId, NoMemory>
    requires value { HasInt builder.old counter.now.value }
    requires until { HasInt builder.old counter.now.until }
    requires small { more < 2 ^ 62 }
    ensures fills { OnOk result (Fills builder.old builder.new []) }
    ensures net { IfOk result (λ mask. HasNet builder.new mask 1) }
    ensures on { IfOk result (λ mask. (s : Signals) → RunsOn s builder.new.cells → (t : ℕ) → is_on s mask t ≡ int_lt (number s counter.now.value t +ℤ pos more) (number s counter.now.until t)) }
{
    let sum = moved(builder, counter.value, more)?;
    let mask = below(builder, sum, counter.until)?;
    Ok(mask)
}

/// For each lane a net that is 1 where it isn't masked.
pub(crate) fn emit_masks(
    alloc: Global,
    builder: &mut Builder,
    counter: &Counter,
    count: &Count,
) -> Result<Vec<NetId>, NoMemory>
    requires value { HasInt builder.old counter.now.value }
    requires until { HasInt builder.old counter.now.until }
    requires small { advance_of count.now < 2 ^ 62 }
    ensures fills { OnOk result (Fills builder.old builder.new []) }
    ensures masks { IfOk result (λ masks. AreMasks builder.new count.now counter.now masks.items count.now.par) }
{
    let mut masks = Vec::new(alloc);
    for lane in 0..count.par {
        let more = u64::from(lane) * u64::from(count.by);
        let net = mask(builder, counter, more)?;
        masks.push(net)?;
    }
    Ok(masks)
}
