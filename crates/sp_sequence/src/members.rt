//! A member in its place.
ghost use Rattle.std.specs.Prelude.{◌≡◌, ℕ, ◌&&◌, ◌||◌, not, Some, None, [], ◌∷◌, IfOk, OnOk};
ghost use Rattle.sp_netlist.specs.Signals.{Signals};
ghost use Rattle.sp_gates.specs.Bits.{IsOne};
ghost use Rattle.sp_gates.specs.Grows.{Fills};
ghost use Rattle.sp_gates.specs.Nets.{Awaits, HasNet};
ghost use Rattle.sp_gates.specs.Runs.{RunsOn};
ghost use Rattle.sp_gates.specs.Tested.{is_on};
ghost use Rattle.sp_sequence.specs.Fits.{IsMember};
ghost use Rattle.sp_sequence.specs.Members.{IsAfter, IsStarted, after, goes, is_over, is_past};

use crate::part::Member;
use sp_gates::{delay, drive_after, on_both, on_either, on_not};
use sp_netlist::{Builder, Child, NetId, NoMemory};

/// A net that is 1 two cycles after each one in which the one net is 1 and the other isn't. `one` is always 1.
fn passed(builder: &mut Builder, cause: NetId, wanted: NetId, one: NetId) -> Result<NetId, NoMemory>
    requires cause { HasNet builder.old cause 1 }
    requires wanted { HasNet builder.old wanted 1 }
    requires one { IsOne builder.old one }
    ensures fills { OnOk result (Fills builder.old builder.new []) }
    ensures net { IfOk result (λ net. HasNet builder.new net 1) }
    ensures passed { IfOk result (λ net. (s : Signals) → RunsOn s builder.new.cells → (t : ℕ) → is_on s net t ≡ after (after (λ u. is_on s cause u && not (is_on s wanted u))) t) }
{
    let unwanted = on_not(builder, wanted)?;
    let skip = on_both(builder, cause, unwanted)?;
    let net = delay(builder, 1, skip, 2, one)?;
    Ok(net)
}

/// Runs a child in the cycle after each one in which `cause` is 1. The net is 1 where it is over.
fn run_always(
    builder: &mut Builder,
    cause: NetId,
    child: &Child,
    one: NetId,
) -> Result<NetId, NoMemory>
    requires cause { HasNet builder.old cause 1 }
    requires start { Awaits builder.old child.now.start 1 }
    requires done { HasNet builder.old child.now.done 1 }
    requires one { IsOne builder.old one }
    ensures fills { OnOk result (Fills builder.old builder.new (child.now.start ∷ [])) }
    ensures net { IfOk result (λ over. HasNet builder.new over 1) }
    ensures starts { OnOk result ((s : Signals) → RunsOn s builder.new.cells → IsAfter (is_on s child.now.start) (goes s (is_on s cause) None)) }
    ensures over { IfOk result (λ over. (s : Signals) → RunsOn s builder.new.cells → (t : ℕ) → is_on s over t ≡ is_past s (is_on s cause) child.now.done None t) }
{
    drive_after(builder, child.start, cause, one)?;
    Ok(child.done)
}

/// The same where it is wanted in that cycle; else it is passed over.
fn run_wanted(
    builder: &mut Builder,
    cause: NetId,
    child: &Child,
    wanted: NetId,
    one: NetId,
) -> Result<NetId, NoMemory>
    requires cause { HasNet builder.old cause 1 }
    requires start { Awaits builder.old child.now.start 1 }
    requires done { HasNet builder.old child.now.done 1 }
    requires wanted { HasNet builder.old wanted 1 }
    requires one { IsOne builder.old one }
    ensures fills { OnOk result (Fills builder.old builder.new (child.now.start ∷ [])) }
    ensures net { IfOk result (λ over. HasNet builder.new over 1) }
    ensures starts { OnOk result ((s : Signals) → RunsOn s builder.new.cells → IsAfter (is_on s child.now.start) (goes s (is_on s cause) (Some wanted))) }
    ensures over { IfOk result (λ over. (s : Signals) → RunsOn s builder.new.cells → (t : ℕ) → is_on s over t ≡ is_past s (is_on s cause) child.now.done (Some wanted) t) }
{
    let go = on_both(builder, cause, wanted)?;
    let skipped = passed(builder, cause, wanted, one)?;
    let over = on_either(builder, child.done, skipped)?;
    drive_after(builder, child.start, go, one)?;
    Ok(over)
}

/// Runs a member in the cycle after each one in which `cause` is 1. The net is 1 where it is over.
pub(crate) fn run_member(
    builder: &mut Builder,
    cause: NetId,
    member: &Member,
    one: NetId,
) -> Result<NetId, NoMemory>
    requires cause { HasNet builder.old cause 1 }
    requires member { IsMember builder.old member.now }
    requires one { IsOne builder.old one }
    ensures fills { OnOk result (Fills builder.old builder.new (member.now.child.start ∷ [])) }
    ensures net { IfOk result (λ over. HasNet builder.new over 1) }
    ensures starts { OnOk result ((s : Signals) → RunsOn s builder.new.cells → IsStarted s (is_on s cause) member.now) }
    ensures over { IfOk result (λ over. (s : Signals) → RunsOn s builder.new.cells → (t : ℕ) → is_on s over t ≡ is_over s (is_on s cause) member.now t) }
{
    match member.wanted {
        None => run_always(builder, cause, &member.child, one),
        Some(wanted) => run_wanted(builder, cause, &member.child, wanted, one),
    }
}
