//! Chains of members, one after the other and at once.
ghost use Rattle.std.specs.Prelude.{◌≡◌, ℕ, ◌||◌, ◌&&◌, not, [], ◌∷◌, ◌++◌, IfOk, OnOk};
ghost use Rattle.sp_netlist.specs.Signals.{Signals};
ghost use Rattle.sp_gates.specs.Bits.{IsOne};
ghost use Rattle.sp_gates.specs.Grows.{Fills};
ghost use Rattle.sp_gates.specs.Nets.{HasNet};
ghost use Rattle.sp_gates.specs.Runs.{RunsOn};
ghost use Rattle.sp_gates.specs.Tested.{is_on};
ghost use Rattle.sp_sequence.specs.Fits.{AreMembers, AreChains, chain_starts, starts_of};
ghost use Rattle.sp_sequence.specs.Joins.{ChainsStart, chains_over, is_end, is_since};
ghost use Rattle.sp_sequence.specs.Members.{AreStarted, chain_over};

use crate::members::run_member;
use crate::part::{Chain, Member};
use sp_gates::{drive_after, on_both, on_either, on_not, reserve};
use sp_netlist::{Builder, NetId, NoMemory};

/// Runs members one after the other, the first one in the cycle after each one in which `cause` is 1. The net is 1 where the
/// last one is over. `one` is always 1.
fn run_chain(
    builder: &mut Builder,
    cause: NetId,
    members: &[Member],
    one: NetId,
) -> Result<NetId, NoMemory>
    requires cause { HasNet builder.old cause 1 }
    requires members { AreMembers builder.old members.now }
    requires one { IsOne builder.old one }
    ensures fills { OnOk result (Fills builder.old builder.new (starts_of members.now)) }
    ensures net { IfOk result (λ over. HasNet builder.new over 1) }
    ensures starts { OnOk result ((s : Signals) → RunsOn s builder.new.cells → AreStarted s (is_on s cause) members.now) }
    ensures over { IfOk result (λ over. (s : Signals) → RunsOn s builder.new.cells → (t : ℕ) → is_on s over t ≡ chain_over s (is_on s cause) members.now t) }
{
    let [first, rest @ ..] = members else {
        return Ok(cause);
    };
    let over = run_member(builder, cause, first, one)?;
    let last = run_chain(builder, over, rest, one)?;
    Ok(last)
}

/// A net that is 1 where the other is or was since the last first cycle.
fn since(builder: &mut Builder, first: NetId, over: NetId, one: NetId) -> Result<NetId, NoMemory>
    requires first { HasNet builder.old first 1 }
    requires over { HasNet builder.old over 1 }
    requires one { IsOne builder.old one }
    ensures fills { OnOk result (Fills builder.old builder.new []) }
    ensures net { IfOk result (λ net. HasNet builder.new net 1) }
    ensures since { IfOk result (λ net. (s : Signals) → RunsOn s builder.new.cells → (t : ℕ) → is_on s net t ≡ is_since (is_on s first) (is_on s over) t) }
{
    let seen = reserve(builder, 1)?;
    let now = on_either(builder, over, seen)?;
    let later = on_not(builder, first)?;
    let next = on_both(builder, now, later)?;
    drive_after(builder, seen, next, one)?;
    Ok(now)
}

/// Runs chains at once, from the cycle after each one in which `first` is 1. The net is 1 where each is over, or was since.
pub fn emit_chains(
    builder: &mut Builder,
    first: NetId,
    chains: &[Chain],
    one: NetId,
) -> Result<NetId, NoMemory>
    requires first { HasNet builder.old first 1 }
    requires chains { AreChains builder.old chains.now }
    requires one { IsOne builder.old one }
    ensures fills { OnOk result (Fills builder.old builder.new (chain_starts chains.now)) }
    ensures net { IfOk result (λ all. HasNet builder.new all 1) }
    ensures starts { OnOk result ((s : Signals) → RunsOn s builder.new.cells → ChainsStart s (is_on s first) chains.now) }
    ensures over { IfOk result (λ all. (s : Signals) → RunsOn s builder.new.cells → (t : ℕ) → is_on s all t ≡ chains_over s (is_on s first) chains.now t) }
{
    let [chain, rest @ ..] = chains else {
        return Ok(one);
    };
    let over = run_chain(builder, first, &chain.members, one)?;
    let own = since(builder, first, over, one)?;
    let others = emit_chains(builder, first, rest, one)?;
    let all = on_both(builder, own, others)?;
    Ok(all)
}

/// A net that is 1 where all has come after a first cycle, and in no cycle after until the next one.
pub fn emit_end(
    builder: &mut Builder,
    first: NetId,
    all: NetId,
    one: NetId,
) -> Result<NetId, NoMemory>
    requires first { HasNet builder.old first 1 }
    requires all { HasNet builder.old all 1 }
    requires one { IsOne builder.old one }
    ensures fills { OnOk result (Fills builder.old builder.new []) }
    ensures net { IfOk result (λ end. HasNet builder.new end 1) }
    ensures end { IfOk result (λ end. (s : Signals) → RunsOn s builder.new.cells → (t : ℕ) → is_on s end t ≡ is_end (is_on s first) (is_on s all) t) }
{
    let going = reserve(builder, 1)?;
    let end = on_both(builder, going, all)?;
    let missing = on_not(builder, all)?;
    let kept = on_both(builder, going, missing)?;
    let next = on_either(builder, first, kept)?;
    drive_after(builder, going, next, one)?;
    Ok(end)
}
