//! When groups are issued, and when a body is done.
ghost use Rattle.std.specs.Prelude.{◌≡◌, ℕ, ◌-◌, ◌≤◌, ◌&&◌, ◌||◌, not, [], ◌∷◌, IfOk, OnOk};
ghost use Rattle.sp_gates.specs.Bits.{IsOne};
ghost use Rattle.sp_gates.specs.Grows.{Fills};
ghost use Rattle.sp_gates.specs.Nets.{HasNet, Awaits};
ghost use Rattle.sp_gates.specs.Runs.{RunsOn};
ghost use Rattle.sp_gates.specs.Tested.{is_on};
ghost use Rattle.sp_netlist.specs.Signals.{Signals};
ghost use Rattle.sp_pipe.specs.Issues.{after, later, due, is_end, IssuesOne, IssuesAll, Issues};
ghost use Rattle.sp_pipe.specs.Emitted.{GroupsFit, driven_of};

use crate::part::Groups;
use sp_gates::{delay, drive_after, on_both, on_either, on_not};
use sp_netlist::{Builder, NetId, NoMemory};

/// The net of the issue of groups, and that of the end.
#[derive(Clone, Copy, Debug)]
pub(crate) struct Issue {
    pub(crate) issue: NetId,
    pub(crate) done: NetId,
}

/// A net that is 1 in the cycle after one in which the other is, and one that is so many cycles after. `one` is always 1.
fn later(builder: &mut Builder, net: NetId, cycles: u32, one: NetId) -> Result<NetId, NoMemory>
    requires net { HasNet builder.old net 1 }
    requires one { IsOne builder.old one }
    ensures fills { OnOk result (Fills builder.old builder.new []) }
    ensures net { IfOk result (λ late. HasNet builder.new late 1) }
    ensures later { IfOk result (λ late. (s : Signals) → RunsOn s builder.new.cells → (t : ℕ) → is_on s late t ≡ later cycles (is_on s net) t) }
{
    let late = delay(builder, 1, net, cycles, one)?;
    Ok(late)
}

/// One group is issued, in the cycle after the start.
fn issue_one(
    builder: &mut Builder,
    start: NetId,
    latency: u32,
    one: NetId,
) -> Result<Issue, NoMemory>
    requires start { HasNet builder.old start 1 }
    requires one { IsOne builder.old one }
    ensures fills { OnOk result (Fills builder.old builder.new []) }
    ensures issue { IfOk result (λ nets. HasNet builder.new nets.issue 1) }
    ensures done { IfOk result (λ nets. HasNet builder.new nets.done 1) }
    ensures issues { IfOk result (λ nets. (s : Signals) → RunsOn s builder.new.cells → IssuesOne (is_on s start) (is_on s nets.issue) (is_on s nets.done) latency) }
{
    let issue = later(builder, start, 1, one)?;
    let done = later(builder, issue, latency, one)?;
    Ok(Issue { issue, done })
}

/// A net that is 1 so many cycles after a group was issued, where the body wasn't started since.
fn due(
    builder: &mut Builder,
    start: NetId,
    issue: NetId,
    cycles: u32,
    one: NetId,
) -> Result<NetId, NoMemory>
    requires start { HasNet builder.old start 1 }
    requires issue { HasNet builder.old issue 1 }
    requires one { IsOne builder.old one }
    ensures fills { OnOk result (Fills builder.old builder.new []) }
    ensures net { IfOk result (λ net. HasNet builder.new net 1) }
    ensures due { IfOk result (λ net. (s : Signals) → RunsOn s builder.new.cells → (t : ℕ) → is_on s net t ≡ due (is_on s start) (is_on s issue) cycles t) }
{
    let idle = on_not(builder, start)?;
    let mut due = issue;
    for _cycle in 0..cycles {
        let kept = on_both(builder, due, idle)?;
        due = later(builder, kept, 1, one)?;
    }
    Ok(due)
}

/// A net that is 1 where a body with operations is done: in the cycle after the start where there is no group, else so many
/// cycles after the last one, and one.
fn end(
    builder: &mut Builder,
    begun: NetId,
    more: NetId,
    issue: NetId,
    cycles: u32,
    one: NetId,
) -> Result<NetId, NoMemory>
    requires begun { HasNet builder.old begun 1 }
    requires more { HasNet builder.old more 1 }
    requires issue { HasNet builder.old issue 1 }
    requires one { IsOne builder.old one }
    ensures fills { OnOk result (Fills builder.old builder.new []) }
    ensures net { IfOk result (λ net. HasNet builder.new net 1) }
    ensures end { IfOk result (λ net. (s : Signals) → RunsOn s builder.new.cells → (t : ℕ) → is_on s net t ≡ ((is_on s begun t && not (is_on s more t)) || later cycles (λ u. after (is_on s issue) u && not (is_on s more u)) t)) }
{
    let over = on_not(builder, more)?;
    let none = on_both(builder, begun, over)?;
    let issued = later(builder, issue, 1, one)?;
    let last = on_both(builder, issued, over)?;
    let late = later(builder, last, cycles, one)?;
    let net = on_either(builder, none, late)?;
    Ok(net)
}

fn done(
    builder: &mut Builder,
    start: NetId,
    more: NetId,
    issue: NetId,
    latency: u32,
    one: NetId,
) -> Result<NetId, NoMemory>
    requires start { HasNet builder.old start 1 }
    requires more { HasNet builder.old more 1 }
    requires issue { HasNet builder.old issue 1 }
    requires one { IsOne builder.old one }
    ensures fills { OnOk result (Fills builder.old builder.new []) }
    ensures net { IfOk result (λ net. HasNet builder.new net 1) }
    ensures ends { IfOk result (λ net. (s : Signals) → RunsOn s builder.new.cells → (t : ℕ) → is_on s net t ≡ is_end (is_on s start) (is_on s more) (is_on s issue) latency t) }
{
    let begun = later(builder, start, 1, one)?;
    if latency == 0 {
        Ok(begun)
    } else {
        let net = end(builder, begun, more, issue, latency - 1, one)?;
        Ok(net)
    }
}

/// Groups are issued at an interval, from the cycle after the start on, while there is one more.
fn issue_all(
    builder: &mut Builder,
    start: NetId,
    groups: Groups,
    interval: u32,
    latency: u32,
    one: NetId,
) -> Result<Issue, NoMemory>
    requires start { HasNet builder.old start 1 }
    requires more { HasNet builder.old groups.more 1 }
    requires step { Awaits builder.old groups.step 1 }
    requires interval { 1 ≤ interval }
    requires one { IsOne builder.old one }
    ensures fills { OnOk result (Fills builder.old builder.new (groups.step ∷ [])) }
    ensures issue { IfOk result (λ nets. HasNet builder.new nets.issue 1) }
    ensures done { IfOk result (λ nets. HasNet builder.new nets.done 1) }
    ensures issues { IfOk result (λ nets. (s : Signals) → RunsOn s builder.new.cells → IssuesAll (is_on s start) (is_on s groups.more) (is_on s groups.step) (is_on s nets.issue) (is_on s nets.done) interval latency) }
{
    let issue = on_both(builder, groups.step, groups.more)?;
    let due = due(builder, start, issue, interval - 1, one)?;
    let turn = on_either(builder, start, due)?;
    let done = done(builder, start, groups.more, issue, latency, one)?;
    drive_after(builder, groups.step, turn, one)?;
    Ok(Issue { issue, done })
}

/// The issue of the groups of a body and its end. `one` is always 1.
pub(crate) fn issue_groups(
    builder: &mut Builder,
    start: NetId,
    groups: Option<Groups>,
    interval: u32,
    latency: u32,
    one: NetId,
) -> Result<Issue, NoMemory>
    requires start { HasNet builder.old start 1 }
    requires groups { GroupsFit builder.old groups }
    requires interval { 1 ≤ interval }
    requires one { IsOne builder.old one }
    ensures fills { OnOk result (Fills builder.old builder.new (driven_of groups)) }
    ensures issue { IfOk result (λ nets. HasNet builder.new nets.issue 1) }
    ensures done { IfOk result (λ nets. HasNet builder.new nets.done 1) }
    ensures issues { IfOk result (λ nets. (s : Signals) → RunsOn s builder.new.cells → Issues groups s start nets.issue nets.done interval latency) }
{
    match groups {
        None => issue_one(builder, start, latency, one),
        Some(groups) => issue_all(builder, start, groups, interval, latency, one),
    }
}
