//! Laws of meets.

ghost use Rattle.sp_along.specs.MetApart.{RunsAreApart};
ghost use Rattle.sp_along.specs.MetGroups.{CountersHaveSteps, GroupsGoOn};
ghost use Rattle.sp_core.specs.PlainCore.{PlainCore};
ghost use Rattle.sp_along.specs.MetOrder.{LaterGroupsFollow, RunsAreInOrder};
ghost use Rattle.sp_along.specs.MetTouching.{MetAccessesStand};
ghost use Rattle.sp_along.specs.MetTraces.{RunsAreTraced, TogetherAtLoop, TogetherInOneTurn};

/// The counters of a controller go on, in lanes, by the steps of their ranges.
pub fn counters_have_steps()
    ensures { CountersHaveSteps }
{}

/// Of the groups of a loop, the one that stands some places after another is as many groups on: its last counter alone has
/// gone on by so many steps of a group, or an earlier one has gone on.
pub fn groups_go_on()
    ensures { GroupsGoOn }
{}

/// Two accesses that touch one element some groups of the innermost controller around both apart, or that share a write port
/// there, stand in the meets of the core, at no greater distance.
pub fn met_accesses_stand()
    ensures { MetAccessesStand }
{}

/// What happens in a run of a core stands in groups of the loops around it: its counters have the values of these groups.
pub fn runs_are_traced()
    ensures { (core : PlainCore) → RunsAreTraced core }
{}

/// Two places in a run that are together at a loop stand in two of its groups: the counters outside have one value each, and
/// those of the loop the values of these groups.
pub fn places_are_at_one_loop()
    ensures { (core : PlainCore) → TogetherAtLoop core }
{}

/// In a run of a core the groups of each loop come one after the other.
pub fn runs_are_in_order()
    ensures { (core : PlainCore) → RunsAreInOrder core }
{}

/// Of two places of a run that are together at a loop the second stands in no earlier group.
pub fn later_groups_follow()
    ensures { (core : PlainCore) → LaterGroupsFollow core }
{}

/// Of each two events of a run that are together at a loop, in two of its groups, the second has the loop's counters as many
/// groups on, and both have one value for each counter outside.
pub fn runs_are_apart()
    ensures { (core : PlainCore) → RunsAreApart core }
{}

/// Two places in a run that are together in one turn of an FSM, or in one branch, have one value for each counter outside.
pub fn places_are_in_one_turn()
    ensures { (core : PlainCore) → TogetherInOneTurn core }
{}
