//! Laws of the iterations of groups of lanes. Each function does nothing: what it ensures is the law.

ghost use Rattle.sp_lane_groups.specs.ValuesLaws.{FirstLanesAreLive, GroupsAreIterations};

/// The iterations of a controller are those of its groups of lanes, one group after the other.
pub fn groups_are_iterations()
    ensures { GroupsAreIterations }
{}

/// In each group the lanes that have an iteration are the first ones, at least one.
pub fn first_lanes_are_live()
    ensures { FirstLanesAreLive }
{}
