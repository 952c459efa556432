//! Laws of groups of lanes. Each function does nothing: what it ensures is the law.

ghost use Rattle.sp_core.specs.PlainCore.{PlainCore};
ghost use Rattle.sp_lane_groups.specs.Laws.{GroupsAreMasked, GroupsGoAlong, GroupsHaveScopes, GroupsStand, InnersGoAlong, ResetsComeFirst};

use crate::places_have_room;
use sp_fitting::lists_fit;

/// What a memory holds that is reset before it is used makes no difference to a list of operations.
pub fn resets_come_first()
    ensures { (core : PlainCore) → ResetsComeFirst core }
{}

/// The lanes of a group of an inner body, one after the other, do what the core does in the iterations of the group.
pub fn groups_go_along()
    ensures { (core : PlainCore) → GroupsGoAlong core }
{}

/// So does the body of a controller in lanes, whether it has one lane or several.
pub fn inners_go_along()
    ensures { (core : PlainCore) → InnersGoAlong core }
{}

/// From a store whose words fit masks are bits in the iterations of a group.
pub fn groups_are_masked()
    ensures { (core : PlainCore) → GroupsAreMasked core }
{
    lists_fit();
}

/// In a group of lanes only the last counter differs from lane to lane, and it tells which lanes have an iteration.
pub fn groups_have_scopes()
    ensures { GroupsHaveScopes }
{}

/// At a place of a core a controller is a group in each of its groups of iterations.
pub fn groups_stand()
    ensures { (core : PlainCore) → GroupsStand core }
{
    places_have_room();
}
