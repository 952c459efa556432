//! Laws of meets in runs.

ghost use Rattle.sp_meets_hold.specs.HoldLaws.{MeetsAreRight};

use crate::symbols::symbols_stay;
use sp_along::{
    events_have_spots, groups_go_on, met_accesses_stand, runs_are_apart, runs_are_traced,
    runs_go_up,
};
use sp_touched::runs_touch;

/// In each run of a core two events that touch one element, one of which changes it, stand in the meets of the core at no
/// greater distance.
pub fn meets_hold()
    ensures { MeetsAreRight }
{
    events_have_spots();
    runs_go_up();
    groups_go_on();
    met_accesses_stand();
    runs_are_apart();
    runs_are_traced();
    runs_touch();
    symbols_stay();
}
