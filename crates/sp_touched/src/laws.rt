//! Laws of what events touch.

ghost use Rattle.sp_touched.specs.Touched.{RunsTouch};

use sp_fitting::{lists_fit, runs_fit};
use sp_forms_hold::{
    controllers_are_entered, counts_hold, lists_hold, parts_stand_at_their_numbers, slices_hold,
};

/// In each run of a core in lanes each event touches a target of a spot of its number, at the target's forms.
pub fn runs_touch()
    ensures { RunsTouch }
{
    lists_fit();
    runs_fit();
    parts_stand_at_their_numbers();
    controllers_are_entered();
    lists_hold();
    slices_hold();
    counts_hold();
}
