//! Laws of forms in runs. Each function does nothing: what it ensures is the law.

ghost use Rattle.sp_core.specs.PlainCore.{PlainCore};
ghost use Rattle.sp_core.specs.Scope.{no_scope};
ghost use Rattle.std.specs.Prelude.{[]};
ghost use Rattle.sp_patterns.specs.Ranges.{nothing_around};
ghost use Rattle.sp_forms_hold.specs.RunsLaws.{IsPlaced, AreEntered, ListsHold};
ghost use Rattle.sp_forms_hold.specs.RunsStanding.{PartsStand};

use sp_fitting::{lists_fit, stores_fit};
use sp_hold::{accesses_are_at_their_forms, counters_have_their_values, words_are_like_forms};
use sp_words::values_are_a_range;

/// In each group of a controller its counters have values in their known ranges, after those of the counters around it.
pub fn controllers_are_entered()
    ensures outside { IsPlaced no_scope nothing_around [] }
    ensures inside { (core : PlainCore) → AreEntered core }
{
    lists_fit();
    words_are_like_forms();
    counters_have_their_values();
    values_are_a_range();
}

/// The operations, transfers and forms of the parts of a core stand where its own do, as they are numbered.
pub fn parts_stand_at_their_numbers()
    ensures { (core : PlainCore) → PartsStand core }
{}

/// Each access of a list of a core's run is at its forms.
pub fn lists_hold()
    ensures { (core : PlainCore) → ListsHold core }
{
    lists_fit();
    stores_fit();
    accesses_are_at_their_forms();
    parts_stand_at_their_numbers();
}
