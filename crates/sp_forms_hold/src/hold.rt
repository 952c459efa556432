//! Laws of the forms of whole cores. Each function does nothing: what it ensures is the law.

ghost use Rattle.sp_core.specs.PlainCore.{PlainCore};
ghost use Rattle.sp_forms_hold.specs.HoldLaws.{SlicesHold, CountsHold, NodesHold, CoresHold};

use crate::runs::{controllers_are_entered, lists_hold, parts_stand_at_their_numbers};
use sp_fitting::{lists_fit, nodes_fit, runs_fit, stores_fit};
use sp_hold::indices_are_their_forms;
use sp_words::{parts_make_the_type, values_are_a_range, wrapping_is_kept};

/// The first indices of a slice are its forms, and its ranges are no longer than is known.
pub fn slices_hold()
    ensures { (core : PlainCore) → SlicesHold core }
{
    wrapping_is_kept();
    values_are_a_range();
    parts_make_the_type();
    stores_fit();
    indices_are_their_forms();
    parts_stand_at_their_numbers();
}

/// A gather or scatter moves no more words than is known.
pub fn counts_hold()
    ensures { (core : PlainCore) → CountsHold core }
{
    wrapping_is_kept();
    values_are_a_range();
    parts_make_the_type();
    lists_fit();
    parts_stand_at_their_numbers();
}

/// In a run of a node each access and each transfer is at its forms.
pub fn nodes_hold()
    ensures { (core : PlainCore) → NodesHold core }
{
    lists_fit();
    parts_stand_at_their_numbers();
    controllers_are_entered();
    lists_hold();
    slices_hold();
    counts_hold();
}

/// The forms of a core hold in each of its runs.
pub fn forms_hold()
    ensures { CoresHold }
{
    runs_fit();
    parts_stand_at_their_numbers();
    controllers_are_entered();
    nodes_hold();
}
