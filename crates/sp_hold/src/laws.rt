//! Laws of forms. Each function does nothing: what it ensures is the law.

ghost use Rattle.std.specs.Prelude.{List};
ghost use Rattle.sp_affine.specs.Affine.{Affine};
ghost use Rattle.sp_core.specs.Around.{Around};
ghost use Rattle.sp_core.specs.PlainCore.{PlainOp, PlainCore};
ghost use Rattle.sp_patterns.specs.Ranges.{PlainAround};
ghost use Rattle.sp_hold.specs.Laws.{HasEntries, AreWordsLikeForms, IsIndexItsForm, AreFormsIndices, AreCountersInScope};

use sp_words::{
    divisions_leave_remainders, parts_make_the_type, values_are_a_range, wrapping_is_kept,
};

/// The forms of a core have an entry for each access and for each range.
pub fn accesses_have_entries()
    ensures { (core : PlainCore) → HasEntries core }
{}

/// The words of a list's operations are their forms' values modulo 2^32.
pub fn words_are_like_forms()
    ensures { (core : PlainCore) (ops : List PlainOp) → AreWordsLikeForms core ops }
{
    wrapping_is_kept();
    values_are_a_range();
    parts_make_the_type();
}

/// An index inside of its memory is its form's value.
pub fn indices_are_their_forms()
    ensures { (f : Affine) → IsIndexItsForm f }
{
    divisions_leave_remainders();
}

/// The forms of an access of a core's list, where they are known, are the indices at which it touches its memory.
pub fn accesses_are_at_their_forms()
    ensures { (core : PlainCore) (outside : Around) (around : PlainAround) (before : List PlainOp) (op : PlainOp) (after : List PlainOp) → AreFormsIndices core outside around before op after }
{
    wrapping_is_kept();
    values_are_a_range();
    parts_make_the_type();
    indices_are_their_forms();
}

/// In a group of a controller its counters have the group's values.
pub fn counters_have_their_values()
    ensures { AreCountersInScope }
{}
