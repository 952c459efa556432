//! Laws of symbols in runs. Each function does nothing: what it ensures is the law.

ghost use Rattle.sp_core.specs.PlainCore.{PlainCore};
ghost use Rattle.sp_forms_hold.specs.GroupsLaws.{ListsKeepSymbols, NodesKeepSymbols, CoresKeepSymbols};

use crate::hold::{counts_hold, slices_hold};
use crate::runs::{controllers_are_entered, lists_hold, parts_stand_at_their_numbers};
use sp_fitting::{lists_fit, runs_fit, stores_fit};
use sp_hold::accesses_are_at_their_forms;
use sp_words::{parts_make_the_type, values_are_a_range, wrapping_is_kept};

/// Each access of a list is at its forms, at the words that symbols have as the list begins.
pub fn lists_keep_symbols()
    ensures { (core : PlainCore) → ListsKeepSymbols core }
{
    wrapping_is_kept();
    values_are_a_range();
    parts_make_the_type();
    lists_fit();
    stores_fit();
    accesses_are_at_their_forms();
    parts_stand_at_their_numbers();
}

/// In a run of a node each run of an inner body is at its forms, with one word for each symbol in each group.
pub fn nodes_keep_symbols()
    ensures { (core : PlainCore) → NodesKeepSymbols core }
{
    lists_fit();
    parts_stand_at_their_numbers();
    controllers_are_entered();
    lists_hold();
    slices_hold();
    counts_hold();
    lists_keep_symbols();
}

/// So it is in each run of a core.
pub fn cores_keep_symbols()
    ensures { CoresKeepSymbols }
{
    runs_fit();
    parts_stand_at_their_numbers();
    controllers_are_entered();
    nodes_keep_symbols();
}
