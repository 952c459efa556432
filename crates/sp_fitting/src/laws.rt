//! Laws of words and their types. Each function does nothing: what it ensures is the law.

ghost use Rattle.sp_core.specs.PlainCore.{PlainCore};
ghost use Rattle.sp_fitting.specs.Laws.{ListsFit, NodesFit, RunsFit, WordsFit, SymbolsFit};

use sp_words::{operators_give_words, values_are_a_range};

/// What is read from a memory whose words fit has the memory's type.
pub fn stores_fit()
    ensures words { (core : PlainCore) → WordsFit core }
    ensures symbols { (core : PlainCore) → SymbolsFit core }
{
    values_are_a_range();
}

/// In a store whose words fit, a list of operations gives words of their types, with masks that are 0 or 1.
pub fn lists_fit()
    ensures { (core : PlainCore) → ListsFit core }
{
    operators_give_words();
    values_are_a_range();
}

/// A node of a core leaves a store whose words fit, and gives and moves words of their types.
pub fn nodes_fit()
    ensures { (core : PlainCore) → NodesFit core }
{
    operators_give_words();
    values_are_a_range();
}

/// In a run of a core whose input fits, words fit in each store and at each moment.
pub fn runs_fit()
    ensures { (core : PlainCore) → RunsFit core }
{
    nodes_fit();
    stores_fit();
}
