//! The canonical text of a program is read as a tree that spells the program. Each function does nothing: what it ensures
//! is the law.
#![tactic(auto)]

ghost use Rattle.sp_printed.specs.Laws.{CanonicalTextsSpell, CanonicalTextsAreRead};

use sp_grammar::texts_are_read;

/// The tokens of a canonical text spell, by the grammar, a tree that is one of its program.
pub fn canonical_texts_spell()
    ensures { CanonicalTextsSpell }
{}

/// A canonical text that passes no limit of the reader is read as such a tree.
pub fn canonical_texts_are_read()
    ensures { CanonicalTextsAreRead }
{
    texts_are_read();
}
