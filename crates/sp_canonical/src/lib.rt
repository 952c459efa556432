//! A program's canonical text is the text of the program. Each function does nothing: what it ensures is the law.
#![tactic(auto)]

ghost use Rattle.sp_canonical.specs.Laws.{CanonicalTextsAreAscii, CanonicalTextsHaveNoPlaces, CanonicalTextsReadBack, FormattedTextsStay, IsShallow, ReadTextsAreShallow};
ghost use Rattle.sp_canonical.specs.Worked.{enclosed};

use sp_grammar::texts_are_read;
use sp_printed::{canonical_texts_are_read, canonical_texts_spell};
use sp_read_trees::read_trees_keep_their_rules;
use sp_retyped::programs_come_back;
use sp_source::{spelled_texts_are_not_refused, texts_spell_one_program};
use sp_typing::right_trees_are_programs;
use sp_unrefused::programs_are_unrefused;

/// A canonical text is ASCII.
pub fn canonical_texts_are_ascii()
    ensures { CanonicalTextsAreAscii }
{}

/// Programs that differ in places alone have one canonical text.
pub fn canonical_texts_have_no_places()
    ensures { CanonicalTextsHaveNoPlaces }
{}

/// The program of a canonical text whose brackets and operators stand no deeper than the reader allows is the program that
/// it was printed of, but for places, and prints the text again.
pub fn canonical_texts_read_back()
    ensures { CanonicalTextsReadBack }
{
    canonical_texts_spell();
    canonical_texts_are_read();
    programs_come_back();
    programs_are_unrefused();
    texts_spell_one_program();
    spelled_texts_are_not_refused();
}

/// A text that is formatted, where what is printed is shallow, is a text of the same program, but for places, and is
/// formatted to itself.
pub fn formatted_texts_stay()
    ensures { FormattedTextsStay }
{
    read_trees_keep_their_rules();
    right_trees_are_programs();
    canonical_texts_read_back();
}

/// A text that is read is shallow: a canonical text that isn't is refused.
pub fn read_texts_are_shallow()
    ensures { ReadTextsAreShallow }
{
    texts_are_read();
}

/// A block that writes 1 in 63 parentheses is shallow, and one in 64 isn't, since the block's bracket counts.
pub fn worked_depths()
    ensures shallow { IsShallow (enclosed 63) }
    ensures deep { IsShallow (enclosed 64) → ⊥ }
{}
