//! Laws of texts and their programs.
ghost use Rattle.std.specs.Prelude.{◌≡◌, ℕ, List};
ghost use Rattle.sp_tree.specs.PlainProgram.{PlainProgram};
ghost use Rattle.sp_source.specs.declared.error.SourceError.{SourceError};
ghost use Rattle.sp_source.specs.declared.error.SourceError.TheVariants.{Memory};
ghost use Rattle.sp_source.specs.Texts.{IsCauseOf, Spells};

/// A text spells one program at most. The function does nothing: what it ensures is the law.
pub fn texts_spell_one_program()
    ensures { (text : List ℕ) (p q : PlainProgram) → Spells text p → Spells text q → p ≡ q }
{}

/// A text that spells a program is refused for want of memory alone. The function does nothing: what it ensures is the
/// law.
pub fn spelled_texts_are_not_refused()
    ensures { (text : List ℕ) (p : PlainProgram) (error : SourceError) → Spells text p → IsCauseOf text error → error ≡ Memory }
{}
