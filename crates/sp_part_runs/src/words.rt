//! Words and numbers of groups. Each function does nothing: what it ensures is the law.

ghost use Rattle.sp_part_runs.specs.WordsLaws.{NumbersGoRound, WordsGoAlong};

/// A slot works on a group with the copy of its number, modulo how many there are, from the first cycle of its beat on.
pub fn numbers_go_round()
    ensures { NumbersGoRound }
{}

/// The words of a slot are, while it works on a group, those that stood when the group came to the first slot.
pub fn words_go_along()
    ensures { WordsGoAlong }
{}
