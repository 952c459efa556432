//! Laws of the rules of names and types. What each function ensures is the law.

ghost use Rattle.sp_reader.specs.PlainStatement.{PlainSyntax};
ghost use Rattle.sp_tree.specs.PlainProgram.{PlainProgram};
ghost use Rattle.sp_rules.specs.Laws.{IsRefusedExactly, HasProgram};

use sp_typing::right_trees_are_programs;

/// A tree that is read has no refusals exactly where it keeps the rules of names and types.
pub fn wrong_trees_are_refused()
    ensures { (s : PlainSyntax) → IsRefusedExactly s }
{}

/// A tree that is read and keeps the rules has a program, if its counts are within the limits.
pub fn typed_trees_are_programs()
    ensures { (s : PlainSyntax) (p : PlainProgram) → HasProgram s p }
{
    right_trees_are_programs();
}
