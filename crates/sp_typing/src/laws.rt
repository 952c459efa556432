//! Laws of trees without refusals. What each function ensures is the law.

ghost use Rattle.sp_words.specs.declared.types.Ty.{Ty};
ghost use Rattle.sp_reader.specs.PlainStatement.{PlainStmts, PlainSyntax};
ghost use Rattle.sp_reader.specs.PlainTree.{PlainExpr};
ghost use Rattle.sp_tree.specs.PlainProgram.{PlainProgram};
ghost use Rattle.sp_tree.specs.Typing.{Scope};
ghost use Rattle.sp_types.specs.declared.own.Ask.{Ask};
ghost use Rattle.sp_types.specs.Visible.{Visible};
ghost use Rattle.sp_typed.specs.Named.{Here};
ghost use Rattle.sp_typing.specs.Laws.{IsAlone, IsBodyRight, SpellsProgram};

use sp_typed::{declarations_are_numbered, declarations_are_right};

/// An expression without refusals names no accumulator in whose body it stands.
pub fn expressions_leave_accumulators()
    ensures { (p : PlainProgram) (scope : Scope) (here : Here) (seen : Visible) (ask : Ask) (ty : Ty) (e : PlainExpr) → IsAlone p scope here seen ask ty e }
{}

/// A body without refusals is typed, names no accumulator around, and at its end the tree and the program
/// agree on what is visible.
pub fn bodies_are_typed()
    ensures { (p : PlainProgram) (scope : Scope) (here : Here) (seen : Visible) (ss : PlainStmts) → IsBodyRight p scope here seen ss }
{}

/// A tree that is read, has no refusals, and is within the limits spells a program.
pub fn right_trees_are_programs()
    ensures { (s : PlainSyntax) → SpellsProgram s }
{
    declarations_are_right();
    declarations_are_numbered();
}
