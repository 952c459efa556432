//! Laws of the sequential meaning. Each function does nothing: what it ensures is the law.

ghost use Rattle.std.specs.Prelude.{ℕ, Bool, List};
ghost use Rattle.sp_tree.specs.Expressions.{word};
ghost use Rattle.sp_tree.specs.Footprint.{Names, BodyNames};
ghost use Rattle.sp_tree.specs.Laws.{IsDecidedByTurns, IsWithin};
ghost use Rattle.sp_tree.specs.PlainExpression.{PlainExpr};
ghost use Rattle.sp_words.specs.Ports.{PlainInput};
ghost use Rattle.sp_tree.specs.PlainProgram.{PlainMem, PlainProgram};
ghost use Rattle.sp_tree.specs.PlainStatement.{PlainStmts};
ghost use Rattle.sp_tree.specs.Sequential.{run_all};

/// A program that ends takes at most the turns that it is given, ends the same way with any number of turns
/// that is enough, and doesn't end with fewer. The same holds of its first fault.
pub fn turns_decide()
    ensures { (p : PlainProgram) (input : PlainInput) → IsDecidedByTurns p input }
{}

/// A run changes and looks at only the memories that its statements name, and so does an expression. `is` is
/// a test that all of these pass.
pub fn runs_are_footprints()
    ensures statements { (is : ℕ → Bool) (mems : List PlainMem) (roomy : List ℕ) (body : PlainStmts) → BodyNames is body → IsWithin is (run_all mems roomy body) }
    ensures expressions { (is : ℕ → Bool) (mems : List PlainMem) (e : PlainExpr) → Names is e → IsWithin is (word mems e) }
{}
