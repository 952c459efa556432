//! Laws of the typed program of a tree. Each function does nothing: what it ensures is the law.

ghost use Rattle.std.specs.Prelude.{◌≡◌, ℕ, Bool, List, None};
ghost use Rattle.sp_reader.specs.PlainStatement.{PlainCounter, PlainSpan, PlainSyntax};
ghost use Rattle.sp_reader.specs.PlainTree.{PlainExpr};
ghost use Rattle.sp_tree.specs.PlainProgram.{PlainProgram};
ghost use Rattle.sp_tree.specs.Typing.{Scope};
ghost use Rattle.sp_types.specs.declared.own.Ask.{Ask};
ghost use Rattle.sp_types.specs.Statements.{first_refusal};
ghost use Rattle.sp_types.specs.Visible.{Visible};
ghost use Rattle.sp_words.specs.declared.types.Ty.{Ty};
ghost use Rattle.sp_typed.specs.Laws.{AreDeclared, AreNumbered, IsTypedAt, IsTypedStill, AreSpansRight, AreCountersRight};
ghost use Rattle.sp_typed.specs.Named.{Here};
ghost use Rattle.sp_typed.specs.Programs.{program_of};
ghost use Rattle.sp_typed.specs.ReadTree.{IsReadTree};

/// Memories, values and counters are numbered in the order of the text.
pub fn declarations_are_numbered()
    ensures { (s : PlainSyntax) → IsReadTree s → first_refusal s ≡ None → AreNumbered (program_of s) }
{}

/// Declarations are right by themselves, names are names, and controllers stand at most 64 one inside another.
pub fn declarations_are_right()
    ensures { (s : PlainSyntax) → IsReadTree s → AreDeclared (program_of s) }
{}

/// An expression without refusals is typed, at the type at which it is checked.
pub fn expressions_are_typed()
    ensures { (p : PlainProgram) (scope : Scope) (here : Here) (seen : Visible) (ask : Ask) (ty : Ty) (e : PlainExpr) → IsTypedAt p scope here seen ask ty e }
{}

/// An expression that is checked still takes no word from a FIFO besides.
pub fn still_expressions_take_no_word()
    ensures { (p : PlainProgram) (scope : Scope) (here : Here) (seen : Visible) (ask : Ask) (ty : Ty) (e : PlainExpr) → IsTypedStill p scope here seen ask ty e }
{}

/// Spans without refusals are typed: their bounds take no word from a FIFO, and lanes stand where they may.
pub fn spans_are_typed()
    ensures { (p : PlainProgram) (scope : Scope) (here : Here) (seen : Visible) (lanes : Bool) (spans : List PlainSpan) → AreSpansRight p scope here seen lanes spans }
{}

/// And so are counters.
pub fn counters_are_typed()
    ensures { (p : PlainProgram) (scope : Scope) (here : Here) (seen : Visible) (n : ℕ) (counters : List PlainCounter) → AreCountersRight p scope here seen n counters }
{}
