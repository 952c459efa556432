//! Laws of desugaring. Each function does nothing: what it ensures is the law.

ghost use Rattle.std.specs.Prelude.{ℕ, List};
ghost use Rattle.sp_tree.specs.PlainExpression.{PlainExpr};
ghost use Rattle.sp_tree.specs.PlainProgram.{PlainProgram};
ghost use Rattle.sp_tree.specs.PlainStatement.{PlainStmts};
ghost use Rattle.sp_tree.specs.Invariant.{IsProgram};
ghost use Rattle.sp_core.specs.Invariant.{IsCore};
ghost use Rattle.sp_core.specs.PlainCore.{PlainCore};
ghost use Rattle.sp_sugar.specs.Core.{core_of};
ghost use Rattle.sp_sugar.specs.Laws.{IsFollowed, IsInnerRun, KeepsRules, HaveOneOwner, AreDeclaredRight, IsSmallEnough, IsInnerNode, AreElementsRight};

/// The operations of an expression give its word, and do to memories what the expression does.
pub fn expressions_are_followed()
    ensures { (p : PlainProgram) (core : PlainCore) (e : PlainExpr) → IsFollowed p core e }
{}

/// The operations of an inner body do to memories what its statements do.
pub fn inner_runs_are_followed()
    ensures { (p : PlainProgram) (roomy : List ℕ) (core : PlainCore) (body : PlainStmts) → IsInnerRun p roomy core body }
{}

/// The operations of a typed expression keep the rules of cores, and give a word of its type.
pub fn expressions_keep_rules()
    ensures { (p : PlainProgram) (core : PlainCore) (e : PlainExpr) → KeepsRules p core e }
{}

/// Each memory of the core of a program, but for arguments and outputs, has one owner.
pub fn memories_have_owners()
    ensures { (p : PlainProgram) → IsProgram p → HaveOneOwner (core_of p) }
{}

/// The memories of the core of a program, and its ports, keep the rules of cores.
pub fn declarations_are_right()
    ensures { (p : PlainProgram) → IsProgram p → AreDeclaredRight (core_of p) }
{}

/// The core of a program has fewer than 2^29 nodes, operations, memories and DRAMs together.
pub fn cores_are_small()
    ensures { (p : PlainProgram) → IsProgram p → IsSmallEnough (core_of p) }
{}

/// An inner body, with what is combined with it, keeps the rules of cores where what it needs may be used.
pub fn inner_bodies_keep_rules()
    ensures { (p : PlainProgram) (core : PlainCore) (body : PlainStmts) → IsInnerNode p core body }
{}

/// The combination of the elements of a part keeps the rules of cores where the part and the accumulator may be used.
pub fn element_loops_keep_rules()
    ensures { (p : PlainProgram) (core : PlainCore) (part : ℕ) → AreElementsRight p core part }
{}

/// The core of a program is a core: it keeps every rule of cores.
pub fn programs_become_cores()
    ensures { (p : PlainProgram) → IsProgram p → IsCore (core_of p) }
{}
