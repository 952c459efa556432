//! Laws of what cores mean. Each function does nothing: what it ensures is the law.

ghost use Rattle.std.specs.Prelude.{ℕ, List};
ghost use Rattle.sp_tree.specs.Invariant.{IsProgram};
ghost use Rattle.sp_tree.specs.PlainExpression.{PlainExpr};
ghost use Rattle.sp_tree.specs.PlainProgram.{PlainProgram};
ghost use Rattle.sp_tree.specs.PlainStatement.{PlainStmtKind, PlainStmts};
ghost use Rattle.sp_core.specs.PlainCore.{PlainCore};
ghost use Rattle.sp_same.specs.Laws.{IsTransferFollowed, IsLoopFollowed, IsBlockFollowed, IsBranchFollowed, IsMachineFollowed, IsInnerBodyFollowed, IsReductionFollowed, AreEarlyFollowed, BeginAlike, ArePutOutAlike};

/// The node of a transfer moves the words that the transfer moves.
pub fn transfers_are_followed()
    ensures { (p : PlainProgram) (roomy : List ℕ) (core : PlainCore) (kind : PlainStmtKind) → IsTransferFollowed p roomy core kind }
{}

/// The node of a loop does what the loop does, where its body does.
pub fn loops_are_followed()
    ensures { (p : PlainProgram) (roomy : List ℕ) (core : PlainCore) (body : PlainStmts) → IsLoopFollowed p roomy core body }
{}

/// The node of a block does what the block does, where its body does.
pub fn blocks_are_followed()
    ensures { (p : PlainProgram) (roomy : List ℕ) (core : PlainCore) (body : PlainStmts) → IsBlockFollowed p roomy core body }
{}

/// The node of a branch does what the branch does, where its blocks do.
pub fn branches_are_followed()
    ensures { (p : PlainProgram) (roomy : List ℕ) (core : PlainCore) (test : PlainExpr) → IsBranchFollowed p roomy core test }
{}

/// The node of an FSM does what the FSM does, where its body does.
pub fn machines_are_followed()
    ensures { (p : PlainProgram) (roomy : List ℕ) (core : PlainCore) (body : PlainStmts) → IsMachineFollowed p roomy core body }
{}

/// The node of an inner body does what its statements do.
pub fn inner_bodies_are_followed()
    ensures { (p : PlainProgram) (roomy : List ℕ) (core : PlainCore) (body : PlainStmts) → IsInnerBodyFollowed p roomy core body }
{}

/// The node of a Reduce or Fold over an inner body does what the statement does.
pub fn reductions_are_followed()
    ensures { (p : PlainProgram) (roomy : List ℕ) (core : PlainCore) (body : PlainStmts) → IsReductionFollowed p roomy core body }
{}

/// The stages before a statement put the words of its early bounds, slices and counts into their registers.
pub fn early_stages_are_followed()
    ensures { (p : PlainProgram) (roomy : List ℕ) (core : PlainCore) (kind : PlainStmtKind) → AreEarlyFollowed p roomy core kind }
{}

/// The stores in which a program and its core begin agree.
pub fn first_stores_agree()
    ensures { (p : PlainProgram) → IsProgram p → BeginAlike p }
{}

/// Where stores agree, the words of outputs and DRAMs are the same.
pub fn outputs_agree()
    ensures { (p : PlainProgram) → IsProgram p → ArePutOutAlike p }
{}
