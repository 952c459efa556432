//! Laws of bodies with stages. Each function does nothing: what it ensures is the law.

ghost use Rattle.std.specs.Prelude.{ℕ, List};
ghost use Rattle.sp_tree.specs.PlainProgram.{PlainProgram};
ghost use Rattle.sp_tree.specs.PlainStatement.{PlainStmts};
ghost use Rattle.sp_core.specs.PlainCore.{PlainCore};
ghost use Rattle.sp_bodies.specs.Laws.{IsBodyFollowed};

/// The node of a body with stages does what its statements do, where its controllers and transfers are followed.
pub fn bodies_are_followed()
    ensures { (p : PlainProgram) (roomy : List ℕ) (core : PlainCore) (body : PlainStmts) → IsBodyFollowed p roomy core body }
{}
