//! The typed tree of a program, and what it means: one statement at a time.
#![tactic(auto)]

mod declaration;
mod examples;
mod expression;
mod laws;
mod number;
mod program;
mod statement;

pub use declaration::MemDecl;
pub use examples::{
    worked_blocks, worked_counts, worked_loops, worked_programs_are_typed, worked_shapes,
    worked_streams, worked_transfers,
};
pub use expression::{Expr, ExprKind};
pub use laws::{runs_are_footprints, turns_decide};
pub use number::{CtrId, ValId};
pub use program::Program;
pub use statement::{Comb, Counter, Ctl, FaultKind, Span, Stmt, StmtKind};
