//! The text of a program: its tokens, its grammar, and the tree that the grammar gives of it.
#![tactic(auto)]

mod class;
mod error;
mod grammar;
mod limits;
mod number;
mod reader;
mod scan;
mod separators;
mod syntax;
mod token;

pub use error::ReadError;
pub use reader::read;
pub use std::alloc::AllocError as NoMemory;
pub use syntax::declaration::{SynDecl, SynDeclKind, Syntax};
pub use syntax::expression::{Digits, Ident, SynExpr, SynExprKind, SynLit, SynTy, SynUn};
pub use syntax::statement::{SynComb, SynCounter, SynLoop, SynPar, SynSpan, SynStmt, SynStmtKind};
