use crate::syntax::expression::{Ident, SynTy};
use crate::syntax::statement::SynStmt;

/// A program.
#[derive(Debug, Drop)]
pub struct Syntax {
    pub decls: Vec<SynDecl>,
    pub body: Vec<SynStmt>,
}

/// What a declaration before `Accel` declares; a DRAM with its dimensions.
#[derive(Debug, Drop)]
pub enum SynDeclKind {
    ArgIn(SynTy),
    ArgOut(SynTy),
    Dram(SynTy, Vec<u32>),
}

/// A declaration before `Accel`, with the place of its first token.
#[derive(Debug, Drop)]
pub struct SynDecl {
    pub at: u32,
    pub name: Ident,
    pub kind: SynDeclKind,
}
