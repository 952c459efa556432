//! The typed block of a tree.

ghost use Rattle.std.specs.Prelude.{◌≡◌, ◌+◌, IfOk, OnOk, length};
ghost use Rattle.sp_reader.specs.PlainProgram.{plain_decl_kind, plain_decls, plain_syntax};
ghost use Rattle.sp_tree.specs.PlainTree.{plain_stmts};
ghost use Rattle.sp_types.specs.Statements as rule;
ghost use Rattle.sp_typed.specs.Declarations.{port_names};
ghost use Rattle.sp_typed.specs.Plain.{here_of, plain_symbol};
ghost use Rattle.sp_typed.specs.Programs.{program_of};

use crate::declare::{declare_mem, memory};
use crate::scope::{Scope, Symbol};
use crate::statement::body_typed;
use sp_reader::{SynDecl, SynDeclKind, Syntax};
use sp_tree::Stmt;
use sp_words::Kind;
use std::alloc::{AllocError, Global};

/// What the name of a declaration before `Accel` stands for.
fn port(alloc: Global, kind: &SynDeclKind) -> Result<Symbol, AllocError>
    ensures { IfOk result (λ symbol. plain_symbol symbol ≡ rule.port (plain_decl_kind kind.now)) }
{
    match kind {
        SynDeclKind::ArgIn(ty) => Ok(memory(Kind::ArgIn, *ty, Vec::new(alloc))),
        SynDeclKind::ArgOut(ty) => Ok(memory(Kind::ArgOut, *ty, Vec::new(alloc))),
        SynDeclKind::Dram(ty, dims) => Ok(memory(Kind::Dram, *ty, dims.to_vec(alloc)?)),
    }
}

/// The declarations before `Accel`, whose names are visible from here on.
fn enter_ports(alloc: Global, scope: &mut Scope, decls: &[SynDecl]) -> Result<(), AllocError>
    ensures { OnOk result (here_of scope.new ≡ record (here_of scope.old) { names = port_names (here_of scope.old).names (here_of scope.old).mems (plain_decls decls.now); mems = (here_of scope.old).mems + length decls.now }) }
{
    for decl in decls {
        let symbol = port(alloc, &decl.kind)?;
        declare_mem(alloc, scope, &decl.name, symbol)?;
    }
    Ok(())
}

/// The statements of the typed program that a tree without refusals spells.
pub fn typed_block(alloc: Global, syntax: &Syntax) -> Result<Vec<Stmt>, AllocError>
    ensures { IfOk result (λ block. plain_stmts block.items ≡ (program_of (plain_syntax syntax.now)).body) }
{
    let mut scope = Scope::new(alloc);
    enter_ports(alloc, &mut scope, &syntax.decls)?;
    body_typed(alloc, &mut scope, &syntax.body)
}
