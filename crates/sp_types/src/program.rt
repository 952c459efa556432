//! The first refusal of a tree.

ghost use Rattle.std.specs.Prelude.{◌≡◌, ◌++◌, [], OnOk, IfOk};
ghost use Rattle.sp_reader.specs.PlainProgram.{plain_decl_kind, plain_decls, plain_stmts, plain_syntax};
ghost use Rattle.sp_types.specs.First.{notes};
ghost use Rattle.sp_types.specs.Plain.{plain_symbol, visible_of};
ghost use Rattle.sp_types.specs.Statements as spec;

use crate::refusal::{Finding, Refusal};
use crate::scope::{Scope, Symbol};
use crate::simple::check_declaration;
use crate::statement::{check_body, memory};
use sp_reader::{SynDecl, SynDeclKind, SynTy, Syntax};
use sp_words::Kind;
use std::alloc::{AllocError, Global};

/// What the name of a declaration before `Accel` stands for.
fn port(alloc: Global, kind: &SynDeclKind) -> Result<Symbol, AllocError>
    ensures { IfOk result (λ symbol. plain_symbol symbol ≡ spec.port (plain_decl_kind kind.now)) }
{
    match kind {
        SynDeclKind::ArgIn(ty) => Ok(memory(Kind::ArgIn, *ty, Vec::new(alloc))),
        SynDeclKind::ArgOut(ty) => Ok(memory(Kind::ArgOut, *ty, Vec::new(alloc))),
        SynDeclKind::Dram(ty, dims) => Ok(memory(Kind::Dram, *ty, dims.to_vec(alloc)?)),
    }
}

/// Its type.
fn port_type(kind: &SynDeclKind) -> SynTy
    ensures { result ≡ spec.port_type (plain_decl_kind kind.now) }
{
    match kind {
        SynDeclKind::ArgIn(ty) => *ty,
        SynDeclKind::ArgOut(ty) => *ty,
        SynDeclKind::Dram(ty, _) => *ty,
    }
}

/// The declarations before `Accel`, whose names are visible from here on.
fn check_decls(
    alloc: Global,
    scope: &mut Scope,
    decls: &[SynDecl],
    finding: &mut Finding,
) -> Result<(), AllocError>
    ensures seen { OnOk result (visible_of scope.new ≡ spec.with_ports (visible_of scope.old) (plain_decls decls.now)) }
    ensures found { OnOk result (finding.new.first ≡ notes finding.old.first (spec.decls_refusals (visible_of scope.old) (plain_decls decls.now))) }
{
    for decl in decls {
        check_declaration(scope, &decl.name, port_type(&decl.kind), finding);
        let symbol = port(alloc, &decl.kind)?;
        scope.declare(alloc, &decl.name.text, symbol)?;
    }
    Ok(())
}

/// The first refusal of a tree, if there is one.
#[tactic(auto, using(crate::proofs::FindingLemmas::notes_append))]
pub fn first_refusal(alloc: Global, syntax: &Syntax) -> Result<Option<Refusal>, AllocError>
    ensures { IfOk result (λ first. first ≡ spec.first_refusal (plain_syntax syntax.now)) }
{
    let mut scope = Scope::new(alloc);
    let mut finding = Finding::new();
    check_decls(alloc, &mut scope, &syntax.decls, &mut finding)?;
    check_body(alloc, &mut scope, &syntax.body, &mut finding)?;
    Ok(finding.first)
}
