//! The typed statements of statements that hold no others.

ghost use Rattle.std.specs.Prelude.{◌≡◌, ◌+◌, IfOk, OnOk, Some};
ghost use Rattle.sp_reader.specs.Plain as tree;
ghost use Rattle.sp_reader.specs.PlainProgram.{plain_spans};
ghost use Rattle.sp_reader.specs.PlainStatement as syntax;
ghost use Rattle.sp_tree.specs.PlainStatement as program;
ghost use Rattle.sp_tree.specs.PlainTree.{plain_stmt_kind};
ghost use Rattle.sp_types.specs.Types as rule;
ghost use Rattle.sp_types.specs.Visible as shown;
ghost use Rattle.sp_typed.specs.Expressions.{symbol_if, type_by_itself};
ghost use Rattle.sp_typed.specs.Named.{give, meant_by};
ghost use Rattle.sp_typed.specs.Plain.{here_of, plain_symbol};
ghost use Rattle.sp_typed.specs.Statements as spec;

use crate::declare::{declare_mem, declare_val, memory};
use crate::expression::{all_typed, is_line, number_of, typed};
use crate::scope::{Scope, Symbol};
use crate::span::{int_typed, spans_typed};
use crate::types::{type_by_itself, word_type};
use sp_reader::{Ident, SynExpr, SynSpan, SynTy};
use sp_tree::{StmtKind, ValId};
use sp_words::{Kind, MemId, Ty, WritePort};
use std::alloc::{AllocError, Global};

/// A memory that begins.
pub(crate) fn mem_typed(
    alloc: Global,
    scope: &mut Scope,
    kind: Kind,
    name: &Ident,
    ty: SynTy,
    dims: Vec<u32>,
) -> Result<StmtKind, AllocError>
    ensures seen { OnOk result (here_of scope.new ≡ record (give (here_of scope.old) (tree.plain_ident name.now).text (shown.memory kind (rule.type_of ty) dims.items) (here_of scope.old).mems) { mems = (here_of scope.old).mems + 1 }) }
    ensures typed { IfOk result (λ r. plain_stmt_kind r ≡ program.declare (here_of scope.old).mems) }
{
    let number = declare_mem(alloc, scope, name, memory(kind, ty, dims))?;
    Ok(StmtKind::Declare(number))
}

/// An expression that a name stands for.
pub(crate) fn let_typed(
    alloc: Global,
    scope: &mut Scope,
    name: &Ident,
    e: &SynExpr,
) -> Result<StmtKind, AllocError>
    ensures seen { OnOk result (here_of scope.new ≡ record (give (here_of scope.old) (tree.plain_ident name.now).text (shown.value (Some (type_by_itself (here_of scope.old) (tree.plain_expr e.now)))) (here_of scope.old).vals) { vals = (here_of scope.old).vals + 1 }) }
    ensures typed { IfOk result (λ r. plain_stmt_kind r ≡ spec.stmt_typed (here_of scope.old) (syntax.bind (tree.plain_ident name.now) (tree.plain_expr e.now))) }
{
    let ty = type_by_itself(scope, e);
    let word = typed(alloc, scope, ty, e)?;
    let number = declare_val(alloc, scope, name, ty)?;
    Ok(StmtKind::Let(ValId::new(number), word))
}

/// Whether a name is that of an output.
fn is_output(scope: &Scope, name: &str) -> bool
    ensures { result ≡ spec.is_output (symbol_if (meant_by (here_of scope.now) name.now)) }
{
    let Some(entry) = scope.find(name) else {
        return false;
    };
    match &entry.symbol {
        Symbol::Memory { kind, .. } => match kind {
            Kind::ArgOut => true,
            _ => false,
        },
        _ => false,
    }
}

/// A write of an output or of a register.
pub(crate) fn set_typed(
    alloc: Global,
    scope: &Scope,
    name: &Ident,
    e: &SynExpr,
) -> Result<StmtKind, AllocError>
    ensures { IfOk result (λ r. plain_stmt_kind r ≡ spec.stmt_typed (here_of scope.now) (syntax.set (tree.plain_ident name.now) (tree.plain_expr e.now))) }
{
    let number = number_of(scope, &name.text);
    let word = typed(alloc, scope, word_type(scope, &name.text), e)?;
    if is_output(scope, &name.text) {
        Ok(StmtKind::SetOut(WritePort::new(MemId::new(number)), word))
    } else {
        Ok(StmtKind::SetReg(WritePort::new(MemId::new(number)), word))
    }
}

/// A write of an element.
pub(crate) fn set_at_typed(
    alloc: Global,
    scope: &Scope,
    name: &Ident,
    indices: &[SynExpr],
    e: &SynExpr,
) -> Result<StmtKind, AllocError>
    ensures { IfOk result (λ r. plain_stmt_kind r ≡ spec.stmt_typed (here_of scope.now) (syntax.set_at (tree.plain_ident name.now) (tree.plain_exprs indices.now) (tree.plain_expr e.now))) }
{
    let number = number_of(scope, &name.text);
    let indices = all_typed(alloc, scope, Ty::int(), indices)?;
    let word = typed(alloc, scope, word_type(scope, &name.text), e)?;
    Ok(StmtKind::SetSram(WritePort::new(MemId::new(number)), indices, word))
}

/// A word that goes into a FIFO.
pub(crate) fn enq_typed(
    alloc: Global,
    scope: &Scope,
    name: &Ident,
    e: &SynExpr,
) -> Result<StmtKind, AllocError>
    ensures { IfOk result (λ r. plain_stmt_kind r ≡ spec.stmt_typed (here_of scope.now) (syntax.enq (tree.plain_ident name.now) (tree.plain_expr e.now))) }
{
    let number = number_of(scope, &name.text);
    let word = typed(alloc, scope, word_type(scope, &name.text), e)?;
    Ok(StmtKind::Enq(WritePort::new(MemId::new(number)), word))
}

/// Words of a slice of a DRAM.
pub(crate) fn load_typed(
    alloc: Global,
    scope: &Scope,
    onto: &Ident,
    from: &Ident,
    spans: &[SynSpan],
) -> Result<StmtKind, AllocError>
    ensures { IfOk result (λ r. plain_stmt_kind r ≡ spec.stmt_typed (here_of scope.now) (syntax.load (tree.plain_ident onto.now) (tree.plain_ident from.now) (plain_spans spans.now))) }
{
    let chip = number_of(scope, &onto.text);
    let dram = number_of(scope, &from.text);
    let spans = spans_typed(alloc, scope, spans)?;
    if is_line(scope, &onto.text) {
        Ok(StmtKind::LoadLine(MemId::new(chip), MemId::new(dram), spans))
    } else {
        Ok(StmtKind::LoadSram(MemId::new(chip), MemId::new(dram), spans))
    }
}

/// Words of an SRAM into a slice of a DRAM.
pub(crate) fn store_typed(
    alloc: Global,
    scope: &Scope,
    onto: &Ident,
    spans: &[SynSpan],
    from: &Ident,
) -> Result<StmtKind, AllocError>
    ensures { IfOk result (λ r. plain_stmt_kind r ≡ spec.stmt_typed (here_of scope.now) (syntax.store (tree.plain_ident onto.now) (plain_spans spans.now) (tree.plain_ident from.now))) }
{
    let dram = number_of(scope, &onto.text);
    let chip = number_of(scope, &from.text);
    let spans = spans_typed(alloc, scope, spans)?;
    Ok(StmtKind::Store(MemId::new(dram), spans, MemId::new(chip)))
}

/// Words of a DRAM at places.
pub(crate) fn gather_typed(
    alloc: Global,
    scope: &Scope,
    onto: &Ident,
    from: &Ident,
    places: &Ident,
    count: &SynExpr,
) -> Result<StmtKind, AllocError>
    ensures { IfOk result (λ r. plain_stmt_kind r ≡ spec.stmt_typed (here_of scope.now) (syntax.gather (tree.plain_ident onto.now) (tree.plain_ident from.now) (tree.plain_ident places.now) (tree.plain_expr count.now))) }
{
    let chip = number_of(scope, &onto.text);
    let dram = number_of(scope, &from.text);
    let index = number_of(scope, &places.text);
    let count = int_typed(alloc, scope, count)?;
    Ok(StmtKind::Gather(MemId::new(chip), MemId::new(dram), MemId::new(index), count))
}

/// Words of an SRAM into a DRAM at places.
pub(crate) fn scatter_typed(
    alloc: Global,
    scope: &Scope,
    onto: &Ident,
    places: &Ident,
    count: &SynExpr,
    from: &Ident,
) -> Result<StmtKind, AllocError>
    ensures { IfOk result (λ r. plain_stmt_kind r ≡ spec.stmt_typed (here_of scope.now) (syntax.scatter (tree.plain_ident onto.now) (tree.plain_ident places.now) (tree.plain_expr count.now) (tree.plain_ident from.now))) }
{
    let dram = number_of(scope, &onto.text);
    let index = number_of(scope, &places.text);
    let count = int_typed(alloc, scope, count)?;
    let chip = number_of(scope, &from.text);
    Ok(StmtKind::Scatter(MemId::new(dram), MemId::new(index), count, MemId::new(chip)))
}
