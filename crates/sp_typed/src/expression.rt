//! The typed expression that an expression spells.

ghost use Rattle.std.specs.Prelude.{◌≡◌, IfOk};
ghost use Rattle.std.specs.Option.{option_map};
ghost use Rattle.sp_reader.specs.Plain as tree;
ghost use Rattle.sp_reader.specs.PlainTree.{row};
ghost use Rattle.sp_words.specs.Types.{int_type};
ghost use Rattle.sp_tree.specs.Plain.{plain_expr, plain_exprs, plain_kind};
ghost use Rattle.sp_tree.specs.PlainExpression as program;
ghost use Rattle.sp_typed.specs.Expressions as spec;
ghost use Rattle.sp_typed.specs.Named.{meant_by};
ghost use Rattle.sp_typed.specs.Plain.{here_of, plain_symbol};

use crate::literal::{number_word, truth_word};
use crate::scope::{Scope, Symbol};
use crate::types::{operand_type, type_by_itself};
use sp_reader::{Digits, SynExpr, SynExprKind, SynUn};
use sp_tree::{CtrId, Expr, ExprKind, ValId};
use sp_words::{BinOp, Kind, MemId, ReadPort, Ty, UnOp};
use std::alloc::{AllocError, Global};

/// The number of what a name stands for.
pub(crate) fn number_of(scope: &Scope, name: &str) -> u32
    ensures { result ≡ spec.number_if (meant_by (here_of scope.now) name.now) }
{
    match scope.find(name) {
        Some(entry) => entry.number,
        None => 0,
    }
}

/// The word of a register, an argument, a value or a counter.
fn named_word(scope: &Scope, name: &str) -> ExprKind
    ensures { plain_kind result ≡ spec.named_word (spec.number_if (meant_by (here_of scope.now) name.now)) (spec.symbol_if (meant_by (here_of scope.now) name.now)) }
{
    let Some(entry) = scope.find(name) else {
        return ExprKind::Lit(0);
    };
    match &entry.symbol {
        Symbol::Memory { kind, .. } => match kind {
            Kind::Reg => ExprKind::GetReg(ReadPort::new(MemId::new(entry.number))),
            Kind::ArgIn => ExprKind::GetArg(ReadPort::new(MemId::new(entry.number))),
            _ => ExprKind::Lit(0),
        },
        Symbol::Value(_) => ExprKind::Val(ValId::new(entry.number)),
        Symbol::Counter => ExprKind::Count(CtrId::new(entry.number)),
    }
}

/// Whether a name is that of a line buffer.
pub(crate) fn is_line(scope: &Scope, name: &str) -> bool
    ensures { result ≡ spec.is_line (spec.symbol_if (meant_by (here_of scope.now) name.now)) }
{
    let Some(entry) = scope.find(name) else {
        return false;
    };
    match &entry.symbol {
        Symbol::Memory { kind, .. } => match kind {
            Kind::LineBuf => true,
            _ => false,
        },
        _ => false,
    }
}

fn one(alloc: Global, op: UnOp, a: Expr) -> Result<ExprKind, AllocError>
    ensures { IfOk result (λ kind. plain_kind kind ≡ program.one op (plain_expr a)) }
{
    Ok(ExprKind::One(op, Box::new(alloc, a)?))
}

fn two(alloc: Global, op: BinOp, a: Expr, b: Expr) -> Result<ExprKind, AllocError>
    ensures { IfOk result (λ kind. plain_kind kind ≡ program.two op (plain_expr a) (plain_expr b)) }
{
    Ok(ExprKind::Two(op, Box::new(alloc, a)?, Box::new(alloc, b)?))
}

fn shift(alloc: Global, left: bool, a: Expr, by: u8) -> Result<ExprKind, AllocError>
    ensures { IfOk result (λ kind. plain_kind kind ≡ program.shift left (plain_expr a) by) }
{
    Ok(ExprKind::Shift(left, Box::new(alloc, a)?, by))
}

fn mux(alloc: Global, chosen: Expr, a: Expr, b: Expr) -> Result<ExprKind, AllocError>
    ensures { IfOk result (λ kind. plain_kind kind ≡ program.mux (plain_expr chosen) (plain_expr a) (plain_expr b)) }
{
    let chosen = Box::new(alloc, chosen)?;
    Ok(ExprKind::Mux(chosen, Box::new(alloc, a)?, Box::new(alloc, b)?))
}

fn cast(alloc: Global, a: Expr) -> Result<ExprKind, AllocError>
    ensures { IfOk result (λ kind. plain_kind kind ≡ program.cast (plain_expr a)) }
{
    Ok(ExprKind::Cast(Box::new(alloc, a)?))
}

fn line_element(alloc: Global, number: u32, row: Expr, column: Expr) -> Result<ExprKind, AllocError>
    ensures { IfOk result (λ kind. plain_kind kind ≡ program.get_line number (plain_expr row) (plain_expr column)) }
{
    let port = ReadPort::new(MemId::new(number));
    Ok(ExprKind::GetLine(port, Box::new(alloc, row)?, Box::new(alloc, column)?))
}

fn sram_element(number: u32, indices: Vec<Expr>) -> ExprKind
    ensures { plain_kind result ≡ program.get_sram number (plain_exprs indices.items) }
{
    ExprKind::GetSram(ReadPort::new(MemId::new(number)), indices)
}

/// The number that an expression is, if it is one.
fn digits_of(e: &SynExpr) -> Option<&Digits>
    ensures { spec.digits_of (tree.plain_expr e.now) ≡ option_map (λ d. tree.plain_digits d.now) result }
{
    match &e.kind {
        SynExprKind::Number(number) => Some(number),
        _ => None,
    }
}

/// An expression that is checked at a type.
#[cycle(typed)]
pub(crate) fn typed(alloc: Global, scope: &Scope, ty: Ty, e: &SynExpr) -> Result<Expr, AllocError>
    ensures { IfOk result (λ typed. plain_expr typed ≡ spec.typed (here_of scope.now) ty (tree.plain_expr e.now)) }
{
    let kind = kind_typed(alloc, scope, ty, e)?;
    Ok(Expr { at: e.at, ty, kind })
}

/// What it is.
#[cycle(typed)]
fn kind_typed(alloc: Global, scope: &Scope, ty: Ty, e: &SynExpr) -> Result<ExprKind, AllocError>
    ensures { IfOk result (λ kind. plain_kind kind ≡ spec.kind_typed (here_of scope.now) ty (tree.plain_kind e.now.kind)) }
{
    match &e.kind {
        SynExprKind::Number(number) => Ok(ExprKind::Lit(number_word(ty, number))),
        SynExprKind::Truth(value) => Ok(ExprKind::Lit(truth_word(*value))),
        SynExprKind::Name(name, _) => Ok(named_word(scope, &name.text)),
        SynExprKind::Deq(name) => {
            let port = ReadPort::new(MemId::new(number_of(scope, &name.text)));
            Ok(ExprKind::Deq(port))
        }
        SynExprKind::At(name, indices) => {
            let line = is_line(scope, &name.text);
            element(alloc, scope, line, number_of(scope, &name.text), indices)
        }
        SynExprKind::Mux(chosen, a, b) => {
            let chosen = typed(alloc, scope, Ty::Bit, chosen)?;
            let a = typed(alloc, scope, ty, a)?;
            mux(alloc, chosen, a, typed(alloc, scope, ty, b)?)
        }
        SynExprKind::Min(a, b) => {
            let a = typed(alloc, scope, ty, a)?;
            two(alloc, BinOp::Min, a, typed(alloc, scope, ty, b)?)
        }
        SynExprKind::Max(a, b) => {
            let a = typed(alloc, scope, ty, a)?;
            two(alloc, BinOp::Max, a, typed(alloc, scope, ty, b)?)
        }
        SynExprKind::One(SynUn::Minus, a) => one(alloc, UnOp::Neg, typed(alloc, scope, ty, a)?),
        SynExprKind::One(SynUn::Bang, a) => one(alloc, UnOp::Not, typed(alloc, scope, Ty::Bit, a)?),
        SynExprKind::One(SynUn::Tilde, a) => one(alloc, UnOp::Not, typed(alloc, scope, ty, a)?),
        SynExprKind::Two(op, a, b) => {
            let inner = operand_type(scope, *op, ty, a, b);
            let a = typed(alloc, scope, inner, a)?;
            two(alloc, *op, a, typed(alloc, scope, inner, b)?)
        }
        SynExprKind::Shift(left, a, by) => shift(alloc, *left, typed(alloc, scope, ty, a)?, *by),
        SynExprKind::Cast(a, _) => cast_typed(alloc, scope, ty, a),
    }
}

/// A cast to a type.
#[cycle(typed)]
fn cast_typed(alloc: Global, scope: &Scope, ty: Ty, e: &SynExpr) -> Result<ExprKind, AllocError>
    ensures { IfOk result (λ kind. plain_kind kind ≡ spec.cast_if (spec.digits_of (tree.plain_expr e.now)) ty (spec.typed (here_of scope.now) (spec.type_by_itself (here_of scope.now) (tree.plain_expr e.now)) (tree.plain_expr e.now))) }
{
    match digits_of(e) {
        Some(number) => Ok(ExprKind::Lit(number_word(ty, number))),
        None => {
            let operand = typed(alloc, scope, type_by_itself(scope, e), e)?;
            cast(alloc, operand)
        }
    }
}

/// An element of a line buffer or of an SRAM.
#[cycle(typed)]
fn element(
    alloc: Global,
    scope: &Scope,
    line: bool,
    number: u32,
    indices: &[SynExpr],
) -> Result<ExprKind, AllocError>
    ensures { IfOk result (λ kind. plain_kind kind ≡ spec.element line number (spec.all_typed (here_of scope.now) int_type (row (tree.plain_exprs indices.now)))) }
{
    if line {
        return in_line(alloc, scope, number, indices);
    }
    let indices = all_typed(alloc, scope, Ty::int(), indices)?;
    Ok(sram_element(number, indices))
}

/// An element of a line buffer, at a row and a column.
#[cycle(typed)]
fn in_line(
    alloc: Global,
    scope: &Scope,
    number: u32,
    indices: &[SynExpr],
) -> Result<ExprKind, AllocError>
    ensures { IfOk result (λ kind. plain_kind kind ≡ spec.line_element number (spec.all_typed (here_of scope.now) int_type (row (tree.plain_exprs indices.now)))) }
{
    match indices {
        [row, column] => {
            let row = typed(alloc, scope, Ty::int(), row)?;
            let column = typed(alloc, scope, Ty::int(), column)?;
            line_element(alloc, number, row, column)
        }
        _ => Ok(ExprKind::Lit(0)),
    }
}

/// Indices.
#[cycle(typed)]
pub(crate) fn all_typed(
    alloc: Global,
    scope: &Scope,
    ty: Ty,
    all: &[SynExpr],
) -> Result<Vec<Expr>, AllocError>
    ensures { IfOk result (λ typed. plain_exprs typed.items ≡ spec.all_typed (here_of scope.now) ty (row (tree.plain_exprs all.now))) }
{
    let mut typed_all = Vec::new(alloc);
    for e in all {
        typed_all.push(typed(alloc, scope, ty, e)?)?;
    }
    Ok(typed_all)
}
