//! Expressions as they are written.
ghost use Rattle.std.specs.Prelude.{◌≡◌, ◌++◌, ◌≤◌, true, string_bytes, OnOk};
ghost use Rattle.sp_tree.specs.Plain.{plain_kind, plain_expr, plain_exprs};
ghost use Rattle.sp_printer.specs.Expressions.{op_level, level, op_sign, is_call, shift_sign, one_sign, is_number, starts_with_digit, operand_level, type_before_cast, parted, expr_text, kind_text, list_text, whole_text};
ghost use Rattle.sp_printer.specs.Names.{names_of};

use crate::NoMemory;
use crate::names::{push_counter_name, push_mem_name, push_val_name};
use crate::types::is_int;
use crate::words::{push_cast, push_literal, word_at};
use sp_tree::{Expr, ExprKind, Program};
use sp_words::{BinOp, Ty, UnOp, lt};
use std::alloc::Global;

/// How tightly the operator binds its operands.
fn op_level(op: BinOp) -> u8
    ensures value { result ≡ op_level op }
    ensures bound { result ≤ 9 }
{
    match op {
        BinOp::Or => 1,
        BinOp::Xor => 2,
        BinOp::And => 3,
        BinOp::Eq | BinOp::Ne => 4,
        BinOp::Lt | BinOp::Le | BinOp::Gt | BinOp::Ge => 5,
        BinOp::Add | BinOp::Sub => 6,
        BinOp::Mul | BinOp::Div | BinOp::Rem => 7,
        BinOp::Min | BinOp::Max => 9,
    }
}

/// How tightly the outermost operator binds, if there is one.
#[tactic(auto, using(crate::proofs::TreeLemmas::plain_get_sram))]
fn level(kind: &ExprKind) -> u8
    ensures { result ≡ level (plain_kind kind.now) }
{
    match kind {
        ExprKind::Two(op, _, _) => op_level(*op),
        ExprKind::Shift(_, _, _) => 5,
        ExprKind::One(_, _) => 8,
        ExprKind::Lit(_) => 9,
        ExprKind::Count(_) => 9,
        ExprKind::Val(_) => 9,
        ExprKind::GetReg(_) => 9,
        ExprKind::GetArg(_) => 9,
        ExprKind::GetSram(_, _) => 9,
        ExprKind::GetLine(_, _, _) => 9,
        ExprKind::Deq(_) => 9,
        ExprKind::Mux(_, _, _) => 9,
        ExprKind::Cast(_) => 9,
    }
}

/// The sign of an operator between its operands, or what stands before them.
fn op_sign(op: BinOp) -> &'static str
    ensures { result.now ≡ op_sign op }
{
    match op {
        BinOp::Or => " | ",
        BinOp::Xor => " ^ ",
        BinOp::And => " & ",
        BinOp::Eq => " == ",
        BinOp::Ne => " != ",
        BinOp::Lt => " < ",
        BinOp::Le => " <= ",
        BinOp::Gt => " > ",
        BinOp::Ge => " >= ",
        BinOp::Add => " + ",
        BinOp::Sub => " - ",
        BinOp::Mul => " * ",
        BinOp::Div => " / ",
        BinOp::Rem => " % ",
        BinOp::Min => "min(",
        BinOp::Max => "max(",
    }
}

/// Whether the operator is written as a call.
fn is_call(op: BinOp) -> bool
    ensures { result ≡ is_call op }
{
    match op {
        BinOp::Min | BinOp::Max => true,
        _ => false,
    }
}

fn shift_sign(left: bool) -> &'static str
    ensures { result.now ≡ shift_sign left }
{
    if left { " << " } else { " >> " }
}

fn one_sign(op: UnOp, ty: Ty) -> &'static str
    ensures { result.now ≡ one_sign op ty }
{
    match op {
        UnOp::Neg => "-",
        UnOp::Not => match ty {
            Ty::Fix(_) => "~",
            Ty::Bit => "!",
        },
    }
}

fn is_number(ty: Ty, word: u64) -> bool
    ensures { result ≡ is_number ty word }
{
    match ty {
        Ty::Fix(fix) => !lt(Ty::Fix(fix), word_at(Ty::Fix(fix), word), 0),
        Ty::Bit => false,
    }
}

/// Whether the text of an operand begins with a digit.
#[tactic(auto, using(crate::proofs::TreeLemmas::plain_get_sram))]
fn starts_with_digit(e: &Expr) -> bool
    ensures { result ≡ starts_with_digit (plain_expr e.now) }
{
    match &e.kind {
        ExprKind::Lit(word) => is_number(e.ty, *word),
        ExprKind::Cast(a) => starts_with_digit(a),
        ExprKind::Count(_) => false,
        ExprKind::Val(_) => false,
        ExprKind::GetReg(_) => false,
        ExprKind::GetArg(_) => false,
        ExprKind::GetSram(_, _) => false,
        ExprKind::GetLine(_, _, _) => false,
        ExprKind::Deq(_) => false,
        ExprKind::One(_, _) => false,
        ExprKind::Two(_, _, _) => false,
        ExprKind::Shift(_, _, _) => false,
        ExprKind::Mux(_, _, _) => false,
    }
}

/// The least level of an operand that stands without parentheses.
fn operand_level(op: UnOp, digit: bool) -> u8
    ensures { result ≡ operand_level op digit }
{
    match op {
        UnOp::Neg => if digit { 10 } else { 8 },
        UnOp::Not => 8,
    }
}

/// Appends the type of the operand of a cast, where it is an `Int` literal.
#[tactic(auto, using(crate::proofs::TreeLemmas::plain_get_sram))]
fn push_type_before_cast(text: &mut String, e: &Expr) -> Result<(), NoMemory>
    ensures { OnOk result (string_bytes text.new ≡ string_bytes text.old ++ type_before_cast (plain_expr e.now)) }
{
    match &e.kind {
        ExprKind::Lit(_) => {
            if is_int(e.ty) {
                return push_cast(text, e.ty);
            }
            Ok(())
        }
        ExprKind::Count(_) => Ok(()),
        ExprKind::Val(_) => Ok(()),
        ExprKind::GetReg(_) => Ok(()),
        ExprKind::GetArg(_) => Ok(()),
        ExprKind::GetSram(_, _) => Ok(()),
        ExprKind::GetLine(_, _, _) => Ok(()),
        ExprKind::Deq(_) => Ok(()),
        ExprKind::One(_, _) => Ok(()),
        ExprKind::Two(_, _, _) => Ok(()),
        ExprKind::Shift(_, _, _) => Ok(()),
        ExprKind::Mux(_, _, _) => Ok(()),
        ExprKind::Cast(_) => Ok(()),
    }
}

/// Appends a comma, unless nothing stands before it.
pub(crate) fn push_comma(text: &mut String, first: bool) -> Result<(), NoMemory>
    ensures { OnOk result (string_bytes text.new ≡ string_bytes text.old ++ parted first) }
{
    if first {
        return Ok(());
    }
    text.push_str(", ")
}

/// Appends the expression, in parentheses where its level is below `least`.
#[cycle(push_expr)]
fn push_expr(
    alloc: Global,
    text: &mut String,
    program: &Program,
    least: u8,
    e: &Expr,
) -> Result<(), NoMemory>
    ensures { OnOk result (string_bytes text.new ≡ string_bytes text.old ++ expr_text (names_of program.now) least (plain_expr e.now)) }
{
    if level(&e.kind) >= least {
        return push_kind(alloc, text, program, e.ty, &e.kind);
    }
    text.push_str("(")?;
    push_kind(alloc, text, program, e.ty, &e.kind)?;
    text.push_str(")")?;
    Ok(())
}

#[cycle(push_expr)]
fn push_kind(
    alloc: Global,
    text: &mut String,
    program: &Program,
    ty: Ty,
    kind: &ExprKind,
) -> Result<(), NoMemory>
    ensures { OnOk result (string_bytes text.new ≡ string_bytes text.old ++ kind_text (names_of program.now) ty (plain_kind kind.now)) }
{
    match kind {
        ExprKind::Lit(word) => push_literal(alloc, text, ty, *word),
        ExprKind::Count(c) => push_counter_name(text, program, c.number()),
        ExprKind::Val(v) => push_val_name(text, program, v.number()),
        ExprKind::GetReg(m) => push_mem_name(text, program, m.number()),
        ExprKind::GetArg(m) => push_mem_name(text, program, m.number()),
        ExprKind::GetSram(m, indices) => {
            push_mem_name(text, program, m.number())?;
            text.push_str("(")?;
            push_list(alloc, text, program, indices)?;
            text.push_str(")")?;
            Ok(())
        }
        ExprKind::GetLine(m, row, column) => {
            push_mem_name(text, program, m.number())?;
            text.push_str("(")?;
            push_expr(alloc, text, program, 0, row)?;
            text.push_str(", ")?;
            push_expr(alloc, text, program, 0, column)?;
            text.push_str(")")?;
            Ok(())
        }
        ExprKind::Deq(m) => {
            push_mem_name(text, program, m.number())?;
            text.push_str(".deq()")?;
            Ok(())
        }
        ExprKind::One(op, a) => {
            text.push_str(one_sign(*op, ty))?;
            push_expr(
                alloc,
                text,
                program,
                operand_level(*op, starts_with_digit(a)),
                a,
            )?;
            Ok(())
        }
        ExprKind::Two(op, a, b) => {
            if is_call(*op) {
                text.push_str(op_sign(*op))?;
                push_expr(alloc, text, program, 0, a)?;
                text.push_str(", ")?;
                push_expr(alloc, text, program, 0, b)?;
                text.push_str(")")?;
                return Ok(());
            }
            push_expr(alloc, text, program, op_level(*op), a)?;
            text.push_str(op_sign(*op))?;
            push_expr(alloc, text, program, op_level(*op) + 1, b)?;
            Ok(())
        }
        ExprKind::Shift(left, a, by) => {
            push_expr(alloc, text, program, 5, a)?;
            text.push_str(shift_sign(*left))?;
            write!(text, "{by}")?;
            Ok(())
        }
        ExprKind::Mux(chosen, a, b) => {
            text.push_str("mux(")?;
            push_expr(alloc, text, program, 0, chosen)?;
            text.push_str(", ")?;
            push_expr(alloc, text, program, 0, a)?;
            text.push_str(", ")?;
            push_expr(alloc, text, program, 0, b)?;
            text.push_str(")")?;
            Ok(())
        }
        ExprKind::Cast(a) => {
            push_expr(alloc, text, program, 9, a)?;
            push_type_before_cast(text, a)?;
            push_cast(text, ty)?;
            Ok(())
        }
    }
}

/// Appends the expressions, with commas between them.
#[cycle(push_expr)]
pub(crate) fn push_list(
    alloc: Global,
    text: &mut String,
    program: &Program,
    all: &[Expr],
) -> Result<(), NoMemory>
    ensures { OnOk result (string_bytes text.new ≡ string_bytes text.old ++ list_text (names_of program.now) true (plain_exprs all.now)) }
{
    let mut first = true;
    for e in all {
        push_comma(text, first)?;
        push_expr(alloc, text, program, 0, e)?;
        first = false;
    }
    Ok(())
}

/// Appends an expression that needs no parentheses.
pub(crate) fn push_whole(
    alloc: Global,
    text: &mut String,
    program: &Program,
    e: &Expr,
) -> Result<(), NoMemory>
    ensures { OnOk result (string_bytes text.new ≡ string_bytes text.old ++ whole_text (names_of program.now) (plain_expr e.now)) }
{
    push_expr(alloc, text, program, 0, e)
}
