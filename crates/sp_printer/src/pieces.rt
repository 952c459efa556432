//! Declarations, slices, counters and combinations as they are written.
ghost use Rattle.std.specs.Prelude.{◌≡◌, ◌++◌, ℕ, Bool, map, true, string_bytes, OnOk};
ghost use Rattle.sp_tree.specs.Plain.{plain_expr, plain_mem};
ghost use Rattle.sp_tree.specs.PlainTree.{plain_span, plain_counter};
ghost use Rattle.sp_printer.specs.Names.{names_of};
ghost use Rattle.sp_printer.specs.Pieces.{kind_word, numbers_text, dims_text, start_text, mem_type, mem_shape, mem_text, par_text, span_text, spans_text, is_zero_of, is_zero, from_text, counter_text, counters_text, bound_names, binds_text, block_word, style_prefix, comb_text, loop_head};

use crate::NoMemory;
use crate::expressions::{push_comma, push_whole};
use crate::names::push_counter_name;
use crate::types::push_type;
use crate::words::{push_literal, word_at};
use sp_tree::{Comb, Counter, Expr, ExprKind, MemDecl, Program, Span};
use sp_words::{Kind, Style, Ty};
use std::alloc::Global;

fn kind_word(kind: Kind) -> &'static str
    ensures { result.now ≡ kind_word kind }
{
    match kind {
        Kind::Reg => "Reg",
        Kind::Sram => "SRAM",
        Kind::Fifo => "FIFO",
        Kind::LineBuf => "LineBuffer",
        Kind::Dram => "DRAM",
        Kind::ArgIn => "ArgIn",
        Kind::ArgOut => "ArgOut",
    }
}

fn push_numbers(text: &mut String, first: bool, all: &[u32]) -> Result<(), NoMemory>
    ensures { OnOk result (string_bytes text.new ≡ string_bytes text.old ++ numbers_text first all.now) }
{
    let [number, rest @ ..] = all else {
        return Ok(());
    };
    push_comma(text, first)?;
    write!(text, "{number}")?;
    push_numbers(text, false, rest)?;
    Ok(())
}

fn push_dims(text: &mut String, dims: &[u32]) -> Result<(), NoMemory>
    ensures { OnOk result (string_bytes text.new ≡ string_bytes text.old ++ dims_text dims.now) }
{
    let [_first, _rest @ ..] = dims else {
        return Ok(());
    };
    text.push_str("(")?;
    push_numbers(text, true, dims)?;
    text.push_str(")")?;
    Ok(())
}

fn push_start(alloc: Global, text: &mut String, ty: Ty, start: Option<u64>) -> Result<(), NoMemory>
    ensures { OnOk result (string_bytes text.new ≡ string_bytes text.old ++ start_text ty start) }
{
    match start {
        None => Ok(()),
        Some(word) => {
            text.push_str("(")?;
            push_literal(alloc, text, ty, word)?;
            text.push_str(")")?;
            Ok(())
        }
    }
}

#[tactic(auto, unfolding(crate::specs::Pieces::mem_type))]
fn push_mem_type(text: &mut String, kind: Kind, ty: Ty) -> Result<(), NoMemory>
    ensures { OnOk result (string_bytes text.new ≡ string_bytes text.old ++ mem_type kind ty) }
{
    text.push_str(kind_word(kind))?;
    text.push_str("[")?;
    push_type(text, ty)?;
    text.push_str("]")?;
    Ok(())
}

#[tactic(auto, unfolding(crate::specs::Pieces::mem_shape))]
fn push_mem_shape(
    alloc: Global,
    text: &mut String,
    ty: Ty,
    dims: &[u32],
    start: Option<u64>,
) -> Result<(), NoMemory>
    ensures { OnOk result (string_bytes text.new ≡ string_bytes text.old ++ mem_shape ty dims.now start) }
{
    push_dims(text, dims)?;
    push_start(alloc, text, ty, start)?;
    Ok(())
}

/// Appends the declaration of a memory.
#[tactic(auto, unfolding(crate::specs::Pieces::mem_text))]
pub(crate) fn push_mem(alloc: Global, text: &mut String, mem: &MemDecl) -> Result<(), NoMemory>
    ensures { OnOk result (string_bytes text.new ≡ string_bytes text.old ++ mem_text (plain_mem mem.now)) }
{
    text.push_str("val ")?;
    text.push_str(&mem.name)?;
    text.push_str(" = ")?;
    push_mem_type(text, mem.kind, mem.ty)?;
    push_mem_shape(alloc, text, mem.ty, &mem.dims, mem.start)?;
    Ok(())
}

fn push_par(text: &mut String, par: u32) -> Result<(), NoMemory>
    ensures { OnOk result (string_bytes text.new ≡ string_bytes text.old ++ par_text par) }
{
    if par == 1 {
        return Ok(());
    }
    write!(text, " par {par}")?;
    Ok(())
}

fn push_span(
    alloc: Global,
    text: &mut String,
    program: &Program,
    span: &Span,
) -> Result<(), NoMemory>
    ensures { OnOk result (string_bytes text.new ≡ string_bytes text.old ++ span_text (names_of program.now) (plain_span span.now)) }
{
    match span {
        Span::One(e) => push_whole(alloc, text, program, e),
        Span::Range(from, until, par) => {
            push_whole(alloc, text, program, from)?;
            text.push_str("::")?;
            push_whole(alloc, text, program, until)?;
            push_par(text, *par)?;
            Ok(())
        }
    }
}

/// Appends the spans of a slice.
pub(crate) fn push_spans(
    alloc: Global,
    text: &mut String,
    program: &Program,
    first: bool,
    all: &[Span],
) -> Result<(), NoMemory>
    ensures { OnOk result (string_bytes text.new ≡ string_bytes text.old ++ spans_text (names_of program.now) first (map plain_span all.now)) }
{
    let [span, rest @ ..] = all else {
        return Ok(());
    };
    push_comma(text, first)?;
    push_span(alloc, text, program, span)?;
    push_spans(alloc, text, program, false, rest)?;
    Ok(())
}

fn is_zero_of(ty: Ty, word: u64) -> bool
    ensures { result ≡ is_zero_of ty word }
{
    match ty {
        Ty::Fix(fix) => word_at(Ty::Fix(fix), word) == 0,
        Ty::Bit => false,
    }
}

/// Whether the expression is the literal 0.
#[tactic(auto, using(crate::proofs::TreeLemmas::plain_get_sram))]
fn is_zero(e: &Expr) -> bool
    ensures { result ≡ is_zero (plain_expr e.now) }
{
    match &e.kind {
        ExprKind::Lit(word) => is_zero_of(e.ty, *word),
        ExprKind::Count(_) => false,
        ExprKind::Val(_) => false,
        ExprKind::GetReg(_) => false,
        ExprKind::GetArg(_) => false,
        ExprKind::GetSram(_, _) => false,
        ExprKind::GetLine(_, _, _) => false,
        ExprKind::Deq(_) => false,
        ExprKind::One(_, _) => false,
        ExprKind::Two(_, _, _) => false,
        ExprKind::Shift(_, _, _) => false,
        ExprKind::Mux(_, _, _) => false,
        ExprKind::Cast(_) => false,
    }
}

fn push_from(
    alloc: Global,
    text: &mut String,
    program: &Program,
    from: &Expr,
) -> Result<(), NoMemory>
    ensures { OnOk result (string_bytes text.new ≡ string_bytes text.old ++ from_text (names_of program.now) (plain_expr from.now)) }
{
    if is_zero(from) {
        return Ok(());
    }
    push_whole(alloc, text, program, from)?;
    text.push_str(" until ")?;
    Ok(())
}

fn push_counter(
    alloc: Global,
    text: &mut String,
    program: &Program,
    counter: &Counter,
) -> Result<(), NoMemory>
    ensures { OnOk result (string_bytes text.new ≡ string_bytes text.old ++ counter_text (names_of program.now) (plain_counter counter.now)) }
{
    let step = counter.by;
    push_from(alloc, text, program, &counter.from)?;
    push_whole(alloc, text, program, &counter.until)?;
    write!(text, " by {step}")?;
    push_par(text, counter.par)?;
    Ok(())
}

fn push_counters(
    alloc: Global,
    text: &mut String,
    program: &Program,
    first: bool,
    all: &[Counter],
) -> Result<(), NoMemory>
    ensures { OnOk result (string_bytes text.new ≡ string_bytes text.old ++ counters_text (names_of program.now) first (map plain_counter all.now)) }
{
    let [counter, rest @ ..] = all else {
        return Ok(());
    };
    push_comma(text, first)?;
    push_counter(alloc, text, program, counter)?;
    push_counters(alloc, text, program, false, rest)?;
    Ok(())
}

fn push_bound_names(
    text: &mut String,
    program: &Program,
    first: bool,
    all: &[Counter],
) -> Result<(), NoMemory>
    ensures { OnOk result (string_bytes text.new ≡ string_bytes text.old ++ bound_names (names_of program.now) first (map plain_counter all.now)) }
{
    let [counter, rest @ ..] = all else {
        return Ok(());
    };
    push_comma(text, first)?;
    push_counter_name(text, program, counter.id.number())?;
    push_bound_names(text, program, false, rest)?;
    Ok(())
}

fn push_binds(text: &mut String, program: &Program, all: &[Counter]) -> Result<(), NoMemory>
    ensures { OnOk result (string_bytes text.new ≡ string_bytes text.old ++ binds_text (names_of program.now) (map plain_counter all.now)) }
{
    let [counter, rest @ ..] = all else {
        return Ok(());
    };
    let [_second, _others @ ..] = rest else {
        return push_counter_name(text, program, counter.id.number());
    };
    text.push_str("(")?;
    push_bound_names(text, program, true, all)?;
    text.push_str(")")?;
    Ok(())
}

/// The word of a block.
pub(crate) fn block_word(style: Style) -> &'static str
    ensures { result.now ≡ block_word style }
{
    match style {
        Style::Pipe => "Pipe",
        Style::Sequential => "Sequential",
        Style::Parallel => "Parallel",
        Style::Stream => "Stream",
    }
}

/// What stands before a loop of the style.
pub(crate) fn style_prefix(style: Style) -> &'static str
    ensures { result.now ≡ style_prefix style }
{
    match style {
        Style::Pipe => "",
        Style::Sequential => "Sequential.",
        Style::Parallel => "Parallel.",
        Style::Stream => "Stream.",
    }
}

/// A combination as it stands behind its loop.
pub(crate) fn comb_text(comb: Comb) -> &'static str
    ensures { result.now ≡ comb_text comb }
{
    match comb {
        Comb::Add => "{_ + _}",
        Comb::Mul => "{_ * _}",
        Comb::And => "{_ & _}",
        Comb::Or => "{_ | _}",
        Comb::Xor => "{_ ^ _}",
        Comb::Min => "{(a, b) => min(a, b)}",
        Comb::Max => "{(a, b) => max(a, b)}",
    }
}

/// Appends the counters and the names of a loop, up to the end of the line.
#[tactic(auto, unfolding(crate::specs::Pieces::loop_head))]
pub(crate) fn push_loop_head(
    alloc: Global,
    text: &mut String,
    program: &Program,
    all: &[Counter],
) -> Result<(), NoMemory>
    ensures { OnOk result (string_bytes text.new ≡ string_bytes text.old ++ loop_head (names_of program.now) (map plain_counter all.now)) }
{
    text.push_str("(")?;
    push_counters(alloc, text, program, true, all)?;
    text.push_str("){ ")?;
    push_binds(text, program, all)?;
    text.push_str(" =>")?;
    text.push_str("\n")?;
    Ok(())
}
