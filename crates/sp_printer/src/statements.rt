//! Parts of statements as they are written.
ghost use Rattle.std.specs.Prelude.{◌≡◌, ◌++◌, map, string_bytes, OnOk, IfOk};
ghost use Rattle.sp_tree.specs.Plain.{plain_expr, plain_mem};
ghost use Rattle.sp_tree.specs.PlainTree.{plain_span, plain_counter};
ghost use Rattle.sp_printer.specs.Body.{deeper, declare_text, set_text, enq_text, let_text, slice_text, places_text, load_text, acc_head, reduce_word, fsm_head, fsm_test, fsm_tail, if_head, block_head, foreach_head, reduce_head, mem_reduce_head, end_text, comb_tail, reduce_tail, mem_reduce_tail};
ghost use Rattle.sp_printer.specs.Names.{names_of};

use crate::NoMemory;
use crate::expressions::push_whole;
use crate::names::{push_mem_name, push_val_name};
use crate::pieces::{block_word, comb_text, push_loop_head, push_mem, push_spans, style_prefix};
use sp_tree::{Comb, Counter, Expr, MemDecl, Program, Span};
use sp_words::Style;
use std::alloc::Global;

/// The margin of the statements inside.
pub(crate) fn deeper(alloc: Global, margin: &str) -> Result<String, NoMemory>
    ensures { IfOk result (λ text. string_bytes text ≡ deeper margin.now) }
{
    let mut text = String::from_str(alloc, margin)?;
    text.push_str("  ")?;
    Ok(text)
}

/// Appends the declaration of a number.
pub(crate) fn push_declare(
    alloc: Global,
    text: &mut String,
    mems: &[MemDecl],
    number: u32,
) -> Result<(), NoMemory>
    ensures { OnOk result (string_bytes text.new ≡ string_bytes text.old ++ declare_text (map plain_mem mems.now) number) }
{
    match mems.get(number as usize) {
        Some(mem) => push_mem(alloc, text, mem),
        None => Ok(()),
    }
}

/// Appends a write of a register or an output.
pub(crate) fn push_set(
    alloc: Global,
    text: &mut String,
    program: &Program,
    mem: u32,
    e: &Expr,
) -> Result<(), NoMemory>
    ensures { OnOk result (string_bytes text.new ≡ string_bytes text.old ++ set_text (names_of program.now) mem (plain_expr e.now)) }
{
    push_mem_name(text, program, mem)?;
    text.push_str(" := ")?;
    push_whole(alloc, text, program, e)?;
    Ok(())
}

/// Appends what puts a word into a FIFO.
pub(crate) fn push_enq(
    alloc: Global,
    text: &mut String,
    program: &Program,
    mem: u32,
    e: &Expr,
) -> Result<(), NoMemory>
    ensures { OnOk result (string_bytes text.new ≡ string_bytes text.old ++ enq_text (names_of program.now) mem (plain_expr e.now)) }
{
    push_mem_name(text, program, mem)?;
    text.push_str(".enq(")?;
    push_whole(alloc, text, program, e)?;
    text.push_str(")")?;
    Ok(())
}

/// Appends what names a value.
pub(crate) fn push_let(
    alloc: Global,
    text: &mut String,
    program: &Program,
    value: u32,
    e: &Expr,
) -> Result<(), NoMemory>
    ensures { OnOk result (string_bytes text.new ≡ string_bytes text.old ++ let_text (names_of program.now) value (plain_expr e.now)) }
{
    text.push_str("val ")?;
    push_val_name(text, program, value)?;
    text.push_str(" = ")?;
    push_whole(alloc, text, program, e)?;
    Ok(())
}

/// Appends a slice of a DRAM.
pub(crate) fn push_slice(
    alloc: Global,
    text: &mut String,
    program: &Program,
    dram: u32,
    spans: &[Span],
) -> Result<(), NoMemory>
    ensures { OnOk result (string_bytes text.new ≡ string_bytes text.old ++ slice_text (names_of program.now) dram (map plain_span spans.now)) }
{
    push_mem_name(text, program, dram)?;
    text.push_str("(")?;
    push_spans(alloc, text, program, true, spans)?;
    text.push_str(")")?;
    Ok(())
}

/// Appends the places of a DRAM that an SRAM holds.
pub(crate) fn push_places(
    alloc: Global,
    text: &mut String,
    program: &Program,
    dram: u32,
    places: u32,
    count: &Expr,
) -> Result<(), NoMemory>
    ensures { OnOk result (string_bytes text.new ≡ string_bytes text.old ++ places_text (names_of program.now) dram places (plain_expr count.now)) }
{
    push_mem_name(text, program, dram)?;
    text.push_str("(")?;
    push_mem_name(text, program, places)?;
    text.push_str(", ")?;
    push_whole(alloc, text, program, count)?;
    text.push_str(")")?;
    Ok(())
}

/// Appends a load.
pub(crate) fn push_load(
    alloc: Global,
    text: &mut String,
    program: &Program,
    into: u32,
    dram: u32,
    spans: &[Span],
) -> Result<(), NoMemory>
    ensures { OnOk result (string_bytes text.new ≡ string_bytes text.old ++ load_text (names_of program.now) into dram (map plain_span spans.now)) }
{
    push_mem_name(text, program, into)?;
    text.push_str(" load ")?;
    push_slice(alloc, text, program, dram, spans)?;
    Ok(())
}

/// Appends the accumulator of a loop that combines.
#[tactic(auto, unfolding(crate::specs::Body::acc_head))]
pub(crate) fn push_acc(text: &mut String, program: &Program, acc: u32) -> Result<(), NoMemory>
    ensures { OnOk result (string_bytes text.new ≡ string_bytes text.old ++ acc_head (names_of program.now) acc) }
{
    text.push_str("(")?;
    push_mem_name(text, program, acc)?;
    text.push_str(")")?;
    Ok(())
}

/// The word of a loop that combines words.
fn reduce_word(fold: bool) -> &'static str
    ensures { result.now ≡ reduce_word fold }
{
    if fold { "Fold" } else { "Reduce" }
}

/// Appends the first line of a block.
#[tactic(auto, unfolding(crate::specs::Body::block_head))]
pub(crate) fn push_block_head(text: &mut String, style: Style) -> Result<(), NoMemory>
    ensures { OnOk result (string_bytes text.new ≡ string_bytes text.old ++ block_head style) }
{
    text.push_str(block_word(style))?;
    text.push_str(" {")?;
    text.push_str("\n")?;
    Ok(())
}

/// Appends the first line of a loop.
#[tactic(auto, unfolding(crate::specs::Body::foreach_head))]
pub(crate) fn push_foreach_head(
    alloc: Global,
    text: &mut String,
    program: &Program,
    style: Style,
    counters: &[Counter],
) -> Result<(), NoMemory>
    ensures { OnOk result (string_bytes text.new ≡ string_bytes text.old ++ foreach_head (names_of program.now) style (map plain_counter counters.now)) }
{
    text.push_str(style_prefix(style))?;
    text.push_str("Foreach")?;
    push_loop_head(alloc, text, program, counters)?;
    Ok(())
}

/// Appends the first line of a loop that combines words.
#[tactic(auto, unfolding(crate::specs::Body::reduce_head))]
pub(crate) fn push_reduce_head(
    alloc: Global,
    text: &mut String,
    program: &Program,
    style: Style,
    fold: bool,
    acc: u32,
    counters: &[Counter],
) -> Result<(), NoMemory>
    ensures { OnOk result (string_bytes text.new ≡ string_bytes text.old ++ reduce_head (names_of program.now) style fold acc (map plain_counter counters.now)) }
{
    text.push_str(style_prefix(style))?;
    text.push_str(reduce_word(fold))?;
    push_acc(text, program, acc)?;
    push_loop_head(alloc, text, program, counters)?;
    Ok(())
}

/// Appends the first line of a loop that combines SRAMs.
#[tactic(auto, unfolding(crate::specs::Body::mem_reduce_head))]
pub(crate) fn push_mem_reduce_head(
    alloc: Global,
    text: &mut String,
    program: &Program,
    style: Style,
    acc: u32,
    counters: &[Counter],
) -> Result<(), NoMemory>
    ensures { OnOk result (string_bytes text.new ≡ string_bytes text.old ++ mem_reduce_head (names_of program.now) style acc (map plain_counter counters.now)) }
{
    text.push_str(style_prefix(style))?;
    text.push_str("MemReduce")?;
    push_acc(text, program, acc)?;
    push_loop_head(alloc, text, program, counters)?;
    Ok(())
}

/// Appends the end of a body.
#[tactic(auto, unfolding(crate::specs::Body::end_text))]
pub(crate) fn push_end(text: &mut String, margin: &str) -> Result<(), NoMemory>
    ensures { OnOk result (string_bytes text.new ≡ string_bytes text.old ++ end_text margin.now) }
{
    text.push_str(margin)?;
    text.push_str("}")?;
    Ok(())
}

#[tactic(auto, unfolding(crate::specs::Body::comb_tail))]
fn push_comb_tail(text: &mut String, margin: &str, comb: Comb) -> Result<(), NoMemory>
    ensures { OnOk result (string_bytes text.new ≡ string_bytes text.old ++ comb_tail margin.now comb) }
{
    text.push_str("\n")?;
    push_end(text, margin)?;
    text.push_str(comb_text(comb))?;
    Ok(())
}

/// Appends the value of a body, and what follows it.
#[tactic(auto, unfolding(crate::specs::Body::reduce_tail))]
pub(crate) fn push_reduce_tail(
    alloc: Global,
    text: &mut String,
    program: &Program,
    margin: &str,
    word: &Expr,
    comb: Comb,
) -> Result<(), NoMemory>
    ensures { OnOk result (string_bytes text.new ≡ string_bytes text.old ++ reduce_tail (names_of program.now) margin.now (plain_expr word.now) comb) }
{
    text.push_str(margin)?;
    text.push_str("  ")?;
    push_whole(alloc, text, program, word)?;
    push_comb_tail(text, margin, comb)?;
    Ok(())
}

/// Appends the SRAM that a body ends with, and what follows it.
#[tactic(auto, unfolding(crate::specs::Body::mem_reduce_tail))]
pub(crate) fn push_mem_reduce_tail(
    text: &mut String,
    program: &Program,
    margin: &str,
    part: u32,
    comb: Comb,
) -> Result<(), NoMemory>
    ensures { OnOk result (string_bytes text.new ≡ string_bytes text.old ++ mem_reduce_tail (names_of program.now) margin.now part comb) }
{
    text.push_str(margin)?;
    text.push_str("  ")?;
    push_mem_name(text, program, part)?;
    push_comb_tail(text, margin, comb)?;
    Ok(())
}

#[tactic(auto, unfolding(crate::specs::Body::fsm_test))]
fn push_fsm_test(
    alloc: Global,
    text: &mut String,
    program: &Program,
    tested: u32,
    test: &Expr,
) -> Result<(), NoMemory>
    ensures { OnOk result (string_bytes text.new ≡ string_bytes text.old ++ fsm_test (names_of program.now) tested (plain_expr test.now)) }
{
    text.push_str("(")?;
    push_val_name(text, program, tested)?;
    text.push_str(" => ")?;
    push_whole(alloc, text, program, test)?;
    text.push_str("){ ")?;
    Ok(())
}

/// Appends the first line of a state machine.
#[tactic(auto, unfolding(crate::specs::Body::fsm_head))]
pub(crate) fn push_fsm_head(
    alloc: Global,
    text: &mut String,
    program: &Program,
    start: &Expr,
    tested: u32,
    test: &Expr,
    state: u32,
) -> Result<(), NoMemory>
    ensures { OnOk result (string_bytes text.new ≡ string_bytes text.old ++ fsm_head (names_of program.now) (plain_expr start.now) tested (plain_expr test.now) state) }
{
    text.push_str("FSM(")?;
    push_whole(alloc, text, program, start)?;
    text.push_str(")")?;
    push_fsm_test(alloc, text, program, tested, test)?;
    push_val_name(text, program, state)?;
    text.push_str(" =>")?;
    text.push_str("\n")?;
    Ok(())
}

/// Appends what follows the body of a state machine.
#[tactic(auto, unfolding(crate::specs::Body::fsm_tail))]
pub(crate) fn push_fsm_tail(
    alloc: Global,
    text: &mut String,
    program: &Program,
    last: u32,
    next: &Expr,
) -> Result<(), NoMemory>
    ensures { OnOk result (string_bytes text.new ≡ string_bytes text.old ++ fsm_tail (names_of program.now) last (plain_expr next.now)) }
{
    text.push_str("}{ ")?;
    push_val_name(text, program, last)?;
    text.push_str(" => ")?;
    push_whole(alloc, text, program, next)?;
    text.push_str(" }")?;
    Ok(())
}

/// Appends the first line of a branch.
#[tactic(auto, unfolding(crate::specs::Body::if_head))]
pub(crate) fn push_if_head(
    alloc: Global,
    text: &mut String,
    program: &Program,
    test: &Expr,
) -> Result<(), NoMemory>
    ensures { OnOk result (string_bytes text.new ≡ string_bytes text.old ++ if_head (names_of program.now) (plain_expr test.now)) }
{
    text.push_str("if (")?;
    push_whole(alloc, text, program, test)?;
    text.push_str(") {")?;
    text.push_str("\n")?;
    Ok(())
}
