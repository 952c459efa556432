//! Statements as they are written.
ghost use Rattle.std.specs.Prelude.{◌≡◌, ◌++◌, string_bytes, OnOk};
ghost use Rattle.sp_tree.specs.PlainTree.{plain_ctl, plain_stmt_kind, plain_stmts};
ghost use Rattle.sp_printer.specs.Body.{body_text, stmt_text, else_text, is_empty};
ghost use Rattle.sp_printer.specs.Names.{names_of};

use crate::NoMemory;
use crate::expressions::{push_list, push_whole};
use crate::names::push_mem_name;
use crate::statements::{
    deeper, push_block_head, push_declare, push_end, push_enq, push_foreach_head, push_fsm_head,
    push_fsm_tail, push_if_head, push_let, push_load, push_mem_reduce_head, push_mem_reduce_tail,
    push_places, push_reduce_head, push_reduce_tail, push_set, push_slice,
};
use sp_tree::{Ctl, Program, Stmt, StmtKind};
use std::alloc::Global;

fn is_empty(body: &[Stmt]) -> bool
    ensures { result ≡ is_empty (plain_stmts body.now) }
{
    let [_first, _rest @ ..] = body else {
        return true;
    };
    false
}

/// Appends the line before a second block, if there is one.
#[tactic(auto, unfolding(crate::specs::Body::else_text))]
fn push_else(text: &mut String, margin: &str, empty: bool) -> Result<(), NoMemory>
    ensures { OnOk result (string_bytes text.new ≡ string_bytes text.old ++ else_text margin.now empty) }
{
    if empty {
        return Ok(());
    }
    text.push_str(margin)?;
    text.push_str("} else {")?;
    text.push_str("\n")?;
    Ok(())
}

/// Appends the lines of a body.
#[cycle(push_body)]
pub(crate) fn push_body(
    alloc: Global,
    text: &mut String,
    program: &Program,
    margin: &str,
    body: &[Stmt],
) -> Result<(), NoMemory>
    ensures { OnOk result (string_bytes text.new ≡ string_bytes text.old ++ body_text (names_of program.now) margin.now (plain_stmts body.now)) }
{
    for s in body {
        text.push_str(margin)?;
        push_stmt(alloc, text, program, margin, &s.kind)?;
        text.push_str("\n")?;
    }
    Ok(())
}

#[cycle(push_body)]
fn push_stmt(
    alloc: Global,
    text: &mut String,
    program: &Program,
    margin: &str,
    kind: &StmtKind,
) -> Result<(), NoMemory>
    ensures { OnOk result (string_bytes text.new ≡ string_bytes text.old ++ stmt_text (names_of program.now) margin.now (plain_stmt_kind kind.now)) }
{
    match kind {
        StmtKind::Declare(m) => push_declare(alloc, text, program.mems(), *m),
        StmtKind::Let(v, e) => push_let(alloc, text, program, v.number(), e),
        StmtKind::SetReg(m, e) => push_set(alloc, text, program, m.number(), e),
        StmtKind::SetOut(m, e) => push_set(alloc, text, program, m.number(), e),
        StmtKind::SetSram(m, indices, e) => {
            push_mem_name(text, program, m.number())?;
            text.push_str("(")?;
            push_list(alloc, text, program, indices)?;
            text.push_str(") = ")?;
            push_whole(alloc, text, program, e)?;
            Ok(())
        }
        StmtKind::Enq(m, e) => push_enq(alloc, text, program, m.number(), e),
        StmtKind::LoadSram(sram, dram, spans) => {
            push_load(alloc, text, program, sram.number(), dram.number(), spans)
        }
        StmtKind::LoadLine(line, dram, spans) => {
            push_load(alloc, text, program, line.number(), dram.number(), spans)
        }
        StmtKind::Store(dram, spans, sram) => {
            push_slice(alloc, text, program, dram.number(), spans)?;
            text.push_str(" store ")?;
            push_mem_name(text, program, sram.number())?;
            Ok(())
        }
        StmtKind::Gather(sram, dram, places, count) => {
            push_mem_name(text, program, sram.number())?;
            text.push_str(" gather ")?;
            push_places(alloc, text, program, dram.number(), places.number(), count)?;
            Ok(())
        }
        StmtKind::Scatter(dram, places, count, sram) => {
            push_places(alloc, text, program, dram.number(), places.number(), count)?;
            text.push_str(" scatter ")?;
            push_mem_name(text, program, sram.number())?;
            Ok(())
        }
        StmtKind::Control(ctl) => push_ctl(alloc, text, program, margin, ctl),
    }
}

#[cycle(push_body)]
fn push_ctl(
    alloc: Global,
    text: &mut String,
    program: &Program,
    margin: &str,
    ctl: &Ctl,
) -> Result<(), NoMemory>
    ensures { OnOk result (string_bytes text.new ≡ string_bytes text.old ++ stmt_text (names_of program.now) margin.now (plain_ctl ctl.now)) }
{
    let inner = deeper(alloc, margin)?;
    match ctl {
        Ctl::Block { style, body } => {
            push_block_head(text, *style)?;
            push_body(alloc, text, program, &inner, body)?;
            push_end(text, margin)?;
            Ok(())
        }
        Ctl::Foreach {
            style,
            counters,
            body,
        } => {
            push_foreach_head(alloc, text, program, *style, counters)?;
            push_body(alloc, text, program, &inner, body)?;
            push_end(text, margin)?;
            Ok(())
        }
        Ctl::Reduce {
            style,
            fold,
            acc,
            counters,
            body,
            value,
            comb,
        } => {
            push_reduce_head(alloc, text, program, *style, *fold, acc.number(), counters)?;
            push_body(alloc, text, program, &inner, body)?;
            push_reduce_tail(alloc, text, program, margin, value, *comb)?;
            Ok(())
        }
        Ctl::MemReduce {
            style,
            acc,
            counters,
            body,
            part,
            comb,
        } => {
            push_mem_reduce_head(alloc, text, program, *style, acc.number(), counters)?;
            push_body(alloc, text, program, &inner, body)?;
            push_mem_reduce_tail(text, program, margin, part.number(), *comb)?;
            Ok(())
        }
        Ctl::Fsm {
            start,
            tested,
            test,
            state,
            body,
            last,
            next,
        } => {
            push_fsm_head(
                alloc,
                text,
                program,
                start,
                tested.number(),
                test,
                state.number(),
            )?;
            push_body(alloc, text, program, &inner, body)?;
            text.push_str(margin)?;
            push_fsm_tail(alloc, text, program, last.number(), next)?;
            Ok(())
        }
        Ctl::Branch { test, yes, no } => {
            push_if_head(alloc, text, program, test)?;
            push_body(alloc, text, program, &inner, yes)?;
            push_else(text, margin, is_empty(no))?;
            push_body(alloc, text, program, &inner, no)?;
            push_end(text, margin)?;
            Ok(())
        }
    }
}
