//! Parts of nodes: styles, loops, states.
ghost use Rattle.std.specs.Prelude.{◌≡◌, ℕ, [], None, map, IfOk};
ghost use Rattle.sp_core.specs.Plain as core;
ghost use Rattle.sp_core.specs.PlainCore.{branch, fsm, inner};
ghost use Rattle.sp_tree.specs.Plain.{plain_expr, plain_mem};
ghost use Rattle.sp_tree.specs.PlainTree.{plain_counter, plain_stmts};
ghost use Rattle.sp_sugar.specs.Early.{counters_of};
ghost use Rattle.sp_sugar.specs.Operations.{word_list};
ghost use Rattle.sp_sugar.specs.Stages.{style_of};
ghost use Rattle.sp_sugar.specs.Values.{with_state};
ghost use Rattle.sp_operations.specs.Sources.{sources_of};

use crate::NoMemory;
use crate::early::push_counters;
use sp_core::{CoreCounter, Node};
use sp_counts::is_proper;
use sp_operations::{Source, set_source, word_list};
use sp_tree::{Counter, Expr, MemDecl, Stmt, ValId};
use sp_words::Style;
use std::alloc::Global;

/// The style of a block: one that isn't a proper `Stream` block is a sequence.
pub(crate) fn style_of(
    alloc: Global,
    mems: &[MemDecl],
    style: Style,
    body: &[Stmt],
) -> Result<Style, NoMemory>
    ensures { IfOk result (λ style'. (counters : ℕ) → style' ≡ style_of (map plain_mem mems.now) counters style (plain_stmts body.now)) }
{
    match style {
        Style::Stream => {
            if is_proper(alloc, mems, body)? {
                return Ok(Style::Stream);
            }
            Ok(Style::Sequential)
        }
        Style::Pipe => Ok(Style::Pipe),
        Style::Sequential => Ok(Style::Sequential),
        Style::Parallel => Ok(Style::Parallel),
    }
}

/// Where values are found in the body of an FSM: its three binders stand for its state.
pub(crate) fn with_state(
    alloc: Global,
    sources: &[Source],
    tested: ValId,
    state: ValId,
    last: ValId,
    r: u32,
) -> Result<Vec<Source>, NoMemory>
    ensures { IfOk result (λ kept. sources_of kept.items ≡ with_state (sources_of sources.now) tested state last r) }
{
    let mut kept = Vec::from_slice(alloc, sources)?;
    set_source(&mut kept, tested.number(), Source::InRegister(r))?;
    set_source(&mut kept, state.number(), Source::InRegister(r))?;
    set_source(&mut kept, last.number(), Source::InRegister(r))?;
    Ok(kept)
}

/// The counters of a loop, whose early bounds cross in registers from a number on.
pub(crate) fn loops_of(
    alloc: Global,
    mems: &[MemDecl],
    sources: &[Source],
    r: u32,
    counters: &[Counter],
) -> Result<Vec<CoreCounter>, NoMemory>
    ensures { IfOk result (λ loops. map core.plain_counter loops.items ≡ counters_of (map plain_mem mems.now) (sources_of sources.now) r (map plain_counter counters.now)) }
{
    let mut loops = Vec::new(alloc);
    push_counters(alloc, &mut loops, mems, sources, r, counters)?;
    Ok(loops)
}

/// An FSM whose state is in a register; `kept` is where values are found in it.
pub(crate) fn fsm_node(
    alloc: Global,
    mems: &[MemDecl],
    sources: &[Source],
    kept: &[Source],
    r: u32,
    start: &Expr,
    test: &Expr,
    body: Node,
    next: &Expr,
) -> Result<Node, NoMemory>
    ensures { IfOk result (λ made. core.plain_node made ≡ fsm (word_list (map plain_mem mems.now) (sources_of sources.now) (plain_expr start.now)) r (word_list (map plain_mem mems.now) (sources_of kept.now) (plain_expr test.now)) (core.plain_node body) (word_list (map plain_mem mems.now) (sources_of kept.now) (plain_expr next.now))) }
{
    let start = word_list(alloc, mems, sources, start)?;
    let test = word_list(alloc, mems, kept, test)?;
    let next = word_list(alloc, mems, kept, next)?;
    Ok(Node::Fsm {
        start,
        state: r,
        test,
        body: Box::new(alloc, body)?,
        next,
    })
}

/// One of two nodes, by a test.
pub(crate) fn branch_node(
    alloc: Global,
    mems: &[MemDecl],
    sources: &[Source],
    test: &Expr,
    yes: Node,
    no: Node,
) -> Result<Node, NoMemory>
    ensures { IfOk result (λ made. core.plain_node made ≡ branch (word_list (map plain_mem mems.now) (sources_of sources.now) (plain_expr test.now)) (core.plain_node yes) (core.plain_node no)) }
{
    Ok(Node::Branch {
        test: word_list(alloc, mems, sources, test)?,
        yes: Box::new(alloc, yes)?,
        no: Box::new(alloc, no)?,
    })
}

/// A node that does nothing.
pub(crate) fn no_node(alloc: Global) -> Node
    ensures { core.plain_node result ≡ inner [] [] [] None }
{
    Node::Inner {
        counters: Vec::new(alloc),
        owned: Vec::new(alloc),
        ops: Vec::new(alloc),
        comb: None,
    }
}
