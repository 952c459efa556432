//! A core as text: a line of the names of its memories, those that the compiler adds after a `+`, and a line for each node,
//! indented by its depth. Operations stand in a row, each with its memory, the places of its operands in parentheses, its
//! type where that is `Bit`, and its mask after `if`; `i0` is counter 0.
use sp_core::{Core, CoreCounter, CoreSpan, Node, Op, OpKind, Stage};
use sp_words::{Style, Ty};
use std::alloc::Global;
use std::test::Fail;

fn kind_of(alloc: Global, kind: OpKind) -> Result<String, Fail> {
    let text = match kind {
        OpKind::Word(word) => format!(in alloc; "{word}")?,
        OpKind::Count(c, _) => format!(in alloc; "i{c}")?,
        OpKind::Live(_, _, _) => String::from_str(alloc, "live")?,
        OpKind::Read => String::from_str(alloc, "read")?,
        OpKind::Write => String::from_str(alloc, "write")?,
        OpKind::Enq => String::from_str(alloc, "enq")?,
        OpKind::Deq => String::from_str(alloc, "deq")?,
        OpKind::Reset => String::from_str(alloc, "reset")?,
        OpKind::Mux => String::from_str(alloc, "mux")?,
        OpKind::One(op) => format!(in alloc; "{op:?}")?,
        OpKind::Two(op) => format!(in alloc; "{op:?}")?,
        OpKind::Shift(_, by) => format!(in alloc; "shift{by}")?,
        OpKind::Cast(_) => String::from_str(alloc, "cast")?,
    };
    Ok(text)
}

fn is_word(kind: OpKind) -> bool {
    match kind {
        OpKind::Word(_) | OpKind::Count(_, _) | OpKind::Live(_, _, _) => true,
        _ => false,
    }
}

fn push_number(alloc: Global, text: &mut String, before: &str, number: u32) -> Result<(), Fail> {
    text.push_str(before)?;
    let digits = format!(in alloc; "{number}")?;
    text.push_str(&digits)?;
    Ok(())
}

fn push_places(alloc: Global, text: &mut String, places: &[u32]) -> Result<(), Fail> {
    let mut before = "(";
    for place in places {
        push_number(alloc, text, before, *place)?;
        before = " ";
    }
    if before == "(" {
        text.push_str("(")?;
    }
    text.push_str(")")?;
    Ok(())
}

fn push_op(alloc: Global, text: &mut String, op: &Op) -> Result<(), Fail> {
    let kind = kind_of(alloc, op.kind)?;
    text.push_str(&kind)?;
    if let Some(m) = op.mem {
        push_number(alloc, text, " ", m)?;
    }
    if !is_word(op.kind) {
        push_places(alloc, text, &op.args)?;
    }
    if op.ty == Ty::Bit {
        text.push_str(" Bit")?;
    }
    if let Some(mask) = op.mask {
        push_number(alloc, text, " if ", mask)?;
    }
    Ok(())
}

fn push_ops(alloc: Global, text: &mut String, before: &str, ops: &[Op]) -> Result<(), Fail> {
    let mut between = before;
    for op in ops {
        text.push_str(between)?;
        push_op(alloc, text, op)?;
        between = "; ";
    }
    Ok(())
}

fn push_counters(alloc: Global, text: &mut String, counters: &[CoreCounter]) -> Result<(), Fail> {
    for counter in counters {
        push_number(alloc, text, " (i", counter.id)?;
        push_ops(alloc, text, ": ", &counter.from)?;
        push_ops(alloc, text, " .. ", &counter.until)?;
        push_number(alloc, text, " by ", counter.by)?;
        push_number(alloc, text, " par ", counter.par)?;
        text.push_str(")")?;
    }
    Ok(())
}

fn push_spans(alloc: Global, text: &mut String, spans: &[CoreSpan]) -> Result<(), Fail> {
    for span in spans {
        match span {
            CoreSpan::One(ops) => push_ops(alloc, text, " (", ops)?,
            CoreSpan::Range(from, until) => {
                push_ops(alloc, text, " (", from)?;
                push_ops(alloc, text, " .. ", until)?;
            }
        }
        text.push_str(")")?;
    }
    Ok(())
}

fn push_owned(alloc: Global, text: &mut String, owned: &[u32]) -> Result<(), Fail> {
    let mut before = " owns ";
    for m in owned {
        push_number(alloc, text, before, *m)?;
        before = " ";
    }
    Ok(())
}

/// Begins the line of a node.
fn begin(text: &mut String, depth: u32, word: &str) -> Result<(), Fail> {
    text.push_str("\n")?;
    for _ in 0..depth {
        text.push_str("  ")?;
    }
    text.push_str(word)?;
    Ok(())
}

fn push_inner(
    alloc: Global,
    text: &mut String,
    counters: &[CoreCounter],
    owned: &[u32],
    ops: &[Op],
    comb: Option<u32>,
) -> Result<(), Fail> {
    text.push_str("inner")?;
    push_counters(alloc, text, counters)?;
    push_owned(alloc, text, owned)?;
    if let Some(place) = comb {
        push_number(alloc, text, " comb ", place)?;
    }
    text.push_str(":")?;
    push_ops(alloc, text, " ", ops)
}

fn push_outer(
    alloc: Global,
    text: &mut String,
    counters: &[CoreCounter],
    style: Style,
    owned: &[u32],
) -> Result<(), Fail> {
    let style = format!(in alloc; "outer {style:?}")?;
    text.push_str(&style)?;
    push_counters(alloc, text, counters)?;
    push_owned(alloc, text, owned)
}

fn push_transfer(
    alloc: Global,
    text: &mut String,
    word: &str,
    dram: u32,
    between: &str,
    mem: u32,
    spans: &[CoreSpan],
) -> Result<(), Fail> {
    push_number(alloc, text, word, dram)?;
    push_number(alloc, text, between, mem)?;
    push_spans(alloc, text, spans)
}

/// Appends the lines of a node and of those in it, the first one after a word.
#[cycle(shown)]
fn push_node(
    alloc: Global,
    node: &Node,
    text: &mut String,
    depth: u32,
    word: &str,
) -> Result<(), Fail> {
    let deeper = depth.saturating_add(1);
    begin(text, depth, word)?;
    match node {
        Node::Inner {
            counters,
            owned,
            ops,
            comb,
        } => push_inner(alloc, text, counters, owned, ops, *comb),
        Node::Outer {
            counters,
            style,
            owned,
            stages,
        } => {
            push_outer(alloc, text, counters, *style, owned)?;
            push_stages(alloc, stages, text, deeper)
        }
        Node::Fsm {
            start,
            state,
            test,
            body,
            next,
        } => {
            push_number(alloc, text, "fsm ", *state)?;
            push_ops(alloc, text, " from ", start)?;
            push_ops(alloc, text, " while ", test)?;
            push_node(alloc, body, text, deeper, "")?;
            begin(text, deeper, "next")?;
            push_ops(alloc, text, " ", next)
        }
        Node::Branch { test, yes, no } => {
            push_ops(alloc, text, "branch ", test)?;
            push_node(alloc, yes, text, deeper, "")?;
            push_node(alloc, no, text, deeper, "")
        }
        Node::Load { dram, mem, span } => {
            push_transfer(alloc, text, "load ", *dram, " to ", *mem, span)
        }
        Node::Store { dram, mem, span } => {
            push_transfer(alloc, text, "store ", *dram, " from ", *mem, span)
        }
        Node::Sparse {
            kind,
            dram,
            mem,
            index,
            span,
            count,
            par,
        } => {
            let kind = format!(in alloc; "{kind:?} ")?;
            push_transfer(alloc, text, &kind, *dram, " with ", *mem, span)?;
            if let Some(places) = index {
                push_number(alloc, text, " at ", *places)?;
            }
            push_ops(alloc, text, ": ", count)?;
            push_number(alloc, text, " par ", *par)
        }
    }
}

#[cycle(shown)]
fn push_stages(alloc: Global, stages: &[Stage], text: &mut String, depth: u32) -> Result<(), Fail> {
    for stage in stages {
        let word = if stage.comb { "comb " } else { "" };
        push_node(alloc, &stage.node, text, depth, word)?;
    }
    Ok(())
}

/// The text of a core.
pub(crate) fn shown(alloc: Global, core: &Core) -> Result<String, Fail> {
    let mut text = String::new(alloc);
    for mem in core.mems() {
        if text.len() > 0 {
            text.push_str(" ")?;
        }
        if !mem.written {
            text.push_str("+")?;
        }
        text.push_str(&mem.name)?;
    }
    push_node(alloc, core.root(), &mut text, 0, "")?;
    Ok(text)
}
