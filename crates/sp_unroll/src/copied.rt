//! Nodes as they are.

ghost use Rattle.std.specs.Prelude.{◌≡◌, map, IfOk};
ghost use Rattle.sp_core.specs.Plain.{plain_op, plain_ops, plain_counter, plain_span, plain_node, plain_stage_list};

use crate::NoMemory;
use sp_core::{CoreCounter, CoreSpan, Node, Op, Stage};
use std::alloc::Global;

fn copied_op(alloc: Global, op: &Op) -> Result<Op, NoMemory>
    ensures { IfOk result (λ made. plain_op made ≡ plain_op op.now) }
{
    Ok(Op {
        kind: op.kind,
        ty: op.ty,
        args: Vec::from_slice(alloc, &op.args)?,
        mem: op.mem,
        mask: op.mask,
    })
}

pub fn copied_ops(alloc: Global, ops: &[Op]) -> Result<Vec<Op>, NoMemory>
    ensures { IfOk result (λ made. plain_ops made.items ≡ plain_ops ops.now) }
{
    let mut made = Vec::new(alloc);
    for op in ops {
        made.push(copied_op(alloc, op)?)?;
    }
    Ok(made)
}

fn copied_counter(alloc: Global, counter: &CoreCounter) -> Result<CoreCounter, NoMemory>
    ensures { IfOk result (λ made. plain_counter made ≡ plain_counter counter.now) }
{
    Ok(CoreCounter {
        id: counter.id,
        from: copied_ops(alloc, &counter.from)?,
        until: copied_ops(alloc, &counter.until)?,
        by: counter.by,
        par: counter.par,
    })
}

pub fn copied_counters(
    alloc: Global,
    counters: &[CoreCounter],
) -> Result<Vec<CoreCounter>, NoMemory>
    ensures { IfOk result (λ made. map plain_counter made.items ≡ map plain_counter counters.now) }
{
    let mut made = Vec::new(alloc);
    for counter in counters {
        made.push(copied_counter(alloc, counter)?)?;
    }
    Ok(made)
}

fn copied_span(alloc: Global, span: &CoreSpan) -> Result<CoreSpan, NoMemory>
    ensures { IfOk result (λ made. plain_span made ≡ plain_span span.now) }
{
    match span {
        CoreSpan::One(ops) => Ok(CoreSpan::One(copied_ops(alloc, ops)?)),
        CoreSpan::Range(from, until) => {
            let from = copied_ops(alloc, from)?;
            let until = copied_ops(alloc, until)?;
            Ok(CoreSpan::Range(from, until))
        }
    }
}

pub fn copied_spans(alloc: Global, spans: &[CoreSpan]) -> Result<Vec<CoreSpan>, NoMemory>
    ensures { IfOk result (λ made. map plain_span made.items ≡ map plain_span spans.now) }
{
    let mut made = Vec::new(alloc);
    for span in spans {
        made.push(copied_span(alloc, span)?)?;
    }
    Ok(made)
}

#[cycle(copies)]
pub(crate) fn copied_node(alloc: Global, node: &Node) -> Result<Node, NoMemory>
    ensures { IfOk result (λ made. plain_node made ≡ plain_node node.now) }
{
    match node {
        Node::Inner {
            counters,
            owned,
            ops,
            comb,
        } => Ok(Node::Inner {
            counters: copied_counters(alloc, counters)?,
            owned: Vec::from_slice(alloc, owned)?,
            ops: copied_ops(alloc, ops)?,
            comb: *comb,
        }),
        Node::Outer {
            counters,
            style,
            owned,
            stages,
        } => {
            let counters = copied_counters(alloc, counters)?;
            let owned = Vec::from_slice(alloc, owned)?;
            let stages = copied_stages(alloc, stages)?;
            Ok(Node::Outer {
                counters,
                style: *style,
                owned,
                stages,
            })
        }
        Node::Fsm {
            start,
            state,
            test,
            body,
            next,
        } => {
            let body = copied_node(alloc, body)?;
            Ok(Node::Fsm {
                start: copied_ops(alloc, start)?,
                state: *state,
                test: copied_ops(alloc, test)?,
                body: Box::new(alloc, body)?,
                next: copied_ops(alloc, next)?,
            })
        }
        Node::Branch { test, yes, no } => {
            let yes = copied_node(alloc, yes)?;
            let no = copied_node(alloc, no)?;
            Ok(Node::Branch {
                test: copied_ops(alloc, test)?,
                yes: Box::new(alloc, yes)?,
                no: Box::new(alloc, no)?,
            })
        }
        Node::Load { dram, mem, span } => Ok(Node::Load {
            dram: *dram,
            mem: *mem,
            span: copied_spans(alloc, span)?,
        }),
        Node::Store { dram, mem, span } => Ok(Node::Store {
            dram: *dram,
            mem: *mem,
            span: copied_spans(alloc, span)?,
        }),
        Node::Sparse {
            kind,
            dram,
            mem,
            index,
            span,
            count,
            par,
        } => Ok(Node::Sparse {
            kind: *kind,
            dram: *dram,
            mem: *mem,
            index: *index,
            span: copied_spans(alloc, span)?,
            count: copied_ops(alloc, count)?,
            par: *par,
        }),
    }
}

#[cycle(copies)]
fn copied_stages(alloc: Global, stages: &[Stage]) -> Result<Vec<Stage>, NoMemory>
    ensures { IfOk result (λ made. plain_stage_list made.items ≡ plain_stage_list stages.now) }
{
    let mut made = Vec::new(alloc);
    for stage in stages {
        let node = copied_node(alloc, &stage.node)?;
        made.push(Stage {
            first: stage.first,
            last: stage.last,
            comb: stage.comb,
            node,
        })?;
    }
    Ok(made)
}
