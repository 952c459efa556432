//! The nodes of a narrow core.

ghost use Rattle.std.specs.Prelude.{◌≡◌, IfOk};
ghost use Rattle.sp_core.specs.Plain.{plain_node, plain_stage_list};
ghost use Rattle.sp_narrow.specs.Narrow.{narrow_node, narrow_stages};

use sp_core::{Node, SparseKind, Stage};
use sp_unroll::{NoMemory, copied_counters, copied_ops, copied_spans};
use std::alloc::Global;

/// The node with those in it, where what is moved in several lanes is moved word by word.
#[cycle(narrowed)]
pub fn narrow_node(alloc: Global, node: &Node) -> Result<Node, NoMemory>
    ensures { IfOk result (λ made. plain_node made ≡ narrow_node (plain_node node.now)) }
{
    match node {
        Node::Inner {
            counters,
            owned,
            ops,
            comb,
        } => Ok(Node::Inner {
            counters: copied_counters(alloc, counters)?,
            owned: Vec::from_slice(alloc, owned)?,
            ops: copied_ops(alloc, ops)?,
            comb: *comb,
        }),
        Node::Outer {
            counters,
            style,
            owned,
            stages,
        } => {
            let counters = copied_counters(alloc, counters)?;
            let owned = Vec::from_slice(alloc, owned)?;
            let stages = narrow_stages(alloc, stages)?;
            Ok(Node::Outer {
                counters,
                style: *style,
                owned,
                stages,
            })
        }
        Node::Fsm {
            start,
            state,
            test,
            body,
            next,
        } => {
            let body = narrow_node(alloc, body)?;
            Ok(Node::Fsm {
                start: copied_ops(alloc, start)?,
                state: *state,
                test: copied_ops(alloc, test)?,
                body: Box::new(alloc, body)?,
                next: copied_ops(alloc, next)?,
            })
        }
        Node::Branch { test, yes, no } => {
            let yes = narrow_node(alloc, yes)?;
            let no = narrow_node(alloc, no)?;
            Ok(Node::Branch {
                test: copied_ops(alloc, test)?,
                yes: Box::new(alloc, yes)?,
                no: Box::new(alloc, no)?,
            })
        }
        Node::Load { dram, mem, span } => Ok(Node::Load {
            dram: *dram,
            mem: *mem,
            span: copied_spans(alloc, span)?,
        }),
        Node::Store { dram, mem, span } => Ok(Node::Store {
            dram: *dram,
            mem: *mem,
            span: copied_spans(alloc, span)?,
        }),
        Node::Sparse {
            kind,
            dram,
            mem,
            index,
            span,
            count,
            par,
        } => {
            let span = copied_spans(alloc, span)?;
            match kind {
                SparseKind::WideLoad => Ok(Node::Load {
                    dram: *dram,
                    mem: *mem,
                    span,
                }),
                SparseKind::WideStore => Ok(Node::Store {
                    dram: *dram,
                    mem: *mem,
                    span,
                }),
                SparseKind::Gather | SparseKind::Scatter => Ok(Node::Sparse {
                    kind: *kind,
                    dram: *dram,
                    mem: *mem,
                    index: *index,
                    span,
                    count: copied_ops(alloc, count)?,
                    par: *par,
                }),
            }
        }
    }
}

#[cycle(narrowed)]
fn narrow_stages(alloc: Global, stages: &[Stage]) -> Result<Vec<Stage>, NoMemory>
    ensures { IfOk result (λ made. plain_stage_list made.items ≡ narrow_stages (plain_stage_list stages.now)) }
{
    let mut made = Vec::new(alloc);
    for stage in stages {
        let node = narrow_node(alloc, &stage.node)?;
        made.push(Stage {
            first: stage.first,
            last: stage.last,
            comb: stage.comb,
            node,
        })?;
    }
    Ok(made)
}
