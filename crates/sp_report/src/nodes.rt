//! Lines of controllers and transfers.
ghost use Rattle.std.specs.Prelude.{◌≡◌, ◌≤◌, ◌+◌, ◌^◌, ◌++◌, map, string_bytes, OnOk};
ghost use Rattle.sp_core.specs.Declarations.{is_stream};
ghost use Rattle.sp_core.specs.Numbering.{node_count};
ghost use Rattle.sp_core.specs.Plain.{plain_node};
ghost use Rattle.sp_plan.specs.Plain.{plain_node_plan, plain_plan};
ghost use Rattle.sp_plan.specs.PlainPlan.{node_plan};
ghost use Rattle.sp_report.specs.Memories.{numbers_text};
ghost use Rattle.sp_report.specs.Nodes.{issue_text, inner_text, inner_plan_text, slots_of, outer_text, sparse_text, node_text, node_line, node_lines};

use crate::NoMemory;
use crate::memories::push_numbers;
use sp_core::{Node, SparseKind};
use sp_plan::{NodePlan, Plan, count_nodes, is_stream};

#[tactic(auto, unfolding(crate::specs::Nodes::issue_text))]
fn push_issue(text: &mut String, ii: u32, serial: bool) -> Result<(), NoMemory>
    ensures { OnOk result (string_bytes text.new ≡ string_bytes text.old ++ issue_text ii serial) }
{
    if serial {
        return text.push_str(" serial");
    }
    write!(text, " ii {ii}")
}

#[tactic(auto, unfolding(crate::specs::Nodes::inner_text))]
fn push_inner(text: &mut String, ii: u32, latency: u32, serial: bool) -> Result<(), NoMemory>
    ensures { OnOk result (string_bytes text.new ≡ string_bytes text.old ++ inner_text ii latency serial) }
{
    text.push_str("inner")?;
    push_issue(text, ii, serial)?;
    write!(text, " latency {latency}")?;
    Ok(())
}

fn push_inner_plan(text: &mut String, plan: &NodePlan) -> Result<(), NoMemory>
    ensures { OnOk result (string_bytes text.new ≡ string_bytes text.old ++ inner_plan_text (plain_node_plan plan.now)) }
{
    match plan {
        NodePlan::Inner {
            ii,
            latency,
            serial,
            ..
        } => push_inner(text, *ii, *latency, *serial),
        _ => text.push_str("inner"),
    }
}

fn push_slots(text: &mut String, plan: &NodePlan) -> Result<(), NoMemory>
    ensures { OnOk result (string_bytes text.new ≡ string_bytes text.old ++ numbers_text (slots_of (plain_node_plan plan.now))) }
{
    match plan {
        NodePlan::Outer { slots, .. } => push_numbers(text, slots),
        _ => Ok(()),
    }
}

#[tactic(auto, unfolding(crate::specs::Nodes::outer_text))]
fn push_outer(text: &mut String, stream: bool, plan: &NodePlan) -> Result<(), NoMemory>
    ensures { OnOk result (string_bytes text.new ≡ string_bytes text.old ++ outer_text stream (plain_node_plan plan.now)) }
{
    if stream {
        return text.push_str("stream");
    }
    text.push_str("outer slots")?;
    push_slots(text, plan)?;
    Ok(())
}

fn sparse_word(kind: SparseKind) -> &'static str
    ensures { result.now ≡ sparse_text kind }
{
    match kind {
        SparseKind::Gather => "gather",
        SparseKind::Scatter => "scatter",
        SparseKind::WideLoad => "load",
        SparseKind::WideStore => "store",
    }
}

fn push_kind(text: &mut String, node: &Node, plan: &NodePlan) -> Result<(), NoMemory>
    ensures { OnOk result (string_bytes text.new ≡ string_bytes text.old ++ node_text (plain_node node.now) (plain_node_plan plan.now)) }
{
    match node {
        Node::Inner { .. } => push_inner_plan(text, plan),
        Node::Outer { style, .. } => push_outer(text, is_stream(*style), plan),
        Node::Fsm { .. } => text.push_str("fsm"),
        Node::Branch { .. } => text.push_str("branch"),
        Node::Load { .. } => text.push_str("load"),
        Node::Store { .. } => text.push_str("store"),
        Node::Sparse { kind, .. } => text.push_str(sparse_word(*kind)),
    }
}

#[tactic(auto, unfolding(crate::specs::Nodes::node_line))]
fn push_line(text: &mut String, k: u32, node: &Node, plan: &NodePlan) -> Result<(), NoMemory>
    ensures { OnOk result (string_bytes text.new ≡ string_bytes text.old ++ node_line k (plain_node node.now) (plain_node_plan plan.now)) }
{
    write!(text, "ctl {k} ")?;
    push_kind(text, node, plan)?;
    text.push_str("\n")?;
    Ok(())
}

/// Appends the line of the node of a number, by what is planned of it.
fn push_planned(text: &mut String, k: u32, node: &Node, plan: &Plan) -> Result<(), NoMemory>
    ensures { OnOk result (string_bytes text.new ≡ string_bytes text.old ++ node_line k (plain_node node.now) (node_plan (plain_plan plan.now) k)) }
{
    match plan.nodes.get(k as usize) {
        Some(planned) => push_line(text, k, node, planned),
        None => push_line(text, k, node, &NodePlan::Other),
    }
}

/// Appends the lines of a node and of those inside of it, from a number on.
pub(crate) fn push_nodes(
    text: &mut String,
    k: u32,
    node: &Node,
    plan: &Plan,
) -> Result<(), NoMemory>
    requires { k + node_count (plain_node node.now) ≤ 2 ^ 30 }
    ensures { OnOk result (string_bytes text.new ≡ string_bytes text.old ++ node_lines (plain_plan plan.now) k (plain_node node.now)) }
{
    push_planned(text, k, node, plan)?;
    match node {
        Node::Outer { stages, .. } => {
            let mut next = k + 1;
            for stage in stages {
                push_nodes(text, next, &stage.node, plan)?;
                next += count_nodes(&stage.node);
            }
            Ok(())
        }
        Node::Fsm { body, .. } => push_nodes(text, k + 1, body, plan),
        Node::Branch { yes, no, .. } => {
            push_nodes(text, k + 1, yes, plan)?;
            push_nodes(text, k + 1 + count_nodes(yes), no, plan)?;
            Ok(())
        }
        _ => Ok(()),
    }
}
