//! Whether the plan of each node keeps its rules.

ghost use Rattle.std.specs.Prelude.{◌≡◌, ◌≤◌, ◌<◌, ◌+◌, ◌^◌, ◌&&◌, ◌↔◌, ℕ, false, map, IsTrue};
ghost use Rattle.sp_core.specs.CoreParts.{plain_core};
ghost use Rattle.sp_core.specs.Forms.{plain_forms};
ghost use Rattle.sp_core.specs.Numbering.{node_count, number_count, number_count_in, counters_size};
ghost use Rattle.sp_core.specs.Plain.{plain_counter, plain_node, plain_stage_list};
ghost use Rattle.sp_core.specs.PlainCore.{outer};
ghost use Rattle.sp_plan.specs.Nodes.{site_at, keeps_at};
ghost use Rattle.sp_plan.specs.Plain.{plain_node_plan};
ghost use Rattle.sp_plan.specs.Validity.{is_kind_of, is_timed, are_runs_right};
ghost use Rattle.sp_plans.specs.Parts.{node_rules, IsNodeRight};
ghost use Rattle.sp_valid.specs.Plans.{plan_of};

use sp_core::{AccessForms, Core, CoreCounter, Meet, Node, Stage};
use sp_plan::{
    MemPlan, NodePlan, are_body_runs_right, are_times_right, count_nodes, counters_size,
    is_of_kind, site_at,
};
use sp_words::Style;

/// Whether the times of a node are right, where it is an inner body and has a plan of its kind.
fn is_timed(
    core: &Core,
    forms: &AccessForms,
    meets: &[Meet],
    mems: &[MemPlan],
    nodes: &[NodePlan],
    number: u32,
    streamed: bool,
    node: &Node,
    planned: &NodePlan,
) -> bool
    requires { number + number_count (plain_node node.now) ≤ 2 ^ 29 }
    ensures { result ≡ is_timed (plain_core core.now) (plain_forms forms.now) meets.now (plan_of mems.now nodes.now) number streamed (plain_node node.now) (plain_node_plan planned.now) }
{
    let _forms = forms;
    let _nodes = nodes;
    match node {
        Node::Inner { counters, ops, .. } => match planned {
            NodePlan::Inner {
                times,
                ii,
                latency,
                serial,
            } => {
                let first = number + counters_size(counters);
                are_times_right(
                    core, mems, meets, first, streamed, ops, times, *ii, *latency, *serial,
                )
            }
            _ => true,
        },
        _ => true,
    }
}

/// Whether the slots and chains of an outer body, whose first operation has a number, are right, where it has a plan of its
/// kind.
fn are_stages_right(
    core: &Core,
    forms: &AccessForms,
    meets: &[Meet],
    mems: &[MemPlan],
    nodes: &[NodePlan],
    number: u32,
    counters: &[CoreCounter],
    style: Style,
    owned: &[u32],
    stages: &[Stage],
    planned: &NodePlan,
) -> bool
    requires { number + (counters_size (map plain_counter counters.now) + number_count_in (plain_stage_list stages.now)) ≤ 2 ^ 29 }
    ensures { result ≡ are_runs_right (plain_core core.now) (plain_forms forms.now) meets.now (plan_of mems.now nodes.now) number (outer (map plain_counter counters.now) style owned.now (plain_stage_list stages.now)) (plain_node_plan planned.now) }
{
    let _forms = forms;
    let _mems = mems;
    let _nodes = nodes;
    match planned {
        NodePlan::Outer { slots, chains } => {
            let first = number + counters_size(counters);
            are_body_runs_right(
                core, counters, style, owned, meets, first, stages, slots, chains,
            )
        }
        _ => true,
    }
}

/// Whether those of a node are, where it is an outer body.
fn are_runs_right(
    core: &Core,
    forms: &AccessForms,
    meets: &[Meet],
    mems: &[MemPlan],
    nodes: &[NodePlan],
    number: u32,
    node: &Node,
    planned: &NodePlan,
) -> bool
    requires { number + number_count (plain_node node.now) ≤ 2 ^ 29 }
    ensures { result ≡ are_runs_right (plain_core core.now) (plain_forms forms.now) meets.now (plan_of mems.now nodes.now) number (plain_node node.now) (plain_node_plan planned.now) }
{
    match node {
        Node::Outer {
            counters,
            style,
            owned,
            stages,
        } => are_stages_right(
            core, forms, meets, mems, nodes, number, counters, *style, owned, stages, planned,
        ),
        _ => true,
    }
}

/// Whether a node's plan is of its kind, and its times, or its slots and chains, are right.
fn keeps_rules(
    core: &Core,
    forms: &AccessForms,
    meets: &[Meet],
    mems: &[MemPlan],
    nodes: &[NodePlan],
    number: u32,
    streamed: bool,
    node: &Node,
    planned: &NodePlan,
) -> bool
    requires { number + number_count (plain_node node.now) ≤ 2 ^ 29 }
    ensures { result ≡ (is_kind_of (plain_node node.now) (plain_node_plan planned.now) && (is_timed (plain_core core.now) (plain_forms forms.now) meets.now (plan_of mems.now nodes.now) number streamed (plain_node node.now) (plain_node_plan planned.now) && are_runs_right (plain_core core.now) (plain_forms forms.now) meets.now (plan_of mems.now nodes.now) number (plain_node node.now) (plain_node_plan planned.now))) }
{
    is_of_kind(node, planned)
        && (is_timed(
            core, forms, meets, mems, nodes, number, streamed, node, planned,
        ) && are_runs_right(core, forms, meets, mems, nodes, number, node, planned))
}

/// Whether a node, whose number is this, keeps the rules by its plan.
fn is_planned_right(
    core: &Core,
    forms: &AccessForms,
    meets: &[Meet],
    mems: &[MemPlan],
    nodes: &[NodePlan],
    k: u32,
    number: u32,
    streamed: bool,
    node: &Node,
) -> bool
    requires { number + number_count (plain_node node.now) ≤ 2 ^ 29 }
    ensures { result ≡ node_rules (plain_core core.now) (plain_forms forms.now) meets.now (plan_of mems.now nodes.now) k number streamed (plain_node node.now) }
{
    match nodes.get(k as usize) {
        Some(planned) => {
            keeps_rules(
                core, forms, meets, mems, nodes, number, streamed, node, planned,
            )
        }
        None => keeps_rules(
            core,
            forms,
            meets,
            mems,
            nodes,
            number,
            streamed,
            node,
            &NodePlan::Other,
        ),
    }
}

/// Whether the node of a number does.
fn is_node_right(
    core: &Core,
    forms: &AccessForms,
    meets: &[Meet],
    mems: &[MemPlan],
    nodes: &[NodePlan],
    k: u32,
) -> bool
    ensures { result ≡ keeps_at (node_rules (plain_core core.now) (plain_forms forms.now) meets.now (plan_of mems.now nodes.now)) k (site_at k 0 false (plain_core core.now).root) }
{
    match site_at(k, 0, false, core.root()) {
        None => true,
        Some(site) => is_planned_right(
            core,
            forms,
            meets,
            mems,
            nodes,
            k,
            site.number,
            site.streamed,
            site.node,
        ),
    }
}

/// Whether each node does. Each is looked up from the root, so this takes time in the square of the count of nodes.
pub(crate) fn are_nodes_right(
    core: &Core,
    forms: &AccessForms,
    meets: &[Meet],
    mems: &[MemPlan],
    nodes: &[NodePlan],
) -> bool
    ensures { IsTrue result ↔ ((k : ℕ) → k < node_count (plain_core core.now).root → IsNodeRight (plain_core core.now) (plain_forms forms.now) meets.now (plan_of mems.now nodes.now) k) }
{
    let count = count_nodes(core.root());
    for k in 0..count {
        if !is_node_right(core, forms, meets, mems, nodes, k) {
            return false;
        }
    }
    true
}
