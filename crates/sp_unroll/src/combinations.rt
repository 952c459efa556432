//! The stage that combines, after all lanes.

ghost use Rattle.std.specs.Prelude.{◌≡◌, ◌-◌, true, map, IfOk, OnOk};
ghost use Rattle.std.specs.Option.{option_map};
ghost use Rattle.sp_core.specs.Around as around;
ghost use Rattle.sp_core.specs.Plain.{plain_counter, plain_node, plain_stage_list};
ghost use Rattle.sp_core.specs.PlainCore.{no_stage, more_stage};
ghost use Rattle.sp_lanes.specs.Unrolled as plain;
ghost use Rattle.sp_lanes.specs.Unrolled.{stage_after, combination_of};
ghost use Rattle.sp_unroll.specs.Entries.{within_of};
ghost use Rattle.sp_unroll.specs.Stages.{onto};

use crate::NoMemory;
use crate::combined::ops_in_lanes;
use crate::copied::copied_node;
use crate::order::lanes_of;
use crate::renamed::{counters_in, numbers_in};
use crate::within::{Within, in_lane};
use sp_core::{CoreCounter, Node, Stage};
use std::alloc::Global;

/// The combination of a controller with stages, which may be a loop over elements.
fn combination_in(
    alloc: Global,
    order: &[u32],
    w: &Within,
    counters: &[CoreCounter],
    owned: &[u32],
    node: &Node,
) -> Result<Node, NoMemory>
    ensures { IfOk result (λ made. plain_node made ≡ plain.combination_in order.now (within_of order.now w.now) (map plain_counter counters.now) owned.now (plain_node node.now)) }
{
    match node {
        Node::Inner {
            counters: own_counters,
            owned: own,
            ops,
            comb,
        } => {
            let inside = in_lane(alloc, order, counters, owned, w, 0)?;
            let made_counters = counters_in(alloc, order, &inside, own_counters)?;
            let made_owned = numbers_in(alloc, order, &inside, own)?;
            let made_ops = ops_in_lanes(alloc, order, w, counters, owned, ops, *comb)?;
            Ok(Node::Inner {
                counters: made_counters,
                owned: made_owned,
                ops: made_ops,
                comb: None,
            })
        }
        _ => {
            let made = copied_node(alloc, node)?;
            Ok(made)
        }
    }
}

/// Appends the combination after all lanes.
fn push_stage_after(
    alloc: Global,
    order: &[u32],
    w: &Within,
    counters: &[CoreCounter],
    owned: &[u32],
    stage: &Stage,
    out: &mut Vec<Stage>,
) -> Result<(), NoMemory>
    ensures { OnOk result (onto out.new.items no_stage ≡ onto out.old.items (more_stage 0 (around.lanes_of (map plain_counter counters.now) - 1) true (plain.combination_in order.now (within_of order.now w.now) (map plain_counter counters.now) owned.now (plain_node stage.now.node)) no_stage)) }
{
    let node = combination_in(alloc, order, w, counters, owned, &stage.node)?;
    let last = lanes_of(counters).saturating_sub(1);
    out.push(Stage {
        first: 0,
        last,
        comb: true,
        node,
    })?;
    Ok(())
}

/// Appends the combination after all lanes, if there is one.
pub(crate) fn push_combination(
    alloc: Global,
    order: &[u32],
    w: &Within,
    counters: &[CoreCounter],
    owned: &[u32],
    stages: &[Stage],
    out: &mut Vec<Stage>,
) -> Result<(), NoMemory>
    ensures { OnOk result (onto out.new.items no_stage ≡ onto out.old.items (stage_after (around.lanes_of (map plain_counter counters.now)) (option_map (plain.combination_in order.now (within_of order.now w.now) (map plain_counter counters.now) owned.now) (combination_of (plain_stage_list stages.now))))) }
{
    let [stage, rest @ ..] = stages else {
        return Ok(());
    };
    if stage.comb {
        push_stage_after(alloc, order, w, counters, owned, stage, out)?;
        return Ok(());
    }
    push_combination(alloc, order, w, counters, owned, rest, out)?;
    Ok(())
}
