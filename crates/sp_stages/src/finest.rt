ghost use Rattle.std.specs.Prelude.{◌≡◌, ℕ, IsTrue, List, ◌≤◌, ◌+◌, ◌^◌, map, IfOk};
ghost use Rattle.sp_core.specs.CoreParts.{plain_core};
ghost use Rattle.sp_core.specs.Declarations.{is_stream};
ghost use Rattle.sp_core.specs.Numbering.{node_count_in, number_count_in};
ghost use Rattle.sp_core.specs.Plain.{plain_counter, plain_stage_list};
ghost use Rattle.sp_plan.specs.Slots.{runs_of};
ghost use Rattle.sp_stages.specs.Finest.{are_in_place};
ghost use Rattle.sp_stages.specs.Plans.{AreFinestIn, AreFinestSlotsOf, AreFinestChainsIn, AreFinestChainsOf};

use crate::NoMemory;
use crate::chaining::chains_of;
use crate::dividing::slots_of;
use crate::names::names;
use crate::runs::runs_of;
use sp_core::{Core, CoreCounter, Meet, Meets, Node, Stage};
use sp_plan::{counters_size, is_stream, site_at};
use sp_words::Style;
use std::alloc::Global;

/// The slots of a body whose first stage's first operation has a number.
fn body_slots(
    alloc: Global,
    core: &Core,
    counters: &[CoreCounter],
    style: Style,
    owned: &[u32],
    number: u32,
    stages: &[Stage],
    meets: &[Meet],
) -> Result<Vec<u32>, NoMemory>
    requires numbers { number + number_count_in (plain_stage_list stages.now) ≤ 2 ^ 30 }
    requires nodes { node_count_in (plain_stage_list stages.now) ≤ 2 ^ 30 }
    requires in_place { IsTrue (are_in_place (runs_of number (plain_stage_list stages.now))) }
    ensures { IfOk result (λ slots. AreFinestIn (plain_core core.now) meets.now (is_stream style) (map plain_counter counters.now) style owned.now (runs_of number (plain_stage_list stages.now)) slots.items) }
{
    if is_stream(style) {
        return Ok(Vec::new(alloc));
    }
    let all = names(alloc, core)?;
    let runs = runs_of(alloc, number, stages)?;
    slots_of(alloc, core, &all, counters, style, owned, &runs, meets)
}

/// The finest slots of an outer body, by the number of its node and the meets of the core: for each stage its slot, where
/// stages that must be held together have one. Of a `Stream` block, and of any other node, there are none.
///
/// In time it takes a look at each stage for each meet, and at each held pair of stages for each stage.
pub fn slots(alloc: Global, core: &Core, node: u32, meets: &Meets) -> Result<Vec<u32>, NoMemory>
    ensures { IfOk result (λ slots. AreFinestSlotsOf (plain_core core.now) meets.now.pairs.items node slots.items) }
{
    match site_at(node, 0, false, core.root()) {
        None => Ok(Vec::new(alloc)),
        Some(site) => match site.node {
            Node::Outer {
                counters,
                style,
                owned,
                stages,
            } => {
                let number = site.number + counters_size(counters);
                body_slots(
                    alloc,
                    core,
                    counters,
                    *style,
                    owned,
                    number,
                    stages,
                    &meets.pairs,
                )
            }
            _ => Ok(Vec::new(alloc)),
        },
    }
}

/// The chains of a body whose first stage's first operation has a number, and whose stages have these slots.
fn body_chains(
    alloc: Global,
    core: &Core,
    counters: &[CoreCounter],
    style: Style,
    number: u32,
    stages: &[Stage],
    meets: &[Meet],
    slots: &[u32],
) -> Result<Vec<u32>, NoMemory>
    requires numbers { number + number_count_in (plain_stage_list stages.now) ≤ 2 ^ 30 }
    requires nodes { node_count_in (plain_stage_list stages.now) ≤ 2 ^ 30 }
    ensures { IfOk result (λ chains. (owned : List ℕ) → AreFinestChainsIn (plain_core core.now) meets.now slots.now (is_stream style) (map plain_counter counters.now) style owned (runs_of number (plain_stage_list stages.now)) chains.items) }
{
    if is_stream(style) {
        return Ok(Vec::new(alloc));
    }
    let runs = runs_of(alloc, number, stages)?;
    chains_of(alloc, core, counters, style, &runs, meets, slots)
}

/// The finest chains of an outer body whose stages have these slots, by the number of its node and the meets of the core:
/// for each stage its chain, where those of one slot that are of one lane, or may meet in one group, have one. A stage
/// without a slot is taken as one of slot 0. Of a `Stream` block, and of any other node, there are none.
///
/// In time it takes a look at each meet for each two stages of one slot, and at each stage for each two that are joined.
pub fn chains(
    alloc: Global,
    core: &Core,
    node: u32,
    meets: &Meets,
    slots: &[u32],
) -> Result<Vec<u32>, NoMemory>
    ensures { IfOk result (λ chains. AreFinestChainsOf (plain_core core.now) meets.now.pairs.items slots.now node chains.items) }
{
    match site_at(node, 0, false, core.root()) {
        None => Ok(Vec::new(alloc)),
        Some(site) => match site.node {
            Node::Outer {
                counters,
                style,
                stages,
                ..
            } => {
                let number = site.number + counters_size(counters);
                body_chains(
                    alloc,
                    core,
                    counters,
                    *style,
                    number,
                    stages,
                    &meets.pairs,
                    slots,
                )
            }
            _ => Ok(Vec::new(alloc)),
        },
    }
}
