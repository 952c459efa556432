//! The graph that the FIFOs of a block make of its stages.

ghost use Rattle.std.specs.Prelude.{◌≡◌};
ghost use Rattle.sp_core.specs.CoreParts.{plain_core};
ghost use Rattle.sp_core.specs.OperationRules.{is_fifo};
ghost use Rattle.sp_core.specs.Declarations.{mem};
ghost use Rattle.sp_core.specs.Plain.{plain_stage_list};
ghost use Rattle.sp_stream.specs.Proper.{is_number, nodes_of, putter, taker, other_end, across, closes, is_forest};
ghost use Rattle.sp_stream.specs.Search.{is_found};

use crate::stages::{Act, place_of};
use sp_core::{Core, Stage};
use sp_plan::kind;
use sp_words::Kind;

pub(crate) fn is_fifo(core: &Core, m: u32) -> bool
    ensures { result ≡ is_fifo (mem (plain_core core.now) m).kind }
{
    match kind(core, m) {
        Kind::Fifo => true,
        _ => false,
    }
}

/// The place of the stage that puts into a FIFO.
fn putter(core: &Core, stages: &[Stage], m: u32) -> Option<usize>
    ensures { result ≡ putter (plain_core core.now) (nodes_of (plain_stage_list stages.now)) m }
{
    if is_fifo(core, m) {
        place_of(Act::Put, m, stages)
    } else {
        None
    }
}

/// The place of the stage that takes from it.
fn taker(core: &Core, stages: &[Stage], m: u32) -> Option<usize>
    ensures { result ≡ taker (plain_core core.now) (nodes_of (plain_stage_list stages.now)) m }
{
    if is_fifo(core, m) {
        place_of(Act::Take, m, stages)
    } else {
        None
    }
}

fn other_end(putter: Option<usize>, taker: Option<usize>, stage: usize) -> Option<usize>
    ensures { result ≡ other_end putter taker stage }
{
    match putter {
        None => None,
        Some(first) => match taker {
            None => None,
            Some(second) => {
                if stage == first {
                    Some(second)
                } else if stage == second {
                    Some(first)
                } else {
                    None
                }
            }
        },
    }
}

/// The stage that a FIFO joins with this one.
fn across(core: &Core, stages: &[Stage], m: u32, stage: usize) -> Option<usize>
    ensures { result ≡ across (plain_core core.now) (nodes_of (plain_stage_list stages.now)) m stage }
{
    other_end(putter(core, stages, m), taker(core, stages, m), stage)
}

/// Whether a step to a stage leads back to the one before.
fn is_back(stage: usize, before: Option<usize>) -> bool
    ensures { result ≡ is_number stage before }
{
    match before {
        None => false,
        Some(other) => stage == other,
    }
}

/// Whether some way of at most so many steps over these FIFOs leads from a stage to another one, where no step leads back
/// to the stage before.
///
/// It looks at each way. Where the FIFOs make a forest there is one to each stage.
fn is_found(
    core: &Core,
    stages: &[Stage],
    fifos: &[u32],
    steps: usize,
    before: Option<usize>,
    from: usize,
    to: usize,
) -> bool
    ensures { result ≡ is_found (plain_core core.now) (nodes_of (plain_stage_list stages.now)) fifos.now steps before from to }
{
    if from == to {
        return true;
    }
    if steps == 0 {
        return false;
    }
    for m in fifos {
        if let Some(next) = across(core, stages, *m, from) {
            if !is_back(next, before)
                && is_found(core, stages, fifos, steps - 1, Some(from), next, to)
            {
                return true;
            }
        }
    }
    false
}

/// Whether a FIFO closes a circle with these. Where they make a forest, there are few ways to look at.
#[tactic(auto, using(crate::proofs::Ways::found_is))]
fn closes(core: &Core, stages: &[Stage], fifos: &[u32], m: u32) -> bool
    ensures { result ≡ closes (plain_core core.now) (nodes_of (plain_stage_list stages.now)) fifos.now m }
{
    match putter(core, stages, m) {
        None => false,
        Some(first) => match taker(core, stages, m) {
            None => false,
            Some(second) => is_found(core, stages, fifos, fifos.len(), None, first, second),
        },
    }
}

/// Whether FIFOs make a forest of the stages. Those after the first one are asked first, so that each search is in a
/// forest.
pub(crate) fn is_forest(core: &Core, stages: &[Stage], fifos: &[u32]) -> bool
    ensures { result ≡ is_forest (plain_core core.now) (nodes_of (plain_stage_list stages.now)) fifos.now }
{
    let [m, rest @ ..] = fifos else {
        return true;
    };
    is_forest(core, stages, rest) && !closes(core, stages, rest, *m)
}
