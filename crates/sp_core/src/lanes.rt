//! Whether the stages of a loop stand lane by lane.

ghost use Rattle.std.specs.Prelude.{◌≡◌, ◌≤◌, ◌||◌, nat_lt, IfOk};
ghost use Rattle.std.specs.List.{list_all};
ghost use Rattle.sp_core.specs.NodeRules.{is_no_lane, are_stages, single_lanes, after_singles, count_zeros, are_lane_by_lane, is_of_all_lanes, are_lanes_right};
ghost use Rattle.sp_core.specs.Plain.{plain_stage_list};

use crate::node::Stage;
use std::alloc::{AllocError, Global};

/// The lanes of the stages of one lane each, up to the first stage of several.
fn single_lanes(alloc: Global, stages: &[Stage]) -> Result<Vec<u32>, AllocError>
    ensures { IfOk result (λ lanes. lanes.items ≡ single_lanes (plain_stage_list stages.now)) }
{
    let mut lanes = Vec::new(alloc);
    for stage in stages {
        if stage.first != stage.last {
            return Ok(lanes);
        }
        lanes.push(stage.first)?;
    }
    Ok(lanes)
}

fn count_zeros(lanes: &[u32]) -> usize
    ensures { result ≡ count_zeros lanes.now }
{
    let mut count = 0;
    for lane in lanes {
        if *lane == 0 {
            count += 1;
        }
    }
    count
}

/// Whether the stage at place i is of lane i / n, where each lane has n.
fn are_lane_by_lane(n: usize, lanes: &[u32]) -> bool
    requires { 1 ≤ n }
    ensures { result ≡ are_lane_by_lane n 0 lanes.now }
{
    for i in 0..lanes.len() {
        if lanes[i] as usize != i / n {
            return false;
        }
    }
    lanes.len() % n == 0
}

/// The stages from the first one of several lanes on.
fn after_singles(stages: &[Stage]) -> &[Stage]
    ensures { plain_stage_list result.now ≡ after_singles (plain_stage_list stages.now) }
{
    let mut left = stages;
    while let Some((stage, rest)) = left.split_first() {
        if stage.first != stage.last {
            return left;
        }
        left = rest;
    }
    left
}

fn are_stages(stages: &[Stage]) -> bool
    ensures { result ≡ are_stages (plain_stage_list stages.now) }
{
    match stages.split_first() {
        None => false,
        Some(_) => true,
    }
}

/// Whether at most one stage stands here, of all lanes.
fn is_of_all_lanes(lanes: u32, stages: &[Stage]) -> bool
    ensures { result ≡ is_of_all_lanes lanes (plain_stage_list stages.now) }
{
    match stages.split_first() {
        None => true,
        Some((stage, rest)) => {
            !are_stages(rest) && (stage.first == 0 && stage.last == lanes.saturating_sub(1))
        }
    }
}

fn are_below(lanes: &[u32], most: u32) -> bool
    ensures { result ≡ list_all (λ lane. nat_lt lane most) lanes.now }
{
    for lane in lanes {
        if *lane >= most {
            return false;
        }
    }
    true
}

/// Whether stages of one lane each stand lane by lane, as many in each lane that has any.
fn are_singles_right(lanes: &[u32]) -> bool
    ensures { result ≡ (is_no_lane lanes.now || are_lane_by_lane (count_zeros lanes.now) 0 lanes.now) }
{
    if lanes.is_empty() {
        return true;
    }
    let n = count_zeros(lanes);
    n != 0 && are_lane_by_lane(n, lanes)
}

/// Whether the stages of an outer stand as they must, by its lanes.
pub(crate) fn are_lanes_right(
    alloc: Global,
    lanes: u32,
    stages: &[Stage],
) -> Result<bool, AllocError>
    ensures { IfOk result (λ right. right ≡ are_lanes_right lanes (plain_stage_list stages.now)) }
{
    let singles = single_lanes(alloc, stages)?;
    Ok(
        (are_stages(stages) && are_below(&singles, lanes))
            && (are_singles_right(&singles) && is_of_all_lanes(lanes, after_singles(stages))),
    )
}
