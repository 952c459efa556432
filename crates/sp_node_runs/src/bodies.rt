//! Laws of inner bodies in the cycles of the timeline. Each function does nothing: what it ensures is the law.

ghost use Rattle.sp_core.specs.PlainCore.{PlainCore};
ghost use Rattle.sp_plan.specs.PlainPlan.{PlainPlan};
ghost use Rattle.sp_machine.specs.Transfers.{Delays};
ghost use Rattle.sp_node_runs.specs.BodiesBounds.{BoundsStand, RunsTakeBounds};
ghost use Rattle.sp_node_runs.specs.BodiesLaws.{CountedInnersWork, CountersStand, GivenNetsStand, SingleInnersWork};
ghost use Rattle.sp_node_runs.specs.BodiesLists.{ListsWork};
ghost use Rattle.sp_node_runs.specs.BodiesPlanned.{PlansArePaced};
ghost use Rattle.sp_node_runs.specs.BodiesRows.{RowsStand};
ghost use Rattle.sp_node_runs.specs.BodiesSpans.{SpansStand};
ghost use Rattle.sp_node_runs.specs.BodiesSteps.{LoopsTell};

use sp_fitting::lists_fit;
use sp_lane_nets::lanes_have_words;
use sp_part_runs::{
    counters_step, loops_are_in_timeline, loops_work, singles_work, words_agree, words_go_along,
};
use sp_time::beats_in_order;

/// Nets that follow those of counters have the words that operations are given, where the counters stand.
pub fn given_nets_stand()
    ensures { GivenNetsStand }
{
    lanes_have_words();
}

/// The counters of a loop that are at a group stand inside of it, beside those around.
pub fn counters_stand()
    ensures { CountersStand }
{}

/// Where an inner body under counters is started in the cycles of its runs, it is done where these are over, and each of its
/// accesses acts at the events of the timeline and nowhere else.
pub fn counted_inners_work()
    ensures { (core : PlainCore) (plan : PlainPlan) (delays : Delays) → CountedInnersWork core plan delays }
{
    lanes_have_words();
    loops_work();
}

/// So does an inner body without counters.
pub fn single_inners_work()
    ensures { (core : PlainCore) (plan : PlainPlan) (delays : Delays) → SingleInnersWork core plan delays }
{
    lanes_have_words();
    singles_work();
}

/// So does a list of operations that are done one after the other, as a test; and the net of a word of it has that word where it
/// stands.
pub fn lists_work()
    ensures { (core : PlainCore) → ListsWork core }
{
    lanes_have_words();
    singles_work();
    words_agree();
}

/// Where a loop is started and the counters around stand, the nets of its bounds have the bounds of its loops.
pub fn bounds_stand()
    ensures { BoundsStand }
{
    lanes_have_words();
    words_agree();
}

/// Where a transfer is started and the counters around stand, the nets of its slice have the ends of its spans.
pub fn spans_stand()
    ensures { SpansStand }
{
    lanes_have_words();
    words_agree();
}

/// In each run of a loop in a run of a core its bounds did what their operations do.
pub fn runs_take_bounds()
    ensures { (core : PlainCore) → RunsTakeBounds core }
{
    lists_fit();
}

/// Around each stage of a loop in beats, as long as it is at work, the loop's counters stand that are at its group, beside those
/// around the loop.
pub fn rows_stand()
    ensures { (core : PlainCore) (plan : PlainPlan) (delays : Delays) → RowsStand core plan delays }
{
    beats_in_order();
    loops_are_in_timeline();
    words_go_along();
}

/// The counters of a loop in beats, which go on in its steps, tell in each step whether a group comes, also in the cycle after those
/// in which the steps are right.
pub fn loops_tell()
    ensures { (core : PlainCore) (plan : PlainPlan) (delays : Delays) → LoopsTell core plan delays }
{
    counters_step();
    loops_are_in_timeline();
}

/// A valid plan paces each inner body as these laws ask: groups are apart, and one that is over at once has no operation that
/// takes time.
pub fn plans_are_paced()
    ensures { PlansArePaced }
{}
