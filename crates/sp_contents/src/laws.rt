//! Laws of copies.

ghost use Rattle.sp_contents.specs.Found.{FirstContentsAgree, PlannedRunsAreFound};
ghost use Rattle.sp_contents.specs.Inside.{RunsAreAllowed, RunsAreInside};
ghost use Rattle.sp_contents.specs.Laws.{CopiesFollow};
ghost use Rattle.sp_contents.specs.Trees.{RunsStay};
ghost use Rattle.sp_core.specs.PlainCore.{PlainCore};
ghost use Rattle.sp_machine.specs.Transfers.{Delays};
ghost use Rattle.sp_plan.specs.PlainPlan.{PlainPlan};

/// Moments that happen one after the other in the order of the text find in the copies of memories what they find in the
/// memories, where between two makings of a memory all that is done to it is done to one copy.
pub fn copies_follow()
    ensures { (core : PlainCore) → CopiesFollow core }
{}

/// A run of a core stays with its copies: between two makings of a memory all that is done to it is done to one copy, in which
/// each loop around has it in that group.
pub fn runs_stay()
    ensures { (core : PlainCore) (plan : PlainPlan) (delays : Delays) → RunsStay core plan delays }
{}

/// Where a run of a core ends, each slice that it took has an empty range or is inside of its DRAM.
pub fn runs_are_inside()
    ensures { (core : PlainCore) → RunsAreInside core }
{}

/// All that happens in a run is allowed, by the rules of cores, where its slices are inside of their DRAMs.
pub fn runs_are_allowed()
    ensures { (core : PlainCore) → RunsAreAllowed core }
{}

/// Contents that hold the words of the input in DRAMs and arguments, 0 in outputs and rows in line buffers agree with the store
/// in which a core begins.
pub fn first_contents_agree()
    ensures { (core : PlainCore) → FirstContentsAgree core }
{}

/// What happens in a run of a core, in the cycles that a valid plan gives it, is found in time: each moment finds in its own
/// cycle what it finds in the order of the text, each cycle makes at most one change at a place, and after all DRAMs and
/// outputs hold what the run leaves, whatever the delays of its transfers are.
pub fn planned_runs_are_found()
    ensures { (core : PlainCore) (plan : PlainPlan) (delays : Delays) → PlannedRunsAreFound core plan delays }
{}
