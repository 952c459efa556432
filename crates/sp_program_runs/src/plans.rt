//! Laws of the plans of programs.

ghost use Rattle.std.specs.Prelude.{ℕ};
ghost use Rattle.sp_tree.specs.Invariant.{IsProgram};
ghost use Rattle.sp_tree.specs.PlainProgram.{PlainProgram};
ghost use Rattle.sp_machine.specs.Transfers.{Delays};
ghost use Rattle.sp_plan.specs.PlainPlan.{PlainPlan};
ghost use Rattle.sp_program_runs.specs.PlansLaws.{ProgramHasPlan, ProgramPlanIsSound, ProgramRunsInTime, ProgramEndsWithin};

use sp_brisk::brisk_runs_end_within;
use sp_chosen_runs::own_plans_are_sound;
use sp_lane_cores::programs_stay_cores;
use sp_lane_programs::{programs_are_by_lane, programs_end_in_lanes};

/// A plan that is valid for the core of a program in lanes is a plan of that core, in which what a loop owns is used lane by lane.
pub fn programs_have_plans()
    ensures { (p : PlainProgram) → IsProgram p → ProgramHasPlan p }
{
    programs_stay_cores();
    programs_are_by_lane();
}

/// By it, in each run of that core each moment finds in its own cycle what it finds in the order of the text, and no run of an
/// inner body shares a port of a bank, other than as one tap.
pub fn program_plans_are_sound()
    ensures { (p : PlainProgram) (plan : PlainPlan) (delays : Delays) → IsProgram p → ProgramPlanIsSound p plan delays }
{
    programs_have_plans();
    own_plans_are_sound();
}

/// Where the core of a program ends, its core in lanes ends with the same words of outputs and of DRAMs, in a run that the plan
/// makes sound and that goes around no oftener.
pub fn programs_run_in_time()
    ensures { (p : PlainProgram) (plan : PlainPlan) (delays : Delays) → IsProgram p → ProgramRunsInTime p plan delays }
{
    programs_end_in_lanes();
    program_plans_are_sound();
}

/// By a brisk plan it ends within the limit of as many turns as the core goes around, where no transfer waits longer than a delay.
pub fn programs_end_within()
    ensures { (p : PlainProgram) (plan : PlainPlan) (delays : Delays) (delay : ℕ) → IsProgram p → ProgramEndsWithin p plan delays delay }
{
    programs_stay_cores();
    brisk_runs_end_within();
}
