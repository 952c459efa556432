//! Laws of programs and their plans. Each function does nothing: what it ensures is the law.

ghost use Rattle.std.specs.Prelude.{ℕ};
ghost use Rattle.sp_machine.specs.Transfers.{Delays};
ghost use Rattle.sp_plan.specs.PlainPlan.{PlainPlan};
ghost use Rattle.sp_program_runs.specs.RunsLaws.{LanedProgramRuns, NarrowProgramRuns, ProgramRuns};
ghost use Rattle.sp_tree.specs.Invariant.{IsProgram};
ghost use Rattle.sp_tree.specs.PlainProgram.{PlainProgram};

use sp_chosen_runs::chosen_plans_run;
use sp_lane_cores::programs_stay_cores;
use sp_lane_programs::{programs_are_by_lane, programs_are_timed, programs_end_in_lanes};
use sp_narrow::{
    narrow_cores_go_no_oftener, narrow_cores_have_less_limits, narrow_cores_run_alike,
    narrow_cores_stay_by_lane, narrow_cores_stay_cores,
};
use sp_outcomes::programs_are_followed;
use sp_turns::rounds_are_within_turns;

/// Where a program ends, its core in lanes ends with the same words of outputs and of DRAMs, and by the plan that is chosen for
/// it, whatever the delays of transfers are: each moment finds in its own cycle what it finds in the order of the text, no port
/// of a bank or a FIFO is used twice in one cycle, other than as one tap, ports and elements are there, and the timeline ends
/// within the limit of the program's turns.
pub fn programs_run_well()
    ensures { (p : PlainProgram) (plan : PlainPlan) (delays : Delays) (delay : ℕ) → IsProgram p → ProgramRuns p plan delays delay }
{
    programs_are_timed();
    laned_programs_run_well();
}

/// So does each program whose core in lanes has no stream block and no gather, scatter or wide transfer.
pub fn laned_programs_run_well()
    ensures { (p : PlainProgram) (plan : PlainPlan) (delays : Delays) (delay : ℕ) → IsProgram p → LanedProgramRuns p plan delays delay }
{
    programs_stay_cores();
    programs_are_by_lane();
    programs_are_followed();
    programs_end_in_lanes();
    rounds_are_within_turns();
    chosen_plans_run();
}

/// So does each program, by its core in lanes where each load and each store has one lane, where that core has no stream block and
/// no gather and scatter; it ends within the limit of the core in lanes.
pub fn narrow_programs_run_well()
    ensures { (p : PlainProgram) (plan : PlainPlan) (delays : Delays) (delay : ℕ) → IsProgram p → NarrowProgramRuns p plan delays delay }
{
    programs_stay_cores();
    programs_are_by_lane();
    programs_are_followed();
    programs_end_in_lanes();
    rounds_are_within_turns();
    narrow_cores_run_alike();
    narrow_cores_stay_cores();
    narrow_cores_stay_by_lane();
    narrow_cores_go_no_oftener();
    narrow_cores_have_less_limits();
    chosen_plans_run();
}
