//! Laws of the plans of programs. Each function does nothing: what it ensures is the law.

ghost use Rattle.std.specs.Prelude.{ℕ};
ghost use Rattle.sp_compiled_runs.specs.Laws.{PlanIsChosen, PlannedProgramRuns};
ghost use Rattle.sp_machine.specs.Transfers.{Delays};
ghost use Rattle.sp_plan.specs.PlainPlan.{PlainPlan};
ghost use Rattle.sp_tree.specs.Invariant.{IsProgram};
ghost use Rattle.sp_tree.specs.PlainProgram.{PlainProgram};

use sp_program_runs::programs_run_well;

/// A plan that is given for a program without proper stream blocks, gathers, scatters and wide transfers is the one that is
/// chosen for its core in lanes.
pub fn plans_as_compiled_are_chosen()
    ensures { (p : PlainProgram) (plan : PlainPlan) → PlanIsChosen p plan }
{}

/// Where such a program ends, its core in lanes ends with the same words of outputs and of DRAMs, and by the plan that is given
/// for it, whatever the delays of transfers are, each moment finds in its own cycle what it finds in the order of the text, no
/// port is used twice in one cycle, and the timeline ends within the limit of the program's turns.
pub fn programs_as_compiled_run_well()
    ensures { (p : PlainProgram) (plan : PlainPlan) (delays : Delays) (delay : ℕ) → IsProgram p → PlannedProgramRuns p plan delays delay }
{
    programs_run_well();
}
