//! Laws of programs and the netlists of their cores. Each function does nothing: what it ensures is the law.
ghost use Rattle.sp_build.specs.Laws.{BuildableCanBeLowered, CoresCarryPrograms, CoresKeepCosts, InnerBlocksCanBeBuilt};
ghost use Rattle.sp_plan.specs.PlainPlan.{PlainPlan};
ghost use Rattle.sp_tree.specs.Invariant.{IsProgram};
ghost use Rattle.sp_tree.specs.PlainProgram.{PlainProgram};

use sp_lane_cores::programs_stay_cores;
use sp_lane_programs::programs_are_by_lane;
use sp_machine::cores_end_in_their_cost;
use sp_memory_nets::valid_plans_have_arrays;
use sp_narrow::{narrow_cores_stay_by_lane, narrow_cores_stay_cores};
use sp_plans::chosen_plans_are_valid;
use sp_program_runs::narrow_programs_run_well;
use sp_tree::turns_decide;

/// The core that is built of a program can be lowered by the plan that is chosen for it, where it is buildable.
pub fn buildable_cores_can_be_lowered()
    ensures { (p : PlainProgram) (plan : PlainPlan) → IsProgram p → BuildableCanBeLowered p plan }
{
    chosen_plans_are_valid();
    programs_are_by_lane();
    programs_stay_cores();
    narrow_cores_stay_by_lane();
    narrow_cores_stay_cores();
    valid_plans_have_arrays();
}

/// A netlist that carries that core carries the program: where the program ends, that core has a run with the program's
/// words, which the plan brings to its end in time and within the limit.
pub fn cores_carry_programs()
    ensures { (p : PlainProgram) (plan : PlainPlan) → IsProgram p → CoresCarryPrograms p plan }
{
    chosen_plans_are_valid();
    narrow_programs_run_well();
    programs_are_by_lane();
    programs_stay_cores();
    narrow_cores_stay_by_lane();
    narrow_cores_stay_cores();
    turns_decide();
}

/// And it is done within the cost of each run of that core, by the numbers of the plan.
pub fn cores_keep_costs()
    ensures { (p : PlainProgram) (plan : PlainPlan) → IsProgram p → CoresKeepCosts p plan }
{
    chosen_plans_are_valid();
    cores_end_in_their_cost();
    programs_are_by_lane();
    programs_stay_cores();
    narrow_cores_stay_by_lane();
    narrow_cores_stay_cores();
}

/// A program whose block is one inner body, without controllers and transfers, over registers, arguments, outputs, SRAMs and FIFOs,
/// with any DRAMs, can be built.
pub fn inner_blocks_can_be_built()
    ensures { (p : PlainProgram) → IsProgram p → InnerBlocksCanBeBuilt p }
{}
