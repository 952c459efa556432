//! Laws of parts. Each function does nothing: what it ensures is the law.

ghost use Rattle.sp_core.specs.PlainCore.{PlainCore};
ghost use Rattle.sp_machine.specs.Transfers.{Delays};
ghost use Rattle.sp_tree_events.specs.PartsAgreeing.{AgreeLaws, MachinesAgree, SidesAgree, StagesAgree};
ghost use Rattle.sp_tree_events.specs.PartsExample.{WorkedAgreement};
ghost use Rattle.sp_tree_events.specs.PartsLists.{BranchTestsAgree, MachineListsAgree};
ghost use Rattle.sp_plan.specs.PlainPlan.{PlainPlan};

use crate::told::numbers_are_within;
use sp_machine::timelines_tell_all;
use sp_node_runs::{bodies_are_told, sides_are_told, stages_are_told};

/// Where what happens at a number in a whole is what happens there in a part, an access that acts in time by the part does so by the
/// whole, and what is answered in time by the whole is so by the part.
pub fn agreement()
    ensures { AgreeLaws }
{}

/// At the numbers of a side of a branch, what happens in the branch's runs is what happens in those of the side.
pub fn sides_agree()
    ensures { (core : PlainCore) (plan : PlainPlan) (delays : Delays) → SidesAgree core plan delays }
{
    numbers_are_within();
    sides_are_told();
    timelines_tell_all();
}

/// So at the numbers of the body of an FSM.
pub fn machines_agree()
    ensures { (core : PlainCore) (plan : PlainPlan) (delays : Delays) → MachinesAgree core plan delays }
{
    bodies_are_told();
    numbers_are_within();
    timelines_tell_all();
}

/// So at the numbers of a stage of an outer body.
pub fn stages_agree()
    ensures { (core : PlainCore) (plan : PlainPlan) (delays : Delays) → StagesAgree core plan delays }
{
    numbers_are_within();
    stages_are_told();
    timelines_tell_all();
}

/// At the numbers of its test, what happens in runs of a branch is what the test's operations did in the runs of the list.
pub fn branch_tests_agree()
    ensures { (core : PlainCore) (plan : PlainPlan) (delays : Delays) → BranchTestsAgree core plan delays }
{
    numbers_are_within();
    sides_are_told();
    timelines_tell_all();
}

/// So at the numbers of the start, the test and the next state of an FSM.
pub fn machine_lists_agree()
    ensures { (core : PlainCore) (plan : PlainPlan) (delays : Delays) → MachineListsAgree core plan delays }
{
    bodies_are_told();
    numbers_are_within();
    timelines_tell_all();
}

/// A worked whole and its part. It does nothing: what it ensures is the example.
pub fn worked_agreement()
    ensures { WorkedAgreement }
{}
