//! Laws of the nets of owners. Each function does nothing: what it ensures is the law.

ghost use Rattle.sp_core.specs.PlainCore.{PlainCore};
ghost use Rattle.sp_machine.specs.Transfers.{Delays};
ghost use Rattle.sp_owner_runs.specs.Acting.{CoresOwn, TreesOwn};
ghost use Rattle.sp_owner_runs.specs.Example.{WorkedNets};
ghost use Rattle.sp_owner_runs.specs.Given.{Laws};
ghost use Rattle.sp_owner_runs.specs.Naming.{CoresNameCopies, CoresNameLoads, CoresNameStores, PlansHaveNumbers, TreesNameCopies};
ghost use Rattle.sp_plan.specs.PlainPlan.{PlainPlan};

use crate::deeds::owners_do;
use sp_core_ports::plans_have_copies;
use sp_machine::timelines_tell_all;
use sp_node_runs::{
    bodies_come_in_turn, parts_fit, sides_come_in_turn, stages_are_told, stages_come_in_turn,
    stages_take_time,
};
use sp_tree_events::{
    bodies_own, branch_tests_agree, inners_name_copies, lists_name_copies, loads_name_copies,
    loops_renew, machine_lists_agree, machines_agree, machines_keep, numbers_are_within,
    numbers_stand, numbers_stand_for_one, runs_own, sides_agree, sides_own, stages_agree,
    stages_own, stores_name_copies,
};
use sp_tree_runs::parts_are_done;

/// The laws of the crates below, together.
fn laws_below()
    ensures { (core : PlainCore) (plan : PlainPlan) (delays : Delays) → Laws core plan delays }
{
    timelines_tell_all();
    owners_do();
    sides_come_in_turn();
    bodies_come_in_turn();
    stages_come_in_turn();
    parts_fit();
    stages_take_time();
    parts_are_done();
    runs_own();
    sides_own();
    bodies_own();
    stages_own();
    loops_renew();
    machines_keep();
    numbers_stand();
    numbers_are_within();
    stages_are_told();
    sides_agree();
    machines_agree();
    stages_agree();
    branch_tests_agree();
    machine_lists_agree();
    inners_name_copies();
    lists_name_copies();
    loads_name_copies();
    stores_name_copies();
    numbers_stand_for_one();
}

/// Where the circuit of a node goes as the timeline says up to a cycle, and up to the cycle after it the numbers of copies around the
/// node stand, the nets that its operations and transfers have name the copies of their events.
pub fn trees_name_copies()
    ensures { (core : PlainCore) (plan : PlainPlan) (delays : Delays) → TreesNameCopies core plan delays }
{
    laws_below();
}

/// So do those of the operations of a core's circuit, over the run of the whole core.
pub fn cores_name_copies()
    ensures { (core : PlainCore) (plan : PlainPlan) (delays : Delays) → CoresNameCopies core plan delays }
{
    laws_below();
    trees_name_copies();
}

/// And those of its loads name the copies that they write, among the events that write their memories.
pub fn cores_name_loads()
    ensures { (core : PlainCore) (plan : PlainPlan) (delays : Delays) → CoresNameLoads core plan delays }
{
    laws_below();
    trees_name_copies();
}

/// And those of its stores name the copies that they read, among the events that read their memories.
pub fn cores_name_stores()
    ensures { (core : PlainCore) (plan : PlainPlan) (delays : Delays) → CoresNameStores core plan delays }
{
    laws_below();
    trees_name_copies();
}

/// A valid plan has what these ask of it: each memory has a copy, and the times of loop bodies are kept.
pub fn plans_have_numbers()
    ensures { (core : PlainCore) (plan : PlainPlan) → PlansHaveNumbers core plan }
{
    plans_have_copies();
}

/// Where the circuit of a node goes as the timeline says up to a cycle, and the numbers of copies around it stand, the nets of its owners
/// tell where memories are made fresh and states are kept, in which copies and with which words, and nothing else does.
pub fn trees_own()
    ensures { (core : PlainCore) (plan : PlainPlan) (delays : Delays) → TreesOwn core plan delays }
{
    laws_below();
}

/// So do those of a core's circuit, over the run of the whole core.
pub fn cores_own()
    ensures { (core : PlainCore) (plan : PlainPlan) (delays : Delays) → CoresOwn core plan delays }
{
    trees_own();
}

/// What worked nets of owners do. It does nothing: what it ensures is the example.
pub fn worked_nets()
    ensures { WorkedNets }
{}
