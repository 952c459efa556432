//! The circuit of a core of registers, arguments, outputs, SRAMs and FIFOs goes along with its timeline. Each function does nothing: what it
//! ensures is the law.

ghost use Rattle.sp_core.specs.PlainCore.{PlainCore};
ghost use Rattle.sp_plan.specs.PlainPlan.{PlainPlan};
ghost use Rattle.sp_stored_cores.specs.Closing.{StoredCoresGo};

use crate::array_laws::{
    loads_write_in_whole, memories_answer, memories_hold, stores_are_answered, stores_read_in_whole,
};
use crate::quiet::{core_events_are_timed, nothing_begins_at_once, runs_take_time};
use sp_bank_runs::valid_plans_go_well;
use sp_dram_words::{
    drams_are_one, drams_end, loads_find, loads_find_own, moves_are_items, stores_are_in_time,
    timelines_are_acted, transfers_act,
};
use sp_fitting::runs_fit;
use sp_machine::runs_happen_within;
use sp_memory_words::runs_happen_well;
use sp_owner_runs::{
    cores_name_copies, cores_name_loads, cores_name_stores, cores_own, plans_have_numbers,
};
use sp_transfer_runs::transfers_move_all;
use sp_transfer_trees::{cores_transfer, going_is_moving, transfers_agree};
use sp_tree_accesses::{accesses_act, operations_have_accesses, trees_are_answered};
use sp_tree_circuits::circles_close;
use sp_tree_events::{numbers_stand_for_one, transfers_move};
use sp_tree_runs::runs_are_done;

/// In each run of a core all of whose memories are registers, arguments, outputs, SRAMs and FIFOs its circuit is done in the last cycle of
/// the run, and its outputs and DRAMs then have the words that the run leaves: the circle from what is read to what is written, on the chip
/// and outside, is closed cycle by cycle.
pub fn stored_cores_go()
    ensures { (core : PlainCore) (plan : PlainPlan) → StoredCoresGo core plan }
{
    accesses_act();
    circles_close();
    core_events_are_timed();
    cores_name_copies();
    cores_name_loads();
    cores_name_stores();
    cores_own();
    cores_transfer();
    drams_are_one();
    drams_end();
    going_is_moving();
    loads_find();
    loads_find_own();
    loads_write_in_whole();
    memories_answer();
    memories_hold();
    moves_are_items();
    nothing_begins_at_once();
    numbers_stand_for_one();
    operations_have_accesses();
    plans_have_numbers();
    runs_are_done();
    runs_fit();
    runs_happen_well();
    runs_happen_within();
    runs_take_time();
    stores_are_answered();
    stores_are_in_time();
    stores_read_in_whole();
    timelines_are_acted();
    transfers_act();
    transfers_agree();
    transfers_move();
    transfers_move_all();
    trees_are_answered();
    valid_plans_go_well();
}
