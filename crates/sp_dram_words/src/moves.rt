//! Laws of what loads and stores do in a run, by their numbers. Each function does nothing: what it ensures is the law.

ghost use Rattle.sp_core.specs.PlainCore.{PlainCore, PlainNode};
ghost use Rattle.sp_dram_words.specs.Moves.{MovesAreItems, TimelinesAreActed, TransfersAct, TransfersMoveDrams};
ghost use Rattle.sp_machine.specs.Transfers.{Delays};
ghost use Rattle.sp_plan.specs.PlainPlan.{PlainPlan};

use sp_machine::timelines_tell_all;
use sp_tree_events::{numbers_stand_for_one, transfers_move};

/// A load or a store is the transfer at its number, and the only one.
pub fn moves_are_items()
    ensures { (node : PlainNode) → MovesAreItems node }
{}

/// Each event of a run's timeline is of an operation, at its memory, or of a load or a store, which does what such a transfer does.
pub fn timelines_are_acted()
    ensures { (core : PlainCore) (plan : PlainPlan) (delays : Delays) → TimelinesAreActed core plan delays }
{
    timelines_tell_all();
}

/// All that is read at a load's number is read of its DRAM, and all that is written is written to its memory; at a store's number all
/// that is read is read of its memory, and all that is written is written to its DRAM.
pub fn transfers_act()
    ensures { (core : PlainCore) (plan : PlainPlan) (delays : Delays) → TransfersAct core plan delays }
{
    numbers_stand_for_one();
    timelines_are_acted();
}

/// In a core that keeps the rules what is written to a DRAM is written by a store to it, and what is read of it is read by a load.
pub fn transfers_move_drams()
    ensures { (core : PlainCore) (plan : PlainPlan) (delays : Delays) → TransfersMoveDrams core plan delays }
{
    timelines_are_acted();
    transfers_move();
}
