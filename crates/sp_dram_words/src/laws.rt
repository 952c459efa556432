//! Laws of the words of DRAMs. Each function does nothing: what it ensures is the law.

ghost use Rattle.sp_core.specs.PlainCore.{PlainCore};
ghost use Rattle.sp_dram_words.specs.Example.{WorkedDram};
ghost use Rattle.sp_dram_words.specs.Laws.{DramsAreOne, DramsEnd, DramsHold, LoadsFind};
ghost use Rattle.sp_dram_words.specs.Parts.{LoadsFindInPart, StoresWriteInWhole};
ghost use Rattle.sp_dram_words.specs.Units.{DramsRun, UnitsJoin};
ghost use Rattle.sp_machine.specs.Transfers.{Delays};
ghost use Rattle.sp_plan.specs.PlainPlan.{PlainPlan};

use sp_contents::runs_stay;

/// In a run of a netlist a DRAM has at first the words that it is given, and after each cycle what the units that store to it leave.
pub fn drams_run()
    ensures { DramsRun }
{}

/// The units of cells behind others are those of the ones and then those of the others.
pub fn units_join()
    ensures { UnitsJoin }
{}

/// What stores in time by the events of a store's own runs does so by those of the whole that write its DRAM.
pub fn stores_write_in_whole()
    ensures { StoresWriteInWhole }
{}

/// And what is read of a DRAM is found there by a load's own runs where it is by those of the whole.
pub fn loads_find_in_part()
    ensures { LoadsFindInPart }
{}

/// In the timeline of a run all that is done to a DRAM is done to one copy of it.
pub fn drams_are_one()
    ensures { (core : PlainCore) (plan : PlainPlan) (delays : Delays) → DramsAreOne core plan delays }
{
    runs_stay();
}

/// Where the units of a DRAM store in time up to a cycle, each of its words is up to the next cycle the one that stands in the timeline.
pub fn drams_hold()
    ensures { (core : PlainCore) (plan : PlainPlan) → DramsHold core plan }
{}

/// So each event that reads a word of the DRAM finds it there.
pub fn loads_find()
    ensures { (core : PlainCore) (plan : PlainPlan) → LoadsFind core plan }
{}

/// And when all that happens is over the DRAM has the words that the run leaves.
pub fn drams_end()
    ensures { (core : PlainCore) (plan : PlainPlan) (delays : Delays) → DramsEnd core plan delays }
{}

/// A worked DRAM of three words, to which two units store in three cycles.
pub fn worked_dram()
    ensures { WorkedDram }
{}
