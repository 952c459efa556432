//! Laws of SRAMs and of memories of one word over the timeline of a run. Each function does nothing: what it ensures is the law.

ghost use Rattle.sp_stored_cores.specs.ArrayLaws.{ArraysAnswer, MemoriesAnswer, MemoriesHold};
ghost use Rattle.sp_stored_cores.specs.ArrayLoads.{LoadsWriteInWhole, NothingIsLoaded};
ghost use Rattle.sp_stored_cores.specs.ArrayStores.{NothingIsStored, StoresAreAnswered, StoresReadInWhole};
ghost use Rattle.sp_core.specs.PlainCore.{PlainCore};
ghost use Rattle.sp_machine.specs.Transfers.{Delays};
ghost use Rattle.sp_plan.specs.PlainPlan.{PlainPlan};

use crate::fifo_laws::fifos_answer;
use crate::scalar_laws::{scalars_answer, scalars_hold};
use sp_access_nets::picks_accesses_to;
use sp_bank_runs::runs_hold_words;
use sp_bank_words::operations_go;
use sp_memory_words::operations_stay;

/// What writes in time by the events of a load's own runs does so by those of the whole that write its memory.
pub fn loads_write_in_whole()
    ensures { LoadsWriteInWhole }
{}

/// A core without transfers has no writes of loads.
pub fn nothing_is_loaded()
    ensures { (core : PlainCore) → NothingIsLoaded core }
{}

/// What reads in time by the events of a store's own runs does so by those of the whole that read its memory.
pub fn stores_read_in_whole()
    ensures { StoresReadInWhole }
{}

/// What is answered by the events of the whole that read a store's memory is answered by those of the store's own runs.
pub fn stores_are_answered()
    ensures { StoresAreAnswered }
{}

/// A core without transfers has no reads of stores.
pub fn nothing_is_stored()
    ensures { (core : PlainCore) → NothingIsStored core }
{}

/// In a run that goes well, where accesses, the writes of loads, the reads of stores and owners do what the timeline has up to a cycle,
/// each read of an SRAM is answered with its word up to the next cycle.
pub fn arrays_answer()
    ensures { (core : PlainCore) (plan : PlainPlan) (delays : Delays) → ArraysAnswer core plan delays }
{
    operations_go();
    operations_stay();
    picks_accesses_to();
    runs_hold_words();
}

/// So is each read of a core whose memories are registers, arguments, outputs, SRAMs and FIFOs, and each take from a FIFO, where the
/// core has no `Stream` block.
pub fn memories_answer()
    ensures { (core : PlainCore) (plan : PlainPlan) (delays : Delays) → MemoriesAnswer core plan delays }
{
    arrays_answer();
    fifos_answer();
    scalars_answer();
}

/// And the net of a register or an output has, up to the next cycle, the word that stands there.
pub fn memories_hold()
    ensures { (core : PlainCore) (plan : PlainPlan) → MemoriesHold core plan }
{
    scalars_hold();
}
