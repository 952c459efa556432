//! Laws that lead from stores and loads, each by its own runs, to DRAMs. Each function does nothing: what it ensures is the law.

ghost use Rattle.sp_core.specs.PlainCore.{PlainCore};
ghost use Rattle.sp_dram_words.specs.Stores.{LoadsFindOwn, StoresAreInTime};
ghost use Rattle.sp_machine.specs.Transfers.{Delays};
ghost use Rattle.sp_plan.specs.PlainPlan.{PlainPlan};

use crate::laws::{loads_find_in_part, stores_write_in_whole};
use crate::moves::{transfers_act, transfers_move_drams};

/// Where each store to a DRAM has a unit that stores in time by the events of the store's own runs, these units store to it in time.
pub fn stores_are_in_time()
    ensures { (core : PlainCore) (plan : PlainPlan) (delays : Delays) → StoresAreInTime core plan delays }
{
    stores_write_in_whole();
    transfers_act();
    transfers_move_drams();
}

/// What the reads of a DRAM find in the timeline of a run those of a load's own runs find.
pub fn loads_find_own()
    ensures { (core : PlainCore) (plan : PlainPlan) (delays : Delays) → LoadsFindOwn core plan delays }
{
    loads_find_in_part();
    transfers_act();
}
