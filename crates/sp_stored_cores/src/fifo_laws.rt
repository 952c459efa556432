//! Laws of FIFOs over the timeline of a run. Each function does nothing: what it ensures is the law.

ghost use Rattle.sp_core.specs.PlainCore.{PlainCore};
ghost use Rattle.sp_stored_cores.specs.FifoLaws.{FifosAnswer};
ghost use Rattle.sp_plan.specs.PlainPlan.{PlainPlan};

use sp_access_nets::picks_accesses_to;
use sp_memory_words::{accesses_ask, operations_stay, queues_go};

/// Where accesses and owners do what the timeline has up to a cycle, each take from a FIFO of a core without `Stream` blocks is
/// answered with its word up to the next cycle: nothing is put into a full FIFO there, nor taken from an empty one.
pub fn fifos_answer()
    ensures { (core : PlainCore) (plan : PlainPlan) → FifosAnswer core plan }
{
    accesses_ask();
    operations_stay();
    picks_accesses_to();
    queues_go();
}
