//! Laws of queues. A law is a function whose contract is the law, and whose body is empty.

ghost use Rattle.sp_ring.specs.Examples.{WorkedQueue};
ghost use Rattle.sp_ring.specs.Laws.{RingLaws};

/// As long as nothing is put where as many words stand as there are places, and nothing taken where there is none, both judged
/// at the beginning of a cycle, the bank holds the queue, and each word that is taken is found in the next cycle.
pub fn rings_are_queues()
    ensures { RingLaws }
{}

/// A queue into which 10, 11 and 12 are put, one a cycle, and from which one is taken as the last one is put.
pub fn worked_queue()
    ensures { WorkedQueue }
{}
