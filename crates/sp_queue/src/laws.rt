//! Laws of queues. A law is a function whose contract is the law, and whose body is empty.

ghost use Rattle.sp_queue.specs.Laws.{QueueLaws};

/// As long as nothing is put into a full copy and nothing taken from an empty one, each take has the first word of its copy, two
/// cycles later.
pub fn queues_give_first_words()
    ensures { QueueLaws }
{}
