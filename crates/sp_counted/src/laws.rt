//! A law of inner bodies under counters. The function calls the law of bodies: what it ensures is the law.

ghost use Rattle.sp_counted.specs.Laws.{CountedBodiesRunInTime};

use sp_pipe::bodies_run_in_time;

/// The equations of counters and of a body that drives their step, together: each group of the loop is issued in its cycle,
/// with the words and the masks of that group, and the body is done so many cycles after the last one.
pub fn counted_bodies_run_in_time()
    ensures { CountedBodiesRunInTime }
{
    bodies_run_in_time();
}
