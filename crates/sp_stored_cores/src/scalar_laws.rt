//! Laws of memories of one word over the timeline of a run. Each function does nothing: what it ensures is the law.

ghost use Rattle.sp_core.specs.PlainCore.{PlainCore};
ghost use Rattle.sp_plan.specs.PlainPlan.{PlainPlan};
ghost use Rattle.sp_stored_cores.specs.ScalarInTime.{OutputsAreLeft, RegistersAreAsked, ScalarsAnswer, ScalarsHold};

use sp_access_nets::picks_accesses_to;
use sp_memory_words::{
    accesses_ask, arguments_answer, contents_begin, operations_stay, registers_answer,
    registers_hold,
};

/// Where accesses and owners do what a timeline has, up to a cycle, the circuit of a register or an output is asked what happens
/// to it.
pub fn registers_are_asked()
    ensures { (core : PlainCore) (plan : PlainPlan) → RegistersAreAsked core plan }
{
    picks_accesses_to();
    accesses_ask();
    contents_begin();
}

/// So the net of a register or an output has, up to the cycle after, the word that stands there.
pub fn scalars_hold()
    ensures { (core : PlainCore) (plan : PlainPlan) → ScalarsHold core plan }
{
    registers_are_asked();
    registers_hold();
}

/// After all that happens the net of an output has the word that is left.
pub fn outputs_are_left()
    ensures { (core : PlainCore) (plan : PlainPlan) → OutputsAreLeft core plan }
{
    scalars_hold();
}

/// So each read is answered with its word, up to the cycle after: of a register or an output a cycle later, of an argument
/// whenever it is to be, but for cycle 0.
pub fn scalars_answer()
    ensures { (core : PlainCore) (plan : PlainPlan) → ScalarsAnswer core plan }
{
    registers_are_asked();
    registers_answer();
    arguments_answer();
    contents_begin();
    operations_stay();
}
