//! Laws of memories over the timeline of a run. Each function does nothing: what it ensures is the law.

ghost use Rattle.sp_core.specs.PlainCore.{PlainCore};
ghost use Rattle.sp_machine.specs.Transfers.{Delays};
ghost use Rattle.sp_memory_words.specs.Accesses.{AccessesAsk, OperationsStay};
ghost use Rattle.sp_memory_words.specs.Example.{WorkedWords};
ghost use Rattle.sp_memory_words.specs.Queues.{QueuesGo};
ghost use Rattle.sp_memory_words.specs.Registers.{ArgumentsAnswer, ContentsBegin, RegistersAnswer, RegistersHold};
ghost use Rattle.sp_memory_words.specs.Runs.{RunsHappenWell};
ghost use Rattle.sp_plan.specs.PlainPlan.{PlainPlan};
ghost use Rattle.sp_words.specs.Ports.{PlainInput};

use sp_contents::{runs_are_allowed, runs_are_inside};
use sp_core_ports::runs_have_copies;
use sp_machine::timelines_tell_all;
use sp_queue::queues_give_first_words;
use sp_tree_events::{numbers_stand_for_one, timelines_are_of_items, transfers_move};

/// Where a register's circuit is asked, up to a cycle, what happens to the register in a timeline, each of its copies has up to the
/// cycle after the word that stands there.
pub fn registers_hold()
    ensures { (core : PlainCore) (plan : PlainPlan) → RegistersHold core plan }
{}

/// So each read of the register is answered with its word, up to the cycle after.
pub fn registers_answer()
    ensures { (core : PlainCore) (plan : PlainPlan) → RegistersAnswer core plan }
{}

/// A net that has the word of an argument in each cycle answers each read of it.
pub fn arguments_answer()
    ensures { (core : PlainCore) (plan : PlainPlan) → ArgumentsAnswer core plan }
{}

/// Contents to begin with: a register has no word yet, an argument has that of the input, and an output has 0.
pub fn contents_begin()
    ensures { (core : PlainCore) (input : PlainInput) → ContentsBegin core input }
{}

/// Where a queue's circuit is asked, up to a cycle, what happens to the FIFO in a timeline, each of its copies is the queue that
/// stands there, nothing is put into a full copy nor taken from an empty one, and each take is answered with its word.
pub fn queues_go()
    ensures { (core : PlainCore) (plan : PlainPlan) → QueuesGo core plan }
{
    queues_give_first_words();
}

/// The events of an operation's number are at its memory, with acts of its kind.
pub fn operations_stay()
    ensures { (core : PlainCore) (plan : PlainPlan) → OperationsStay core plan }
{
    numbers_stand_for_one();
}

/// A circuit that has an access for each operation on a memory, each of which acts in time at the copies of its events, with what
/// FSMs and owners do there, is asked what happens to the memory.
pub fn accesses_ask()
    ensures { (core : PlainCore) (plan : PlainPlan) → AccessesAsk core plan }
{
    numbers_stand_for_one();
    transfers_move();
}

/// What happens in a run of a core by a valid plan is found in time, is allowed, is at copies that the plan has, and is of the
/// operations and transfers of its numbers.
pub fn runs_happen_well()
    ensures { (core : PlainCore) (plan : PlainPlan) (delays : Delays) → RunsHappenWell core plan delays }
{
    runs_are_allowed();
    runs_are_inside();
    runs_have_copies();
    timelines_are_of_items();
    timelines_tell_all();
}

/// A worked output that is written once, and a worked queue. It does nothing: what it ensures is the example.
pub fn worked_words()
    ensures { WorkedWords }
{}
