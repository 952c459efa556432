//! Laws of the accesses of a core's tree. Each function does nothing: what it ensures is the law.

ghost use Rattle.sp_core.specs.PlainCore.{PlainCore};
ghost use Rattle.sp_machine.specs.Transfers.{Delays};
ghost use Rattle.sp_plan.specs.PlainPlan.{PlainPlan};
ghost use Rattle.sp_tree_accesses.specs.Laws.{AccessesAct, AccessesAreOfCore, AnswersAreOfReads, OperationsHaveAccesses, ScalarsAreRead, TreesAreAnswered};

use sp_access_nets::{each_has_access, each_is_of_operation, rules_name_memories};

/// Each access is of an operation of the core, which its memory allows, and names the net of its memory's copy.
pub fn accesses_are_of_core()
    ensures { (core : PlainCore) → AccessesAreOfCore core }
{
    each_is_of_operation();
    rules_name_memories();
}

/// Each access that has an answer reads a word, or takes one.
pub fn answers_are_of_reads()
    ensures { (core : PlainCore) → AnswersAreOfReads core }
{
    each_is_of_operation();
    rules_name_memories();
}

/// Each access that has an answer, of a memory that isn't a FIFO, is a read.
pub fn scalars_are_read()
    ensures { (core : PlainCore) → ScalarsAreRead core }
{
    answers_are_of_reads();
    accesses_are_of_core();
}

/// Where the circuit of a core's tree goes by the timeline, each access that changes its memory, or takes a word from it, acts in time,
/// and so does each read of an SRAM or a line buffer.
pub fn accesses_act()
    ensures { (core : PlainCore) (plan : PlainPlan) (delays : Delays) → AccessesAct core plan delays }
{
    each_is_of_operation();
    rules_name_memories();
}

/// Each operation of the core on a memory has an access.
pub fn operations_have_accesses()
    ensures { (core : PlainCore) → OperationsHaveAccesses core }
{
    each_has_access();
    rules_name_memories();
}

/// Where each access is answered with the words of its operation's events, the tree's circuit is answered in time.
pub fn trees_are_answered()
    ensures { (core : PlainCore) (plan : PlainPlan) → TreesAreAnswered core plan }
{
    each_has_access();
    rules_name_memories();
}
