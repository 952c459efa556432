//! Laws of memories in banks in the cycles of a timeline. A law is a function whose contract is the law, and which does nothing but
//! call the laws that it uses.

ghost use Rattle.sp_bank_words.specs.Buffers.{LinesHoldWords};
ghost use Rattle.sp_bank_words.specs.Layouts.{PlansHaveLayouts};
ghost use Rattle.sp_bank_words.specs.Numbers.{TimelinesAreByAccesses};
ghost use Rattle.sp_bank_words.specs.Laws.{AccessesAreServed, MemoriesHoldWords, OperationsGo};
ghost use Rattle.sp_core.specs.Forms.{PlainForms};
ghost use Rattle.sp_core.specs.PlainCore.{PlainCore};
ghost use Rattle.sp_machine.specs.Stamps.{Stamped};
ghost use Rattle.sp_machine.specs.Transfers.{Delays};
ghost use Rattle.sp_mem.specs.declared.part.Touch.{Touch};
ghost use Rattle.sp_netlist.specs.Signals.{Signals};
ghost use Rattle.sp_plan.specs.PlainPlan.{PlainPlan};
ghost use Rattle.std.specs.Prelude.{List, ℕ};

use sp_banked::memories_are_arrays;
use sp_contents::{runs_are_allowed, runs_are_inside};
use sp_lines::lines_are_buffers;
use sp_touched::runs_touch;

/// By a valid plan the layouts of memories can be emitted; an SRAM has the banks of the ports that a run uses, and no two elements
/// of it stand at one place of one bank.
pub fn plans_have_layouts()
    ensures { (core : PlainCore) (plan : PlainPlan) → PlansHaveLayouts core plan }
{}

/// Accesses of operations that act at the events of a timeline are such of their memory's circuit, and what it answers they are
/// answered.
pub fn operations_go()
    ensures { (core : PlainCore) (plan : PlainPlan) (s : Signals) (events : List Stamped) (m last number : ℕ) (touch : Touch) → OperationsGo core plan s events m last number touch }
{}

/// Where no port of a bank is used twice in one cycle, the accesses of an SRAM's circuit that act at the events of a timeline are
/// served.
pub fn accesses_are_served()
    ensures { (core : PlainCore) (plan : PlainPlan) (forms : PlainForms) → AccessesAreServed core plan forms }
{}

/// Where the accesses of an SRAM's circuit act in time up to a cycle, its copies hold the words of the timeline up to the next
/// one, and each read up to that cycle is answered two cycles later.
pub fn memories_hold_words()
    ensures { (core : PlainCore) (plan : PlainPlan) (forms : PlainForms) → MemoriesHoldWords core plan forms }
{
    memories_are_arrays();
}

/// So do the rows of a line buffer, whose loads and turns act in time.
pub fn lines_hold_words()
    ensures { (core : PlainCore) (plan : PlainPlan) (forms : PlainForms) → LinesHoldWords core plan forms }
{
    lines_are_buffers();
}

/// In the timeline of a run all that is done to a memory in banks is done by accesses of the core that touch it, and all that
/// changes it by those that change it.
pub fn timelines_are_by_accesses()
    ensures { (core : PlainCore) (plan : PlainPlan) (delays : Delays) → TimelinesAreByAccesses core plan delays }
{
    runs_touch();
    runs_are_inside();
    runs_are_allowed();
}
