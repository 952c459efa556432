//! Laws of timelines. Each function does nothing: what it ensures is the law.

ghost use Rattle.std.specs.Prelude.{ℕ};
ghost use Rattle.sp_core.specs.PlainCore.{PlainCore, PlainNode, PlainStages};
ghost use Rattle.sp_machine.specs.Found.{AreFound};
ghost use Rattle.sp_machine.specs.InOrder.{BodiesInOrder, OneSlotPrecedes, OutersInOrder};
ghost use Rattle.sp_machine.specs.Laws.{EndsInCost, GivesCounted, HappensWithin, KeepsToCost, TellsAll, WorksInBeats};
ghost use Rattle.sp_machine.specs.Sound.{RunsInOrder};
ghost use Rattle.sp_machine.specs.Transfers.{Delays};
ghost use Rattle.sp_plan.specs.PlainPlan.{PlainPlan};

/// A timeline tells what happens in a run, all of it and nothing else, whatever the plan and the delays are.
pub fn timelines_tell_all()
    ensures { (core : PlainCore) (plan : PlainPlan) (delays : Delays) (node : PlainNode) → TellsAll core plan delays node }
{}

/// Where no transfer waits longer than a delay, a run takes no longer than it costs by the plan's numbers.
pub fn runs_keep_to_their_cost()
    ensures { (core : PlainCore) (plan : PlainPlan) (delays : Delays) (delay : ℕ) (node : PlainNode) → KeepsToCost core plan delays delay node }
{}

/// The history of a run has no more groups than its counts say.
pub fn histories_are_counted()
    ensures { (core : PlainCore) (node : PlainNode) → GivesCounted core node }
{}

/// A run of a core ends within its cost, where no transfer waits longer than a delay and the plan has a slot for each stage.
pub fn cores_end_in_their_cost()
    ensures { (core : PlainCore) (plan : PlainPlan) (delays : Delays) (delay : ℕ) → EndsInCost core plan delays delay }
{}

/// What happens in a run happens within it.
pub fn runs_happen_within()
    ensures { (core : PlainCore) (plan : PlainPlan) (delays : Delays) (node : PlainNode) → HappensWithin core plan delays node }
{}

/// In beat b a stage of slot g does all of group b - g: after the beat's first cycle, and before that of the next beat.
pub fn stages_work_in_beats()
    ensures { (core : PlainCore) (plan : PlainPlan) (delays : Delays) (stages : PlainStages) → WorksInBeats core plan delays stages }
{}

/// In an inner body an event that touches an element comes after an earlier one that changes it, and no earlier than one that
/// it changes itself, by times that are right for meets in which the body's events stand; whether or not groups overlap.
pub fn bodies_come_in_order()
    ensures { (core : PlainCore) (plan : PlainPlan) (delays : Delays) → BodiesInOrder core plan delays }
{}

/// In an outer body what happens comes in order where runs that clash come one after the other, by beats or in a chain, and
/// memories are made fresh between the groups that use one copy.
pub fn outer_bodies_come_in_order()
    ensures { (core : PlainCore) (plan : PlainPlan) (delays : Delays) → OutersInOrder core plan delays }
{}

/// What happens in a run comes in order, where the times of its inner bodies are right for meets that hold of it, its bounds
/// and slices change nothing, and in its outer bodies runs that clash come one after the other.
pub fn runs_come_in_order()
    ensures { (core : PlainCore) (plan : PlainPlan) (delays : Delays) (node : PlainNode) → RunsInOrder core plan delays node }
{}

/// Moments that are in order are found in time: each finds in its own cycle what it finds in the order of the text, each
/// cycle makes at most one change at a place, and past the last one there stands what stands after all of them.
pub fn orders_are_found_in_time()
    ensures { (core : PlainCore) → AreFound core }
{}

/// In an outer body whose stages are in one slot and one chain runs come one after the other, whatever happens in them.
pub fn one_slot_comes_in_turn()
    ensures { (core : PlainCore) (plan : PlainPlan) (delays : Delays) → OneSlotPrecedes core plan delays }
{}
