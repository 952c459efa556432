//! Laws of finest slots and chains. Each function does nothing: what it ensures is the law.

ghost use Rattle.std.specs.Prelude.{ℕ, ◌&&◌, IsTrue, List};
ghost use Rattle.sp_core.specs.declared.access.Meet.{Meet};
ghost use Rattle.sp_core.specs.Invariant.{IsCore};
ghost use Rattle.sp_core.specs.PlainCore.{PlainCore, PlainCounter};
ghost use Rattle.sp_plan.specs.PlainPlan.{PlainNodePlan};
ghost use Rattle.sp_plan.specs.Slots.{StageRun, are_slots_right, are_held, are_chains_right};
ghost use Rattle.sp_stages.specs.Chains.{chains_of};
ghost use Rattle.sp_stages.specs.Divided.{slots_of, runs_of_node};
ghost use Rattle.sp_stages.specs.Finest.{are_in_place, AreFinestSlots, AreFinestChains};
ghost use Rattle.sp_stages.specs.Plans.{is_outer_of, IsFinestPlan, IsRightPlan};
ghost use Rattle.sp_words.specs.declared.kind.Style.{Style};

/// The slots that begin after each stage that isn't joined with the next one are the finest: they may be those of a plan,
/// and no others that may be are greater anywhere.
pub fn divided_slots_are_finest()
    ensures { (core : PlainCore) (meets : List Meet) (counters : List PlainCounter) (style : Style) (owned : List ℕ) (runs : List StageRun)
        → IsTrue (are_in_place runs) → AreFinestSlots core meets counters style owned runs (slots_of core meets counters style owned runs) }
{}

/// The stages of each outer body of a core stand in their lanes.
pub fn stages_are_in_place()
    ensures { (core : PlainCore) → IsCore core → (node : ℕ) → IsTrue (are_in_place (runs_of_node core node)) }
{}

/// The finest slots keep the rules of slots of a valid plan, whatever its chains are.
pub fn finest_slots_are_right()
    ensures { (core : PlainCore) (meets : List Meet) (counters : List PlainCounter) (style : Style) (owned : List ℕ) (runs : List StageRun) (slots chains : List ℕ)
        → AreFinestSlots core meets counters style owned runs slots → IsTrue (are_slots_right runs slots chains counters style && are_held runs slots chains core owned counters meets) }
{}

/// The chains by leaders are the finest, whatever the slots are: they may be those of a plan with these slots, runs that
/// are in one chain are so in all chains that may be, and the chains of a slot are numbered from 0 by their first runs.
pub fn chains_by_leaders_are_finest()
    ensures { (core : PlainCore) (meets : List Meet) (counters : List PlainCounter) (style : Style) (owned : List ℕ) (runs : List StageRun) (slots : List ℕ)
        → AreFinestChains core meets counters style owned runs slots (chains_of core meets counters style runs slots) }
{}

/// The finest chains keep the rule of chains of a valid plan with these slots.
pub fn finest_chains_are_right()
    ensures { (core : PlainCore) (meets : List Meet) (counters : List PlainCounter) (style : Style) (owned : List ℕ) (runs : List StageRun) (slots chains : List ℕ)
        → AreFinestChains core meets counters style owned runs slots chains → IsTrue (are_chains_right runs slots chains core counters style meets) }
{}

/// The finest plan of an outer body keeps the rules of a valid plan on kinds, slots and chains, whatever is planned beside it.
pub fn finest_plans_are_right()
    ensures { (core : PlainCore) (meets : List Meet) (node : ℕ) → IsTrue (is_outer_of core node) → (plan : PlainNodePlan) → IsFinestPlan core meets node plan → IsRightPlan core meets node plan }
{}
