//! Worked control over a tree.

ghost use Rattle.sp_machine.specs.Examples.{always, chosen, chosen_plan};
ghost use Rattle.sp_node_runs.specs.ControlLaws.{Does};
ghost use Rattle.sp_node_runs.specs.ControlRuns.{rans};
ghost use Rattle.sp_tree_runs.specs.ControlExample.{node, over, runs, waves, whole};
ghost use Rattle.sp_tree_runs.specs.ControlTrees.{Controls};
ghost use Rattle.std.specs.Prelude.{ℕ, ◌≡◌};

use crate::control::trees_do_their_runs;

/// The signals of a branch, worked out by hand, are control over its tree; so it does its run, which takes as long as the timeline
/// says.
pub fn worked_control()
    ensures control { (last : ℕ) → Controls chosen chosen_plan (always 0) waves last node 1 0 runs whole }
    ensures lasts { rans chosen chosen_plan (always 0) node 1 0 runs ≡ over }
    ensures does { (last : ℕ) → Does waves whole over last }
{
    trees_do_their_runs();
}
