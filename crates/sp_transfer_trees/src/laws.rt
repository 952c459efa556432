//! Laws of the transfers of a tree. Each function does nothing: what it ensures is the law.

ghost use Rattle.std.specs.Prelude.{ℕ, List};
ghost use Rattle.sp_netlist.specs.Signals.{Setting, Signals};
ghost use Rattle.sp_core.specs.PlainCore.{PlainCore};
ghost use Rattle.sp_plan.specs.PlainPlan.{PlainPlan};
ghost use Rattle.sp_machine.specs.Stamps.{Stamped};
ghost use Rattle.sp_machine.specs.Transfers.{Delays};
ghost use Rattle.sp_transfer_trees.specs.Agreeing.{AgreeingLaws, TransfersAgree};
ghost use Rattle.sp_transfer_trees.specs.Given.{Laws};
ghost use Rattle.sp_transfer_trees.specs.Trees.{TreesTransfer, GoingIsMoving, CoresTransfer};

use sp_node_runs::{bodies_come_in_turn, parts_fit, sides_come_in_turn, stages_come_in_turn};
use sp_transfer_runs::{delays_are_there, loads_move, stores_move, transfers_move_all};
use sp_tree_events::{agreement, machines_agree, sides_agree, stages_agree};
use sp_tree_runs::parts_are_done;

/// The laws below that an induction over a tree asks for, together.
fn laws_below()
    ensures { (core : PlainCore) (plan : PlainPlan) (delays : Delays) → Laws core plan delays }
{
    sides_come_in_turn();
    bodies_come_in_turn();
    stages_come_in_turn();
    parts_fit();
    parts_are_done();
    transfers_move_all();
    loads_move();
    stores_move();
}

/// Each load and each store of a tree goes as the timeline says, where it is started and the nets of its slice stand, by the equations of its circuit
/// and of its channel: in runs whose transfers moved all words and took the delays of their channels.
pub fn trees_transfer()
    ensures { (core : PlainCore) (plan : PlainPlan) (delays : Delays) (g : Setting) (s : Signals) (bound : ℕ) (last : ℕ) (took : ℕ → ℕ → ℕ) → TreesTransfer core plan delays g s bound last took }
{
    laws_below();
}

/// A transfer that goes so is done where its runs are over, as the circuit of a tree asks of its transfers.
pub fn going_is_moving()
    ensures { (core : PlainCore) (plan : PlainPlan) (delays : Delays) (g : Setting) (s : Signals) (bound : ℕ) (last : ℕ) (took : ℕ → ℕ → ℕ) → GoingIsMoving core plan delays g s bound last took }
{}

/// In a run of a core each of its transfers goes so, in the timeline by the delays that are chosen by what its channels took.
pub fn cores_transfer()
    ensures { (core : PlainCore) (plan : PlainPlan) → CoresTransfer core plan }
{
    laws_below();
    delays_are_there();
}

/// The laws below by which what happens in runs of a part is what happens in the whole, together.
fn agreeing_laws()
    ensures { (core : PlainCore) (plan : PlainPlan) (delays : Delays) → AgreeingLaws core plan delays }
{
    agreement();
    sides_agree();
    machines_agree();
    stages_agree();
    parts_are_done();
}

/// At the number of each transfer of a node, what happens in the transfer's own runs is what happens in a whole, where so it is at all
/// numbers of the node.
pub fn transfers_agree()
    ensures { (core : PlainCore) (plan : PlainPlan) (delays : Delays) (whole : List Stamped) → TransfersAgree core plan delays whole }
{
    agreeing_laws();
}
