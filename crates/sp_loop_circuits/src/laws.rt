//! Laws of closed loops. The functions do nothing: what they ensure are the laws.

ghost use Rattle.sp_loop_circuits.specs.Laws.{ClosedLoopsAreCircuits, MasksInRowsStand, LoopsFit, NetsAreApart, PartsOfLoopsFit};

use sp_loop_nets::rows_take_words;
use sp_stage_members::{members_are_circuits, stages_have_lanes};

/// A loop that is closed round its stages has its circuit.
pub fn closed_loops_are_circuits()
    ensures { ClosedLoopsAreCircuits }
{
    members_are_circuits();
    rows_take_words();
}

/// The nets for the lanes stand, where the counters' do and rows are to be driven.
pub fn masks_stand()
    ensures { MasksInRowsStand }
{}

/// A loop's step, the nets of its rows and the starts of its stages are different nets, if they were reserved in this order.
pub fn nets_are_apart()
    ensures { NetsAreApart }
{}

/// The parts of a loop of a core fit, where its rows are to be driven.
pub fn parts_of_loops_fit()
    ensures { PartsOfLoopsFit }
{
    stages_have_lanes();
}

/// A loop of a core can be closed behind its parts, where its step, the nets of its rows and the starts of its parts were reserved
/// in this order.
pub fn loops_fit()
    ensures { LoopsFit }
{
    stages_have_lanes();
}
