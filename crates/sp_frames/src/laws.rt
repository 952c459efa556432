//! Laws of frames. The functions do nothing: what they ensure are the laws.

ghost use Rattle.sp_frames.specs.Laws.{FramesEnd, FramesRight, PortLaws, TapsShareNone};

use sp_netlist::one_ending;

/// The ports of a core are named, those of its memories have no dimensions, and those of its DRAMs have one to three; nets that stand
/// for ports go on to; gates stand inside of a frame, and so do banks with their taps, and units; behind arguments, DRAMs and these there is no
/// output and no end, and where these are added the cells stand in a frame; no unit stores but those that are added as such; a run of the
/// whole runs on what stands before the outputs; and in each run the net of an argument has its word.
pub fn port_laws()
    ensures { PortLaws }
{}

/// A frame declares its ports, it is over where its end's net is 1, its outputs are their nets' words, the lists of its DRAMs are the words
/// that these hold, and each DRAM has its cell.
pub fn frame_laws()
    ensures { FramesRight }
{}

/// Behind banks that stand there are gates, outputs and the end: where no two taps of any of these banks meet, none of all taps do.
pub fn taps_share_none()
    ensures { TapsShareNone }
{}

/// Where the end's net is 1 in a cycle and in none before, and no two taps meet up to it, the netlist is done in that cycle with the
/// words of its outputs' nets and those that its DRAMs have then.
pub fn frames_end()
    ensures { FramesEnd }
{
    one_ending();
}
