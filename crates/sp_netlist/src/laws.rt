//! Laws of netlists. Each is the contract of a function that does nothing, so that what stands on it
//! can cite it.

ghost use Rattle.sp_netlist.specs.Laws.{HasOneRun, HasOneEnding, EndingKept, NoLoop, RefusalsExact};
ghost use Rattle.sp_netlist.specs.PartExamples.{PartExamples};
ghost use Rattle.sp_netlist.specs.Channels.{ChannelServes};
ghost use Rattle.sp_netlist.specs.Parts.{Locality};
ghost use Rattle.sp_netlist.specs.Quiet.{HasQuietRun};
ghost use Rattle.sp_netlist.specs.DraftLaws.{DraftLaws};
ghost use Rattle.sp_netlist.specs.Examples.{ExampleEndings};

/// Every netlist has exactly one run for each list of arguments, contents of its DRAMs and list of
/// delays: words are compared on the nets that are driven and on what is kept. A run is a family of
/// signals over time in which each cell's own equation holds in every cycle. So along the run each
/// kept net, bank word, DRAM word and channel follows its cell's equation, and whatever obeys all of
/// the equations is the run.
pub fn one_run()
    ensures { HasOneRun }
{}

/// Every netlist has a run in which each net that no cell drives, each bank, DRAM and channel that no cell
/// declares is 0 or idle. So what its cells drive and keep is all that there is of that run.
pub fn quiet_run()
    ensures { HasQuietRun }
{}

/// Within the cycles 0 to any last one every netlist ends in exactly one way: done in a cycle with
/// its outputs, at a conflict in a cycle, or not yet.
pub fn one_ending()
    ensures { HasOneEnding }
{}

/// A run that is done in a cycle, or has a conflict there, ends so for every last cycle from that
/// one on.
pub fn ending_kept()
    ensures { EndingKept }
{}

/// In a netlist no chain of `op`, `not`, `shift`, `cast` and `mux` cells leads from a net back to it.
pub fn no_loop()
    ensures { NoLoop }
{}

/// A netlist within the limits has no refusal, and no list of cells has two: so where a list is refused it is no netlist
/// within the limits, and the refusal is the only one that it has. Want of memory apart.
pub fn refusals_exact()
    ensures { RefusalsExact }
{}

/// How three small netlists end, worked out by hand: a sum that is done in cycle 1, two reads of one
/// bank that clash there, and a load of twenty words under three lists of delays.
pub fn example_endings()
    ensures { ExampleEndings }
{}

/// What some of a netlist's cells do, whatever else stands beside them: where no other cell names
/// their banks and DRAMs, a run obeys them by themselves, and what they do depends on the others only
/// through the nets that they read and the delays that their channels take.
pub fn locality()
    ensures { Locality }
{}

/// The cells of a draft name no bank, DRAM or channel past those that it has and drive no net that wasn't promised;
/// whether some cell of two lists does so is told by the two; what stands in a draft stands in each later one.
pub fn draft_laws()
    ensures { DraftLaws }
{}

/// What two small circuits do in every netlist that has them: a counter that is started and says when
/// it is done, and a memory with one write and two reads on two banks.
pub fn part_examples()
    ensures { PartExamples }
{}

/// A channel that asks waits for its delay, then moves up to 16 words in cycles one after the other, and
/// asks again with the 16th unless that, or one before it, was the last.
pub fn channel_serves()
    ensures { ChannelServes }
{}
