//! Laws of channels. Each function does nothing: what it ensures is the law.

ghost use Rattle.sp_channel_runs.specs.Bursts.{ChannelFollows, DelaysAreSmall, TransfersFollow};
ghost use Rattle.sp_channel_runs.specs.Example.{WorkedChannel};

/// Where a channel is asked in the cycles of its bursts, and told of their last words, all up to a cycle, and each burst waits for the
/// delay that the channel took at its asking, it is ready exactly in the cycles of their words, up to the cycle after.
pub fn channels_follow()
    ensures { ChannelFollows }
{}

/// So it is with transfers, each of which asks once for each 16 words.
pub fn transfers_follow()
    ensures { TransfersFollow }
{}

/// No delay that a channel takes is greater than the greatest that it is given.
pub fn delays_are_small()
    ensures { DelaysAreSmall }
{}

/// The bursts, the phases and the delays of a channel whose transfer is worked by hand.
pub fn worked_channel()
    ensures { WorkedChannel }
{}
