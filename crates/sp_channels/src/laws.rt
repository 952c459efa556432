//! A law of channels. It is a function whose contract is the law, and whose body is empty.

ghost use Rattle.sp_channels.specs.Laws.{ChannelLaws};

/// What is known of a unit stays known.
pub fn channel_laws()
    ensures { ChannelLaws }
{}
