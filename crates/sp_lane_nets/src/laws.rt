//! A law of words of lanes. The function does nothing: what it ensures is the law.

ghost use Rattle.sp_lane_nets.specs.Laws.{LanesHaveWords};

/// The word of a lane is that of its value.
pub fn lanes_have_words()
    ensures { LanesHaveWords }
{}
