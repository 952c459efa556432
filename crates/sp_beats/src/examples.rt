//! A worked loop.
ghost use Rattle.sp_beats.specs.Example.{WorkedBeats};

/// Which slot has a group in which cycles, of two groups in two slots. It does nothing: what it ensures is the example.
pub fn worked_beats()
    ensures { WorkedBeats }
{}
