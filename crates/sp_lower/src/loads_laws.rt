//! A law of loads. The function does nothing: what it ensures is the law.

ghost use Rattle.sp_lower.specs.LoadsLaws.{LoadsAreHad};

/// A core's tree has its loads by what was emitted of them, each with the channel of its unit.
pub fn loads_are_had()
    ensures { LoadsAreHad }
{}
