//! A law of copies. The function does nothing: what it ensures is the law.

ghost use Rattle.sp_depths.specs.Laws.{DepthsAreRight};

/// A plan in which each memory has its depth keeps the rules on copies: those of loops have one for each slot in which
/// they are used, and those between, and all others have one.
pub fn depths_are_right()
    ensures { DepthsAreRight }
{}
