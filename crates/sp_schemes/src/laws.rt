//! A law of schemes. The function does nothing: what it ensures is the law.

ghost use Rattle.sp_schemes.specs.Laws.{ChosenAreRight};

/// A plan with the schemes that are chosen keeps the rules of valid plans on schemes: they are of memories with banks and
/// of their rank, the accesses of each body to one port of a memory with a scheme are one group, and it is kept apart.
pub fn chosen_schemes_are_right()
    ensures { ChosenAreRight }
{}
