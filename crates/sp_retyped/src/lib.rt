//! The tree of a program's canonical text is typed to what the program has. Each function does nothing: what it ensures is
//! the law.
#![tactic(auto)]

ghost use Rattle.sp_retyped.specs.Laws.{ExpressionsAreRight, ExpressionsComeBack};
ghost use Rattle.sp_retyped.specs.BareMems.{DeclarationsComeBack};
ghost use Rattle.sp_retyped.specs.BareBody.{ProgramsComeBack};

/// A tree that spells a typed expression has no refusals where what is visible in the program is visible, and is typed to
/// the expression, but for places.
pub fn expressions_come_back()
    ensures right { ExpressionsAreRight }
    ensures back { ExpressionsComeBack }
{}

/// The typed program of a program's tree has the program's memories, but for places, its values, counters and ports.
pub fn declarations_come_back()
    ensures { DeclarationsComeBack }
{}

/// The typed program of a program's tree is the program, but for places.
pub fn programs_come_back()
    ensures { ProgramsComeBack }
{}
