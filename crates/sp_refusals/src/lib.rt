//! Where a text is refused. Each function does nothing: what it ensures is the law.
#![tactic(auto)]

ghost use Rattle.sp_refusals.specs.Laws.{NoneGoOnElsewhere, RefusalsStay, NoneGoOn, TheyEndTooEarly, SomeGoOn};
ghost use Rattle.sp_refusals.specs.Texts.{RefusedFirst, PassedFirst};

/// What refuses a token refuses it whatever stands behind it.
pub fn refusals_stay()
    ensures { RefusalsStay }
{}

/// No tokens that begin with those up to a refused one are in the grammar, and none that are refused at their end are.
pub fn none_go_on()
    ensures with_token { NoneGoOn }
    ensures elsewhere { NoneGoOnElsewhere }
    ensures at_end { TheyEndTooEarly }
{}

/// Tokens before a refused one, or before the end at which they are refused, go on in the grammar.
pub fn some_go_on()
    ensures { SomeGoOn }
{}

/// A text that the rules refuse is refused at the first token, or else the end, with which nothing is in the grammar.
pub fn texts_are_refused_first()
    ensures { RefusedFirst }
{}

/// A text that is refused for a limit is refused at the first token that passes one, and those before it go on in the grammar.
pub fn limits_are_passed_first()
    ensures { PassedFirst }
{}
