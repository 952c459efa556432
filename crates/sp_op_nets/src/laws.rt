//! Laws of operations with their nets. The functions do nothing: what they ensure are the laws.

ghost use Rattle.sp_op_nets.specs.Example.{WorkedNets};
ghost use Rattle.sp_op_nets.specs.Laws.{CountersStand, OperationsAreGiven, SameNetsGive, NetsFit, ReservedAreDriven, SomeReservedAreDriven, ReservedComeTogether, PromisedAreReserved, FillsAreReserved, AnswersAreReserved, ReservedStay, AnswersHaveNets, AnswersComeAfter};

/// Where each counter around stands in the table, so does what operations that keep their rules take their words from.
pub fn counters_stand()
    ensures { CountersStand }
{}

/// Operations with their nets are given their words in each run of what the draft becomes.
pub fn operations_are_given()
    ensures { OperationsAreGiven }
{}

/// Nets that are the same for the counters around give the same words.
pub fn same_nets_give()
    ensures { SameNetsGive }
{}

/// The nets of operations fit them.
pub fn nets_fit()
    ensures { NetsFit }
{}

/// Reserved nets that the part behind drives are no open nets.
pub fn reserved_are_driven()
    ensures { ReservedAreDriven }
{}

/// Of reserved nets those are left that the part behind doesn't drive.
pub fn some_reserved_are_driven()
    ensures { SomeReservedAreDriven }
{}

/// What is reserved in turn is reserved together.
pub fn reserved_come_together()
    ensures { ReservedComeTogether }
{}

/// A net that is promised is reserved.
pub fn promised_are_reserved()
    ensures { PromisedAreReserved }
{}

/// Cells that drive no open net reserve nothing.
pub fn fills_are_reserved()
    ensures { FillsAreReserved }
{}

/// The nets that operations reserve are those on which they are answered.
pub fn answers_are_reserved()
    ensures { AnswersAreReserved }
{}

/// A reserved net awaits its driver, whatever is reserved behind it.
pub fn reserved_stay()
    ensures { ReservedStay }
{}

/// The nets on which operations are answered stand.
pub fn answers_have_nets()
    ensures { AnswersHaveNets }
{}

/// Each answer comes as late as its net was given.
pub fn answers_come_after()
    ensures { AnswersComeAfter }
{}

/// The nets that worked operations reserve.
pub fn worked_nets()
    ensures { WorkedNets }
{}
