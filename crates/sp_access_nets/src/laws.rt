//! Laws of the accesses of a list. The functions do nothing: what they ensure are the laws.

ghost use Rattle.sp_access_nets.specs.Example.{WorkedAccesses};
ghost use Rattle.sp_access_nets.specs.Laws.{EachHasAccess, EachIsOfOperation, ReservedAreAnswers, RulesNameMemories};
ghost use Rattle.sp_access_nets.specs.Picking.{PicksAccessesTo};

/// Of operations that keep the core's rules just the accesses name memories.
pub fn rules_name_memories()
    ensures { RulesNameMemories }
{}

/// Accesses are to be answered on the nets that their list reserved, in order.
pub fn reserved_are_answers()
    ensures { ReservedAreAnswers }
{}

/// Each operation that names a memory has an access, with its number.
pub fn each_has_access()
    ensures { EachHasAccess }
{}

/// Each access is of an operation that names its memory.
pub fn each_is_of_operation()
    ensures { EachIsOfOperation }
{}

/// The accesses of a counter, a read and a write.
pub fn worked_accesses()
    ensures { WorkedAccesses }
{}

/// What is picked for a memory and a kind of access are the accesses of that kind to it.
pub fn picks_accesses_to()
    ensures { PicksAccessesTo }
{}
