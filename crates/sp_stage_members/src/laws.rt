//! Laws of stages in their places. The functions do nothing: what they ensure are the laws.

ghost use Rattle.sp_stage_members.specs.Circuits.{MembersAreCircuits, SingleLanesAreFirst, StagesHaveLanes};
ghost use Rattle.sp_stage_members.specs.Example.{WorkedPlaces};
ghost use Rattle.sp_stage_members.specs.Laws.{StagesStandOnce};

/// Each stage stands in one place.
pub fn stages_stand_once()
    ensures { StagesStandOnce }
{}

/// Members by lists of nets for the lanes are those of a loop's circuit.
pub fn members_are_circuits()
    ensures { MembersAreCircuits }
{}

/// Each stage has lanes of its loop.
pub fn stages_have_lanes()
    ensures { StagesHaveLanes }
{}

/// The stages of a loop without counters have lane 0.
pub fn single_lanes_are_first()
    ensures { SingleLanesAreFirst }
{}

/// Three stages in two slots.
pub fn worked_places()
    ensures { WorkedPlaces }
{}
