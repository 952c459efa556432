//! Stages in their places. Each function does nothing: what it ensures is the law.

ghost use Rattle.sp_stage_places.specs.Laws.{StagesAreArranged, WorkedPlaces};
ghost use Rattle.sp_stage_places.specs.Planned.{PlansHavePlaces};

/// The chains of each slot are those of its stages, no slot or chain is empty, and each stage stands in one.
pub fn stages_are_arranged()
    ensures { StagesAreArranged }
{}

/// In each valid plan of a core each outer body has a slot for each of its stages, and no slot without a stage.
pub fn plans_have_places()
    ensures { PlansHavePlaces }
{}

/// Four stages in two slots.
pub fn worked_places()
    ensures { WorkedPlaces }
{}
