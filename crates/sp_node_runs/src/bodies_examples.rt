//! A worked body at the events of the timeline.

ghost use Rattle.std.specs.Prelude.{ℕ, ◌≡◌, [], ◌∷◌};
ghost use Rattle.sp_core.specs.declared.operation.OpKind.TheVariants.{Write};
ghost use Rattle.sp_machine.specs.Examples.{always, chosen, chosen_plan};
ghost use Rattle.sp_node_runs.specs.BodiesExample.{events, node, runs, waves};
ghost use Rattle.sp_node_runs.specs.BodiesTold.{ActsInTime};
ghost use Rattle.sp_node_runs.specs.RunsTold.{all_events};

/// What happens in the run of a body, and a net and a word that are an access at its one event. It does nothing: what it ensures is
/// the example.
pub fn worked_body()
    ensures told { all_events chosen chosen_plan (always 0) node 2 3 runs ≡ events }
    ensures acts { (last : ℕ) → ActsInTime waves events last 4 Write 0 (1 ∷ []) }
{}
