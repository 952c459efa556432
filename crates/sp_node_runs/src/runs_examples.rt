//! Worked runs of parts.

ghost use Rattle.sp_core.specs.ExampleLoops.{counting_down};
ghost use Rattle.sp_machine.specs.Examples.{chosen, chosen_plan, counting_plan};
ghost use Rattle.sp_node_runs.specs.RunsExample.{body_of, branches, copying, copying_loop, copying_plan, cycles, machines, node_in, side_of, stage_of};
ghost use Rattle.std.specs.Prelude.{[], ◌≡◌, ◌∷◌, true, false};

/// When parts of three small cores begin. It does nothing: what it ensures is the example.
pub fn worked_parts()
    ensures loops { cycles copying_loop ≡ 2 ∷ [] }
    ensures loads { cycles (stage_of copying copying_plan (node_in copying.root 0) 1 0 0 copying_loop) ≡ 4 ∷ 10 ∷ [] }
    ensures stores { cycles (stage_of copying copying_plan (node_in copying.root 0) 1 0 1 copying_loop) ≡ 10 ∷ 16 ∷ [] }
    ensures taken { cycles (side_of chosen chosen_plan (node_in chosen.root 0) 1 true (branches 3)) ≡ 7 ∷ [] }
    ensures not_left { cycles (side_of chosen chosen_plan (node_in chosen.root 0) 1 false (branches 3)) ≡ [] }
    ensures left { cycles (side_of chosen chosen_plan (node_in chosen.root 0) 1 false (branches 2)) ≡ 7 ∷ [] }
    ensures not_taken { cycles (side_of chosen chosen_plan (node_in chosen.root 0) 1 true (branches 2)) ≡ [] }
    ensures bodies { cycles (body_of counting_down counting_plan (node_in counting_down.root 0) 1 0 machines) ≡ 10 ∷ [] }
{}
