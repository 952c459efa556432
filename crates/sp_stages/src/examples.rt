//! Worked slots and chains. Each function does nothing: what it ensures was worked out by hand.

ghost use Rattle.std.specs.Prelude.{◌≡◌, [], ◌∷◌, true};
ghost use Rattle.sp_core.specs.ExampleForms.{meet};
ghost use Rattle.sp_core.specs.ExampleLanes.{dot_product_in_lanes, stores_in_lanes};
ghost use Rattle.sp_core.specs.ExampleLoops.{register_between};
ghost use Rattle.sp_core.specs.ExampleMeets.{stores_meets};
ghost use Rattle.sp_core.specs.ExampleTransfers.{copied};
ghost use Rattle.sp_plan.specs.ExamplePlans.{dot_product_meets, register_meets};
ghost use Rattle.sp_stages.specs.Chains.{chains_of, chains_of_node};
ghost use Rattle.sp_stages.specs.Divided.{runs_of_node, slots_of_node};
ghost use Rattle.sp_stages.specs.Finest.{are_in_place};
ghost use Rattle.sp_words.specs.declared.kind.Style.TheVariants.{Parallel};

/// The slots of loops: of tiles that are loaded, multiplied and summed; of a register that one stage writes and the next
/// one reads, or would read two groups later; of stores in two lanes, whose slices meet; of tiles that are copied.
pub fn worked_slots()
    ensures dot_product { slots_of_node dot_product_in_lanes dot_product_meets 1 ≡ 0 ∷ 1 ∷ 2 ∷ 3 ∷ [] }
    ensures block { slots_of_node dot_product_in_lanes dot_product_meets 0 ≡ 0 ∷ 1 ∷ [] }
    ensures register { slots_of_node register_between register_meets 1 ≡ 0 ∷ 0 ∷ [] }
    ensures stores { slots_of_node (stores_in_lanes 4) (stores_meets 1) 1 ≡ 0 ∷ 1 ∷ 0 ∷ 1 ∷ [] }
    ensures copied { slots_of_node (copied 64 16) (meet 6 11 0 ∷ []) 1 ≡ 0 ∷ 1 ∷ [] }
    ensures register_later { slots_of_node register_between (meet 3 5 0 ∷ meet 5 3 2 ∷ []) 1 ≡ 0 ∷ 1 ∷ [] }
{}

/// The stages of these loops stand in their lanes.
pub fn worked_places()
    ensures dot_product { are_in_place (runs_of_node dot_product_in_lanes 1) ≡ true }
    ensures register { are_in_place (runs_of_node register_between 1) ≡ true }
    ensures stores { are_in_place (runs_of_node (stores_in_lanes 4) 1) ≡ true }
    ensures copied { are_in_place (runs_of_node (copied 64 16) 1) ≡ true }
{}

/// The chains of these loops in their slots: each stage of the first has a slot of its own; a register joins two stages
/// of one lane; of the stores in two lanes those of one slot are joined that meet in one group, and of all in one slot
/// those of each lane besides. Two children of a `Parallel` block are in one chain only where they meet in one group.
pub fn worked_chains()
    ensures dot_product { chains_of_node dot_product_in_lanes dot_product_meets 1 (0 ∷ 1 ∷ 2 ∷ 3 ∷ []) ≡ 0 ∷ 0 ∷ 0 ∷ 0 ∷ [] }
    ensures block { chains_of_node dot_product_in_lanes dot_product_meets 0 (0 ∷ 1 ∷ []) ≡ 0 ∷ 0 ∷ [] }
    ensures register { chains_of_node register_between register_meets 1 (0 ∷ 0 ∷ []) ≡ 0 ∷ 0 ∷ [] }
    ensures stores { chains_of_node (stores_in_lanes 4) (stores_meets 1) 1 (0 ∷ 1 ∷ 0 ∷ 1 ∷ []) ≡ 0 ∷ 0 ∷ 1 ∷ 0 ∷ [] }
    ensures stores_apart { chains_of_node (stores_in_lanes 4) (meet 21 11 1 ∷ []) 1 (0 ∷ 1 ∷ 0 ∷ 1 ∷ []) ≡ 0 ∷ 0 ∷ 1 ∷ 1 ∷ [] }
    ensures stores_in_one { chains_of_node (stores_in_lanes 4) (stores_meets 1) 1 (0 ∷ 0 ∷ 0 ∷ 0 ∷ []) ≡ 0 ∷ 0 ∷ 0 ∷ 0 ∷ [] }
    ensures lanes_in_one { chains_of_node (stores_in_lanes 4) [] 1 (0 ∷ 0 ∷ 0 ∷ 0 ∷ []) ≡ 0 ∷ 0 ∷ 1 ∷ 1 ∷ [] }
    ensures copied { chains_of_node (copied 64 16) (meet 6 11 0 ∷ []) 1 (0 ∷ 1 ∷ []) ≡ 0 ∷ 0 ∷ [] }
    ensures parallel { chains_of register_between (meet 3 5 0 ∷ []) [] Parallel (runs_of_node register_between 1) (0 ∷ 0 ∷ []) ≡ 0 ∷ 0 ∷ [] }
    ensures parallel_apart { chains_of register_between (meet 3 5 1 ∷ []) [] Parallel (runs_of_node register_between 1) (0 ∷ 0 ∷ []) ≡ 0 ∷ 1 ∷ [] }
{}
