//! Laws of sizes. Each function does nothing: what it ensures is the law.

ghost use Rattle.std.specs.Prelude.{◌≡◌, [], ◌∷◌};
ghost use Rattle.sp_lanes.specs.Examples.{shared_reads, nested};
ghost use Rattle.sp_tree.specs.Invariant.{IsProgram};
ghost use Rattle.sp_tree.specs.PlainProgram.{PlainProgram};
ghost use Rattle.sp_lane_cores.specs.SizeLaws.{StaysSmall};
ghost use Rattle.sp_lane_cores.specs.SizeWorked.{weights};

/// The core of a program is as small as cores are where its lanes stand one after the other.
pub fn programs_stay_small()
    ensures { (p : PlainProgram) → IsProgram p → StaysSmall p }
{}

/// Weights of cores, worked out by hand: a body of two lanes, and lanes inside of lanes, each with memories of its own.
pub fn worked_weights()
    ensures shared { weights shared_reads ≡ 25 ∷ 29 ∷ [] }
    ensures nested { weights nested ≡ 48 ∷ 57 ∷ [] }
{}
