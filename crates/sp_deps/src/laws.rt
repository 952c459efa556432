//! Laws of distances. Each function does nothing: what it ensures is the law.

ghost use Rattle.std.specs.Prelude.{◌≡◌, ℕ, ◌<◌, ◌≤◌, true, List, ◌∷◌, ◌++◌};
ghost use Rattle.sp_deps.specs.declared.access.Dist.{Dist};
ghost use Rattle.sp_deps.specs.declared.access.LoopRange.{LoopRange};
ghost use Rattle.sp_deps.specs.Access.{PlainAccess};
ghost use Rattle.sp_deps.specs.Classes.{Loops};
ghost use Rattle.sp_deps.specs.Distances.{IsDistance};
ghost use Rattle.sp_deps.specs.Groups.{AreTouching, IsSound};
ghost use Rattle.sp_deps.specs.Stages.{stages_meet};

/// Two accesses, of which one writes, that touch one element some groups of iterations apart have a distance, and it is no
/// greater. Without counters, where there is one group, they have the distance 0.
pub fn distances_are_sound()
    ensures { (a b : PlainAccess) (loops : List LoopRange) (d : Dist) → IsDistance a b loops d → IsSound a b loops d }
{}

/// Two parts of a loop's body, an access of each of which touch one element some groups of iterations apart, meet within
/// that distance: in one group where 0 is asked, and else from 1 group on.
pub fn stages_are_sound()
    ensures { (loops : Loops) (a b : PlainAccess) (p q r s : List PlainAccess) (within k : ℕ) → AreTouching loops a b k → k ≤ within → (0 < within → 1 ≤ k)
        → stages_meet loops (p ++ a ∷ q) (r ++ b ∷ s) within ≡ true }
{}
