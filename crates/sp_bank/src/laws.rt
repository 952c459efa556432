//! What the order of schemes comes to. A law is a function whose contract is the law, and whose body is empty.
ghost use Rattle.std.specs.Prelude.{◌≡◌, ℕ, List, ◌<◌};
ghost use Rattle.sp_bank.specs.Search.{Precedes};

/// Of two schemes that differ in nothing but the hinge, the one with the earlier hinge goes first, and only it does.
pub fn earlier_hinges_go_first()
    ensures every { (banks block h k : ℕ) (alpha : List ℕ) → h < k
        → Precedes (record { banks = banks; block = block; alpha = alpha; hinge = h }) (record { banks = banks; block = block; alpha = alpha; hinge = k }) }
    ensures only { (banks block h k : ℕ) (alpha : List ℕ)
        → Precedes (record { banks = banks; block = block; alpha = alpha; hinge = h }) (record { banks = banks; block = block; alpha = alpha; hinge = k }) → h < k }
{}
