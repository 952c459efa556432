//! What the definitions of counts, beginnings and pieces come to. A law is a function whose contract is the law.
ghost use Rattle.std.specs.Prelude.{◌≡◌, ℕ, ◌-◌, ◌^◌, ◌<◌, List, ◌++◌, flat_map};
ghost use Rattle.sp_edges.specs.Counts.{Rose};
ghost use Rattle.sp_edges.specs.Standing.{Holds, BeginsWith};
ghost use Rattle.sp_edges.specs.Pieces.{ArePieces};

/// A count that rose is higher than before; one that is as it was stands at its type's end.
pub fn counts_rise()
    ensures stands { (count : ℕ) → count < 2 ^ 64 → Rose count count → count ≡ 2 ^ 64 - 1 }
    ensures fell { (before after : ℕ) → before < 2 ^ 64 → after < before → Rose before after → ⊥ }
    ensures higher { (before after : ℕ) → before < after → Rose before after }
{}

/// What stands under a name begins with bytes exactly where it is those bytes and more.
pub fn beginnings_are_fronts()
    ensures only { (all bytes : List ℕ) → BeginsWith (Holds all) bytes → (rest : List ℕ) × (all ≡ bytes ++ rest) }
    ensures every { (bytes rest : List ℕ) → BeginsWith (Holds (bytes ++ rest)) bytes }
{}

/// A text is cut into pieces in one way, and is its pieces joined.
pub fn texts_have_one_cut()
    ensures joined { (text : List ℕ) (pieces : List (List ℕ)) → ArePieces text pieces → flat_map (λ piece. piece) pieces ≡ text }
    ensures one { (text : List ℕ) (pieces others : List (List ℕ)) → ArePieces text pieces → ArePieces text others → pieces ≡ others }
{}
