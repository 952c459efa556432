//! A worked loop.

ghost use Rattle.sp_beat_words.specs.declared.part.Row.{Row};
ghost use Rattle.sp_counters.specs.declared.part.Counted.{Counted};
ghost use Rattle.sp_tree_circuits.specs.Example.{WorkedMasks};

/// By which masks the members of two slots are told whether they are wanted.
pub fn worked_masks()
    ensures { (nets : Counted) (a b : Row) → WorkedMasks nets a b }
{}
