//! Worked cores. Each function does nothing: what it ensures are the meets of cores, which were worked out by hand.

ghost use Rattle.std.specs.Prelude.{◌≡◌, ◌^◌, [], ◌∷◌};
ghost use Rattle.sp_words.specs.declared.kind.Kind.TheVariants.{Reg, ArgIn};
ghost use Rattle.sp_words.specs.declared.kind.Style.TheVariants.{Pipe, Parallel};
ghost use Rattle.sp_core.specs.ExampleForms.{meet};
ghost use Rattle.sp_core.specs.ExampleLanes.{squares_in_lanes, stores_in_lanes};
ghost use Rattle.sp_core.specs.ExampleLoops.{counting_down, register_between, queued, streamed, shifted};
ghost use Rattle.sp_core.specs.ExampleTransfers.{histogram, copied};
ghost use Rattle.sp_meets.specs.Bits.{NumbersPass};
ghost use Rattle.sp_meets.specs.ExampleNumbers.{loops_up_to, index_by};
ghost use Rattle.sp_meets.specs.Examples.{meets_of_below, chained, beside, nothing_between, write_between, two_parts, moved_rows};

/// Which accesses of loops meet less than six groups apart.
pub fn worked_loops()
    // The elements of h that are counted aren't known, so each may be that of another group.
    ensures histogram { meets_of_below 6 histogram ≡ meet 2 11 0 ∷ meet 7 12 0 ∷ meet 7 15 0 ∷ meet 7 18 0 ∷ meet 12 15 0 ∷ meet 15 12 1 ∷ meet 15 15 1 ∷ meet 15 18 0 ∷ [] }
    // Four lanes write four elements.
    ensures squares { meets_of_below 6 squares_in_lanes ≡ meet 7 28 0 ∷ meet 13 28 0 ∷ meet 19 28 0 ∷ meet 25 28 0 ∷ [] }
    // What a lane writes the next one reads, and lane 0 in the next group.
    ensures chained { meets_of_below 6 chained ≡ meet 8 12 0 ∷ meet 15 19 0 ∷ meet 22 26 0 ∷ meet 29 5 1 ∷ [] }
    // The same element of another iteration is another one, whatever the symbol is.
    ensures shifted { meets_of_below 6 shifted ≡ [] }
    ensures queue { meets_of_below 6 (queued 4) ≡ meet 5 5 1 ∷ meet 5 9 0 ∷ meet 9 9 1 ∷ meet 10 13 0 ∷ [] }
{}

/// Which accesses of bodies with stages meet less than six groups apart.
pub fn worked_stages()
    // One stage writes a register that the loop doesn't own, and the next one reads it.
    ensures register { meets_of_below 6 register_between ≡ meet 3 5 0 ∷ meet 5 3 1 ∷ meet 8 11 0 ∷ [] }
    ensures machine { meets_of_below 6 counting_down ≡ meet 4 7 0 ∷ meet 7 11 0 ∷ [] }
    // Inside of a `Stream` block nothing meets.
    ensures stream { meets_of_below 6 (streamed 2 8) ≡ meet 17 20 0 ∷ [] }
    // A symbol that isn't written is one word.
    ensures one_word { meets_of_below 6 (beside Reg nothing_between) ≡ [] }
    ensures two_words { meets_of_below 6 (beside Reg write_between) ≡ meet 0 3 0 ∷ meet 1 7 0 ∷ meet 3 4 0 ∷ [] }
    // Two elements meet where parts may be at work at once, since a memory has one write port.
    ensures one_after_the_other { meets_of_below 6 (two_parts Pipe) ≡ [] }
    ensures at_once { meets_of_below 6 (two_parts Parallel) ≡ meet 2 5 0 ∷ [] }
{}

/// Which transfers meet less than six groups apart.
pub fn worked_transfers()
    // The loop owns its tile, so groups don't meet there, and tiles of four words don't overlap.
    ensures tiles { meets_of_below 6 (copied 8 4) ≡ meet 6 11 0 ∷ [] }
    // Slices of two words, one word apart from lane to lane and two from group to group.
    ensures lanes { meets_of_below 6 (stores_in_lanes 4) ≡ meet 6 11 0 ∷ meet 11 21 0 ∷ meet 16 21 0 ∷ meet 21 11 1 ∷ [] }
    // A row is loaded a group after it was stored.
    ensures rows { meets_of_below 6 moved_rows ≡ meet 7 11 0 ∷ meet 11 7 1 ∷ [] }
{}

/// By a counter of their own that goes up to 3, two indices `i + 10 * j` are 60 apart at most; by one that goes up to 2^40, two
/// indices `i + 2^40 * j` are so far apart that no 64 bits hold it.
pub fn worked_numbers()
    ensures few { NumbersPass (loops_up_to 3) (index_by 10) (index_by 10) → ⊥ }
    ensures many { NumbersPass (loops_up_to (2 ^ 40)) (index_by (2 ^ 40)) (index_by (2 ^ 40)) }
{}
