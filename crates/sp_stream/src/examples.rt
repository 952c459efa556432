//! Worked blocks. Each function does nothing: what it ensures was worked out by hand.

ghost use Rattle.std.specs.Prelude.{◌≡◌, [], ◌∷◌, ◌++◌, true, false, None};
ghost use Rattle.sp_core.specs.ExampleForms.{lit, read, write, enq, deq, below};
ghost use Rattle.sp_core.specs.ExampleLoops.{streamed};
ghost use Rattle.sp_core.specs.Invariant.{wrong_place};
ghost use Rattle.sp_stream.specs.ExampleStreams.{looped, block, loop, puts, moves, takes, chain, a_write, nested, as_many_as, two_put, two_take, emptied, both_also, branching, triangle, two_between, there_and_back};
ghost use Rattle.sp_stream.specs.Proper.{is_proper};

/// Blocks that are proper, and nodes that are none.
pub fn worked_proper_blocks()
    ensures streamed { is_proper (streamed 2 8) 1 ≡ true }
    ensures root { is_proper (streamed 2 8) 0 ≡ false }
    ensures stage { is_proper (streamed 2 8) 2 ≡ false }
    ensures no_node { is_proper (streamed 2 8) 6 ≡ false }
    ensures chain { is_proper (block chain) 1 ≡ true }
    ensures a_loop { is_proper (looped (below 9 2 1 1 ∷ []) chain) 1 ≡ false }
    ensures register_as_bound { is_proper (block (puts 0 4 ∷ as_many_as (read 1 [] ∷ []) ∷ [])) 1 ≡ true }
    ensures loop_of_nothing { is_proper (block (puts 0 4 ∷ takes 1 4 ∷ loop 2 [] ∷ [])) 1 ≡ true }
    ensures read_by_both { is_proper (block (both_also (read 1 [] ∷ []) (read 1 [] ∷ []))) 1 ≡ true }
    ensures written_by_one { is_proper (block (both_also (write 1 (0 ∷ []) ∷ []) [])) 1 ≡ true }
    ensures outside_of_one { is_proper (block (both_also (enq 3 0 ∷ deq 3 ∷ []) [])) 1 ≡ true }
    ensures branching { is_proper (block branching) 1 ≡ true }
{}

/// Blocks that break one rule each.
pub fn worked_broken_blocks()
    ensures statement_beside { is_proper (block (puts 0 4 ∷ takes 1 4 ∷ a_write ∷ [])) 1 ≡ false }
    ensures nested { is_proper (block (puts 0 4 ∷ nested ∷ [])) 1 ≡ false }
    ensures array_as_bound { is_proper (block (puts 0 4 ∷ as_many_as (lit 0 ∷ read 2 (0 ∷ []) ∷ []) ∷ [])) 1 ≡ false }
    ensures two_put { is_proper (block two_put) 1 ≡ false }
    ensures two_take { is_proper (block two_take) 1 ≡ false }
    ensures put_and_taken { is_proper (block (moves 0 4 4 ∷ [])) 1 ≡ false }
    ensures emptied { is_proper (block emptied) 1 ≡ false }
    ensures register { is_proper (block (both_also (write 1 (0 ∷ []) ∷ []) (read 1 [] ∷ []))) 1 ≡ false }
    ensures register_in_a_bound { is_proper (block (both_also (write 1 (0 ∷ []) ∷ []) [] ++ as_many_as (read 1 [] ∷ []) ∷ [])) 1 ≡ false }
    ensures array { is_proper (block (both_also (write 2 (0 ∷ 0 ∷ []) ∷ []) (read 2 (1 ∷ []) ∷ []))) 1 ≡ false }
    ensures output { is_proper (block (both_also (write 0 (0 ∷ []) ∷ []) (write 0 (0 ∷ []) ∷ []))) 1 ≡ false }
    ensures outer_fifo { is_proper (block (both_also (enq 3 0 ∷ []) (deq 3 ∷ []))) 1 ≡ false }
    ensures triangle { is_proper (block triangle) 1 ≡ false }
    ensures two_between { is_proper (block two_between) 1 ≡ false }
    ensures there_and_back { is_proper (block there_and_back) 1 ≡ false }
{}

/// They keep the rules of cores, but for the one whose bound names an SRAM.
pub fn worked_blocks_are_cores()
    ensures chain { wrong_place (block chain) ≡ None }
    ensures register_as_bound { wrong_place (block (puts 0 4 ∷ as_many_as (read 1 [] ∷ []) ∷ [])) ≡ None }
    ensures statement_beside { wrong_place (block (puts 0 4 ∷ takes 1 4 ∷ a_write ∷ [])) ≡ None }
    ensures nested { wrong_place (block (puts 0 4 ∷ nested ∷ [])) ≡ None }
    ensures two_put { wrong_place (block two_put) ≡ None }
    ensures emptied { wrong_place (block emptied) ≡ None }
    ensures register { wrong_place (block (both_also (write 1 (0 ∷ []) ∷ []) (read 1 [] ∷ []))) ≡ None }
    ensures array { wrong_place (block (both_also (write 2 (0 ∷ 0 ∷ []) ∷ []) (read 2 (1 ∷ []) ∷ []))) ≡ None }
    ensures outer_fifo { wrong_place (block (both_also (enq 3 0 ∷ []) (deq 3 ∷ []))) ≡ None }
    ensures branching { wrong_place (block branching) ≡ None }
    ensures triangle { wrong_place (block triangle) ≡ None }
    ensures two_between { wrong_place (block two_between) ≡ None }
{}
