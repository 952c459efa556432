//! Worked programs. The function does nothing: what it ensures was worked out by hand.

ghost use Rattle.std.specs.Prelude.{◌≡◌, true, false};
ghost use Rattle.sp_plan.specs.Nodes.{site_at};
ghost use Rattle.sp_stream.specs.Proper.{is_proper};
ghost use Rattle.sp_sugar.specs.Core.{core_of};
ghost use Rattle.sp_sugar.specs.ExamplePrograms.{streamed, streamed_twice};
ghost use Rattle.sp_proper.specs.Laws.{is_stream_site};

/// A program whose block is a proper one in its core, and one whose block isn't proper, so that its core has a sequence.
pub fn worked_programs()
    ensures streamed { is_stream_site (site_at 1 0 false (core_of streamed).root) ≡ true }
    ensures streamed_is_proper { is_proper (core_of streamed) 1 ≡ true }
    ensures root { is_stream_site (site_at 0 0 false (core_of streamed).root) ≡ false }
    ensures joined_twice { is_stream_site (site_at 1 0 false (core_of streamed_twice).root) ≡ false }
    ensures joined_twice_is_not { is_proper (core_of streamed_twice) 1 ≡ false }
{}
