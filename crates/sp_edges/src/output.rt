// What takes bytes.
ghost use Rattle.std.specs.Prelude.{◌≡◌, ℕ, ◌+◌, ◌<◌, ◌≤◌, List, [], ◌∷◌, ◌++◌, length, OnOk, OnErr, IsOk};
ghost use Rattle.sp_edges.specs.Pieces.{AreFirstPieces, ArePieces};
ghost use Rattle.std.specs.Prelude.{Option};
ghost use Rattle.sp_edges.specs.Counts.{Rose};
ghost use Rattle.sp_edges.specs.Gained.{Gained, GainedPart};

/// A sink did not take the whole piece.
#[derive(Clone, Copy, Debug, PartialEq, Eq)]
pub struct SinkFailed;

/// A place that bytes are put to, one after another.
pub trait Sink {
    /// The bytes taken so far, where they are told.
    ghost taken: { Self → Option (List ℕ) };

    /// How often a put has failed.
    ghost faults: { Self → ℕ };

    /// How many bytes can still be put without a fault.
    ghost sure_room: { Self → ℕ };

    /// Between two moments these pieces were put, in this order, whether they were taken or not.
    ghost was_put: { Self → List (List ℕ) → Self → Type 0 };

    /// Takes the whole piece, or at an error some first bytes of it.
    fn put(&mut self, piece: &[u8]) -> Result<(), SinkFailed>
        ensures whole { OnOk result (Gained (taken self.old) (taken self.new) piece.now) }
        ensures part { OnErr result (GainedPart (taken self.old) (taken self.new) piece.now) }

        // The piece was put.
        ensures puts { was_put self.old (piece.now ∷ []) self.new }

        // Why it failed.
        ensures failed { OnErr result (Rose (faults self.old) (faults self.new)) }
        ensures sure { 0 < length piece.now → length piece.now ≤ sure_room self.old → IsOk result }

        // What stays.
        ensures room { 0 < length piece.now → length piece.now ≤ sure_room self.old →
            sure_room self.new + length piece.now ≡ sure_room self.old }
        ensures counts { faults self.old ≤ faults self.new };

    /// Without a put the sink stays as it is.
    ghost no_put: { (sink : Self) → was_put sink [] sink };

    ghost stays: { (before after : Self) → was_put before [] after → after ≡ before };

    /// Pieces that were put one after another.
    ghost more_puts: { (before middle after : Self) (pieces more : List (List ℕ)) →
        was_put before pieces middle → was_put middle more after → was_put before (pieces ++ more) after };
}

const PIECE: usize = 65_536;

/// Puts a text in pieces of 65,536 bytes, the last one shorter, up to the first that fails.
///
/// An empty text is no piece.
pub fn put_text<K: Sink>(sink: &mut K, text: &[u8]) -> Result<(), SinkFailed>
    ensures whole { OnOk result (Gained (K.taken sink.old) (K.taken sink.new) text.now) }
    ensures part { OnErr result (GainedPart (K.taken sink.old) (K.taken sink.new) text.now) }

    // The pieces that were put: all of them, or the first ones.
    ensures all { OnOk result ((pieces : List (List ℕ)) × ArePieces text.now pieces × K.was_put sink.old pieces sink.new) }
    ensures first { OnErr result ((pieces : List (List ℕ)) × (rest : List ℕ) × AreFirstPieces text.now pieces rest × K.was_put sink.old pieces sink.new) }

    // Why it failed.
    ensures failed { OnErr result (Rose (K.faults sink.old) (K.faults sink.new)) }
    ensures past_room { OnErr result (K.sure_room sink.old < length text.now) }
    ensures sure { length text.now ≤ K.sure_room sink.old → IsOk result }

    // What stays.
    ensures room { length text.now ≤ K.sure_room sink.old →
        K.sure_room sink.new + length text.now ≡ K.sure_room sink.old }
    ensures counts { K.faults sink.old ≤ K.faults sink.new }
{
    for piece in text.chunks(PIECE) {
        sink.put(piece)?;
    }
    Ok(())
}
