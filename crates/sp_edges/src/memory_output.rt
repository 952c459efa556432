// A sink that is kept in memory.
ghost use Rattle.std.specs.Prelude.{◌≡◌, ◌+◌, ◌<◌, ◌≤◌, ◌-◌, ◌++◌, length, [], Some, OnOk, OnErr, IfOk, IsOk, IsTrue, take};
ghost use Rattle.sp_edges.specs.Counts.{one_more, Rose};
ghost use Rattle.sp_edges.specs.Gained.{Gained, GainedPart};
ghost use Rattle.sp_edges.specs.Memory.{next_number};
ghost use Rattle.sp_edges.specs.Store.{stop_at};

use crate::NoMemory;
use crate::output::{Sink, SinkFailed};
use std::alloc::Global;
use std::marker::Model;

/// A put that is to fail: its number, from 0, and how many bytes of its piece are taken first.
#[derive(Clone, Copy, Debug, PartialEq, Eq)]
pub struct SinkStop {
    pub call: u64,
    pub takes: usize,
}

/// A sink in memory, with room for so many bytes and puts that are to fail.
#[derive(Debug, Drop)]
pub struct MemSink {
    bytes: Vec<u8>,
    room: usize,
    stops: Vec<SinkStop>,
    next: Option<u64>,
    faults: u64,
}

impl Model for MemSink {
    ghost use Rattle.std.specs.Prelude.{◌+◌, ◌≤◌, vec_len, vec_capacity};
    ghost use Rattle.sp_edges.specs.Store.{Store};

    ghost Value = { Store };

    ghost view = { λ sink. record { bytes = sink.bytes.items; room = sink.room; stops = sink.stops.items; next = sink.next; faults = sink.faults } };

    // The memory for the room is there already.
    ghost invariant = { λ sink. vec_len sink.bytes + sink.room ≤ vec_capacity sink.bytes };
}

impl MemSink {
    ghost use Rattle.sp_edges.specs.Store.{new_store, stop_at};

    /// A sink with room for `room` bytes, whose memory it takes at once, and the puts that are to fail.
    pub fn new(alloc: Global, room: usize, failing: Vec<SinkStop>) -> Result<MemSink, NoMemory>
        ensures new { IfOk result (λ sink. sink ≡ new_store room failing.items) }
        ensures sure_room { failing.items ≡ [] → IfOk result (λ sink. ⟦<MemSink as Sink>⟧.sure_room sink ≡ room) }
    {
        Ok(MemSink {
            bytes: Vec::with_capacity(alloc, room)?,
            room,
            stops: failing,
            next: Some(0),
            faults: 0,
        })
    }

    /// The bytes taken so far.
    pub fn bytes(&self) -> &[u8]
        ensures bytes { result.now ≡ self.now.bytes }
        ensures told { ⟦<MemSink as Sink>⟧.taken self.now ≡ Some result.now }
    {
        self.bytes.as_slice()
    }

    // Counts a call, and says how many bytes it lets through if it is to fail.
    fn begin_call(&mut self) -> Option<usize>
        ensures stop { result ≡ stop_at self.old.stops self.old.next }
        ensures counts { self.new ≡ record self.old { next = next_number self.old.next } }
    {
        let call = self.next?;
        self.next = call.checked_add(1);
        find_stop(self.stops.as_slice(), call)
    }

    // Takes a piece that fits.
    fn take(&mut self, piece: &[u8])
        requires { length piece.now ≤ self.old.room }
        ensures { self.new ≡ record self.old { bytes = self.old.bytes ++ piece.now; room = self.old.room - length piece.now } }
    {
        self.bytes.extend_from_slice(piece).unwrap();
        self.room -= piece.len();
    }

    // Counts a fault.
    fn fail(&mut self) -> SinkFailed
        ensures counts { self.new ≡ record self.old { faults = one_more self.old.faults } }
        ensures rises { self.old.faults ≤ self.new.faults }
    {
        self.faults = self.faults.saturating_add(1);
        SinkFailed
    }
}

// How many bytes the first stop of this call lets through.
fn find_stop(stops: &[SinkStop], call: u64) -> Option<usize>
    ensures { result ≡ stop_at stops.now (Some call) }
{
    stops
        .iter()
        .find(|stop| stop.call == call)
        .map(|stop| stop.takes)
}

impl Sink for MemSink {
    ghost use Rattle.std.specs.Prelude.{◌≡◌, ◌+◌, ◌<◌, ◌≤◌, length, [], ◌∷◌, Some, OnOk, OnErr, IsOk, IsTrue, refl};
    ghost use Rattle.sp_edges.specs.Counts.{one_more, Rose};
    ghost use Rattle.sp_edges.specs.Gained.{Gained, GainedPart};
    ghost use Rattle.sp_edges.specs.Store.{sure_room_of, takes_whole, after_put, WasPut, after_puts-append};

    ghost taken = { λ sink. Some sink.bytes };

    ghost faults = { λ sink. sink.faults };

    ghost sure_room = { sure_room_of };

    ghost was_put = { WasPut };

    ghost no_put = { λ _. refl };

    ghost stays = { λ _ _ same. same };

    ghost more_puts = { after_puts-append };

    fn put(&mut self, piece: &[u8]) -> Result<(), SinkFailed>
        ensures whole { OnOk result (Gained (Some self.old.bytes) (Some self.new.bytes) piece.now) }
        ensures part { OnErr result (GainedPart (Some self.old.bytes) (Some self.new.bytes) piece.now) }
        ensures puts { WasPut self.old (piece.now ∷ []) self.new }
        ensures failed { OnErr result (Rose self.old.faults self.new.faults) }
        ensures sure { 0 < length piece.now → length piece.now ≤ sure_room_of self.old → IsOk result }
        ensures room { 0 < length piece.now → length piece.now ≤ sure_room_of self.old →
            sure_room_of self.new + length piece.now ≡ sure_room_of self.old }
        ensures counts { self.old.faults ≤ self.new.faults }

        // Exactly when it fails, and what it leaves.
        ensures takes_whole { IsTrue (takes_whole self.old (length piece.now)) → IsOk result }
        ensures only_whole { OnOk result (IsTrue (takes_whole self.old (length piece.now))) }
        ensures after { self.new ≡ after_put self.old piece.now }
    {
        let stop = self.begin_call();
        let wanted = stop.unwrap_or(piece.len()).min(piece.len());
        let count = wanted.min(self.room);
        self.take(&piece[..count]);
        if stop.is_none() && count == piece.len() {
            return Ok(());
        }
        Err(self.fail())
    }
}
