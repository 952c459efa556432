//! Queues of words in room that is taken once.
ghost use Rattle.std.specs.Prelude.{◌≡◌, ℕ, ◌+◌, ◌<◌, ◌≤◌, ◌^◌, ◌++◌, ◌∷◌, [], length, IfOk, IfSome, not, nat_lt};
ghost use Rattle.sp_seq.specs.Rows.{IsBits, first, rest};

use crate::NoMemory;
use crate::words::Words;
use std::alloc::Global;
use std::marker::Model;

/// The slots, the slot of the oldest word, and how many words there are from there on, around the end.
#[derive(Drop)]
pub(crate) struct Ring {
    slots: Words,
    oldest: usize,
    len: usize,
}

impl Model for Ring {
    ghost use Rattle.std.specs.Prelude.{◌<◌, ◌≤◌, ◌^◌, length};
    ghost use Rattle.sp_seq.specs.Rows.{WordQueue, window};

    ghost Value = { WordQueue };

    ghost view = { λ q. record { width = q.slots.width; room = length q.slots.words; words = window q.oldest q.len q.slots.words } };

    ghost invariant = { λ q. (q.oldest < length q.slots.words) × (q.len ≤ length q.slots.words) × (length q.slots.words < 2 ^ 63) };
}

impl Ring {
    /// A queue without words, with room for so many.
    pub(crate) fn new(alloc: Global, width: u8, room: usize) -> Result<Ring, NoMemory>
        requires bits { IsBits width }
        requires some { 1 ≤ room }
        ensures width { IfOk result (λ q. q.width ≡ width) }
        ensures room { IfOk result (λ q. q.room ≡ room) }
        ensures words { IfOk result (λ q. q.words ≡ []) }
    {
        let slots = Words::new(alloc, width, room)?;
        Ok(Ring {
            slots,
            oldest: 0,
            len: 0,
        })
    }

    /// How many words wait in the queue.
    #[inline]
    pub(crate) fn len(&self) -> usize
        ensures words { result ≡ length self.now.words }
        ensures within { result ≤ self.now.room }
    {
        self.len
    }

    /// Whether no more words fit.
    #[inline]
    pub(crate) fn is_full(&self) -> bool
        ensures { result ≡ not (nat_lt (length self.now.words) self.now.room) }
    {
        self.len >= self.slots.len()
    }

    /// A word enters.
    #[inline]
    pub(crate) fn push(&mut self, word: u64)
        requires inside { length self.old.words < self.old.room }
        requires fits { word < 2 ^ self.old.width }
        ensures width { self.new.width ≡ self.old.width }
        ensures room { self.new.room ≡ self.old.room }
        ensures words { self.new.words ≡ self.old.words ++ word ∷ [] }
    {
        let at = (self.oldest + self.len) % self.slots.len();
        self.slots.set(at, word);
        self.len += 1;
    }

    /// The oldest word leaves, if there is one.
    #[inline]
    pub(crate) fn pop(&mut self) -> Option<u64>
        ensures width { self.new.width ≡ self.old.width }
        ensures room { self.new.room ≡ self.old.room }
        ensures oldest { result ≡ first self.old.words }
        ensures rest { self.new.words ≡ rest self.old.words }
        ensures fits { IfSome result (λ w. w < 2 ^ self.old.width) }
    {
        if self.len == 0 {
            return None;
        }
        let word = self.slots.get(self.oldest);
        self.oldest = (self.oldest + 1) % self.slots.len();
        self.len -= 1;
        Some(word)
    }

    /// All words leave.
    #[inline]
    pub(crate) fn clear(&mut self)
        ensures width { self.new.width ≡ self.old.width }
        ensures room { self.new.room ≡ self.old.room }
        ensures words { self.new.words ≡ [] }
    {
        self.len = 0;
    }
}
