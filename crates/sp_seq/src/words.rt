//! Words of one width, side by side.
ghost use Rattle.std.specs.Prelude.{◌≡◌, ◌<◌, ◌≤◌, ◌^◌, length, replicate, slice_index, slice_set, All, IfOk};
ghost use Rattle.sp_packed.specs.Elements.{IsWidth};
ghost use Rattle.sp_seq.specs.Rows.{IsBits};

use crate::NoMemory;
use sp_packed::Packed;
use std::alloc::Global;
use std::marker::Model;

/// Words of `width` bits, each in the fewest bytes of 1, 2, 4 and 8 that hold it.
#[derive(Drop)]
pub(crate) struct Words {
    width: u8,
    words: Packed,
}

impl Model for Words {
    ghost use Rattle.std.specs.Prelude.{◌<◌, ◌≤◌, ◌^◌, All};
    ghost use Rattle.sp_seq.specs.Rows.{WordRow};

    ghost Value = { WordRow };

    ghost view = { λ r. record { width = r.width; words = r.words.numbers } };

    ghost invariant = { λ r. All (λ w. w < 2 ^ r.width) r.words.numbers × (2 ^ r.width ≤ 256 ^ r.words.bytes_each) };
}

/// The fewest bytes of 1, 2, 4 and 8 that hold so many bits.
fn bytes_for(width: u8) -> u8
    requires { IsBits width }
    ensures width { IsWidth result }
    ensures holds { 2 ^ width ≤ 256 ^ result }
{
    match width {
        0..=8 => 1,
        9..=16 => 2,
        17..=32 => 4,
        _ => 8,
    }
}

impl Words {
    /// So many words, all of them 0.
    pub(crate) fn new(alloc: Global, width: u8, len: usize) -> Result<Words, NoMemory>
        requires { IsBits width }
        ensures width { IfOk result (λ r. r.width ≡ width) }
        ensures words { IfOk result (λ r. r.words ≡ replicate len 0) }
        ensures fits { IfOk result (λ _. len < 2 ^ 63) }
    {
        let words = Packed::new(alloc, bytes_for(width), len)?;
        Ok(Words { width, words })
    }

    /// These words, side by side.
    pub(crate) fn of(alloc: Global, width: u8, given: &[u64]) -> Result<Words, NoMemory>
        requires bits { IsBits width }
        requires fit { All (λ w. w < 2 ^ width) given.now }
        ensures width { IfOk result (λ r. r.width ≡ width) }
        ensures words { IfOk result (λ r. r.words ≡ given.now) }
    {
        let mut words = Words::new(alloc, width, given.len())?;
        for i in 0..given.len() {
            words.set(i, given[i]);
        }
        Ok(words)
    }

    /// The word at a place.
    #[inline]
    pub(crate) fn get(&self, at: usize) -> u64
        requires { at < length self.now.words }
        ensures word { result ≡ slice_index self.now.words at }
        ensures fits { result < 2 ^ self.now.width }
    {
        self.words.get(at)
    }

    /// Another word at a place.
    #[inline]
    pub(crate) fn set(&mut self, at: usize, word: u64)
        requires inside { at < length self.old.words }
        requires fits { word < 2 ^ self.old.width }
        ensures width { self.new.width ≡ self.old.width }
        ensures words { self.new.words ≡ slice_set self.old.words at word }
    {
        self.words.set(at, word);
    }

    /// How many words there are.
    #[inline]
    pub(crate) fn len(&self) -> usize
        ensures { result ≡ length self.now.words }
    {
        self.words.len()
    }

    /// All words in order.
    pub(crate) fn to_vec(&self, alloc: Global) -> Result<Vec<u64>, NoMemory>
        ensures { IfOk result (λ v. v.items ≡ self.now.words) }
    {
        let mut all = Vec::with_capacity(alloc, self.words.len())?;
        for at in 0..self.words.len() {
            all.push(self.words.get(at))?;
        }
        Ok(all)
    }
}
