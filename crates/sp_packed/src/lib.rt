//! Unsigned numbers of 1, 2, 4 or 8 bytes each, packed side by side in one raw block of memory.
//!
//! A contract sees a `Packed` as the width of an element and the list of its numbers.
#![tactic(auto)]

mod block;
mod raw;

ghost use Rattle.std.specs.Prelude.{◌≡◌, ℕ, ◌*◌, ◌^◌, ◌<◌, length, replicate, slice_get, slice_set, Some, IfOk, IsOk};
ghost use Rattle.sp_packed.specs.Elements.{IsWidth};

use crate::block::Block;
pub use std::alloc::AllocError as NoMemory;
use std::alloc::Global;
use std::marker::Model;

/// The block, by the width of its elements in bytes.
#[derive(Drop)]
enum Words {
    // No number takes no memory.
    Empty { bytes_each: u8 },
    One(Block<u8>),
    Two(Block<u16>),
    Four(Block<u32>),
    Eight(Block<u64>),
}

/// A row of numbers of one width, of a length that is fixed when it is made.
#[derive(Drop)]
pub struct Packed {
    words: Words,
}

impl Model for Packed {
    ghost use Rattle.sp_packed.specs.Elements.{Elements, elements_code};
    ghost use Rattle.sp_packed.specs.Words.{elements_of};

    ghost Value = { Elements };

    ghost coded = { elements_code };

    ghost view = { λ p. elements_of p.words };
}

impl Packed {
    /// Takes one block of `bytes_each * len` bytes, and sets each number to 0. No block is taken where
    /// `len` is 0. `NoMemory` also where no block can have so many bytes.
    pub fn new(alloc: Global, bytes_each: u8, len: usize) -> Result<Packed, NoMemory>
        requires { IsWidth bytes_each }
        ensures width { IfOk result (λ p. p.bytes_each ≡ bytes_each) }
        ensures numbers { IfOk result (λ p. p.numbers ≡ replicate len 0) }
        ensures fits { IfOk result (λ _. bytes_each * len < 2 ^ 63) }
        ensures succeeds { len ≡ 0 → IsOk result }
    {
        if len == 0 {
            let words = Words::Empty { bytes_each };
            return Ok(Packed { words });
        }
        if len > isize::MAX as usize / bytes_each as usize {
            return Err(NoMemory);
        }
        let words = match bytes_each {
            1 => Words::One(Block::filled(alloc, len, 0)?),
            2 => Words::Two(Block::filled(alloc, len, 0)?),
            4 => Words::Four(Block::filled(alloc, len, 0)?),
            _ => Words::Eight(Block::filled(alloc, len, 0)?),
        };
        Ok(Packed { words })
    }

    /// The number at `i`. It takes one load and no test of `i`.
    #[inline]
    pub fn get(&self, i: usize) -> u64
        requires { i < length self.now.numbers }
        ensures number { slice_get self.now.numbers i ≡ Some result }
        ensures fits { result < 256 ^ self.now.bytes_each }
    {
        match &self.words {
            Words::Empty { .. } => unreachable!(),
            Words::One(block) => block.get(i) as u64,
            Words::Two(block) => block.get(i) as u64,
            Words::Four(block) => block.get(i) as u64,
            Words::Eight(block) => block.get(i),
        }
    }

    /// Sets the number at `i` to `v`. It takes one store and no test of `i`.
    #[inline]
    pub fn set(&mut self, i: usize, v: u64)
        requires inside { i < length self.old.numbers }
        requires fits { v < 256 ^ self.old.bytes_each }
        ensures numbers { self.new.numbers ≡ slice_set self.old.numbers i v }
        ensures width { self.new.bytes_each ≡ self.old.bytes_each }
    {
        match &mut self.words {
            Words::Empty { .. } => unreachable!(),
            Words::One(block) => block.set(i, v as u8),
            Words::Two(block) => block.set(i, v as u16),
            Words::Four(block) => block.set(i, v as u32),
            Words::Eight(block) => block.set(i, v),
        }
    }

    /// Sets every number to `v`.
    pub fn fill(&mut self, v: u64)
        requires { v < 256 ^ self.old.bytes_each }
        ensures numbers { self.new.numbers ≡ replicate (length self.old.numbers) v }
        ensures width { self.new.bytes_each ≡ self.old.bytes_each }
    {
        match &mut self.words {
            Words::Empty { .. } => {}
            Words::One(block) => block.fill(v as u8),
            Words::Two(block) => block.fill(v as u16),
            Words::Four(block) => block.fill(v as u32),
            Words::Eight(block) => block.fill(v),
        }
    }

    /// How many numbers there are.
    #[inline]
    pub fn len(&self) -> usize
        ensures { result ≡ length self.now.numbers }
    {
        match &self.words {
            Words::Empty { .. } => 0,
            Words::One(block) => block.len(),
            Words::Two(block) => block.len(),
            Words::Four(block) => block.len(),
            Words::Eight(block) => block.len(),
        }
    }
}
