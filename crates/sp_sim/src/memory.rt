//! Memories of words: banks and DRAMs.
ghost use Rattle.std.specs.Prelude.{◌≡◌, ◌<◌, ◌≤◌, ◌^◌, replicate, slice_index, slice_set, All, IfOk};
ghost use Rattle.sp_netlist.specs.Rules.{IsWidth};
ghost use Rattle.sp_packed.specs.Elements.{IsWidth as IsByteWidth};
ghost use Rattle.sp_sim.specs.Memories.{word_at, width_at, written};

use crate::NoMemory;
use sp_packed::Packed;
use std::alloc::Global;
use std::marker::Model;

/// Words of `width` bits, each in the fewest bytes of 1, 2, 4 and 8 that hold it.
#[derive(Drop)]
pub(crate) struct Memory {
    width: u8,
    words: Packed,
}

impl Model for Memory {
    ghost use Rattle.std.specs.Prelude.{◌<◌, ◌≤◌, ◌^◌, All};
    ghost use Rattle.sp_sim.specs.Memories.{Words};

    ghost Value = { Words };

    ghost view = { λ m. record { width = m.width; words = m.words.numbers } };

    ghost invariant = { λ m. All (λ w. w < 2 ^ m.width) m.words.numbers × (2 ^ m.width ≤ 256 ^ m.words.bytes_each) };
}

/// The fewest bytes of 1, 2, 4 and 8 that hold so many bits.
fn bytes_for(width: u8) -> u8
    requires { IsWidth width }
    ensures width { IsByteWidth result }
    ensures holds { 2 ^ width ≤ 256 ^ result }
{
    match width {
        0..=8 => 1,
        9..=16 => 2,
        17..=32 => 4,
        _ => 8,
    }
}

impl Memory {
    /// So many words, all of them 0.
    pub(crate) fn new(alloc: Global, width: u8, len: usize) -> Result<Memory, NoMemory>
        requires { IsWidth width }
        ensures width { IfOk result (λ m. m.width ≡ width) }
        ensures words { IfOk result (λ m. m.words ≡ replicate len 0) }
    {
        let words = Packed::new(alloc, bytes_for(width), len)?;
        Ok(Memory { width, words })
    }

    /// These words.
    pub(crate) fn of(alloc: Global, width: u8, contents: &[u64]) -> Result<Memory, NoMemory>
        requires width { IsWidth width }
        requires fit { All (λ w. w < 2 ^ width) contents.now }
        ensures width { IfOk result (λ m. m.width ≡ width) }
        ensures words { IfOk result (λ m. m.words ≡ contents.now) }
    {
        let mut memory = Memory::new(alloc, width, contents.len())?;
        for i in 0..contents.len() {
            memory.write(i as u64, contents[i]);
        }
        Ok(memory)
    }

    /// The word at an address, and 0 past the end.
    pub(crate) fn read(&self, addr: u64) -> u64
        ensures word { result ≡ slice_index self.now.words addr }
        ensures fits { result < 2 ^ self.now.width }
    {
        if addr < self.words.len() as u64 {
            self.words.get(addr as usize)
        } else {
            0
        }
    }

    /// Puts a word at an address. Past the end nothing changes.
    pub(crate) fn write(&mut self, addr: u64, word: u64)
        requires { word < 2 ^ self.old.width }
        ensures width { self.new.width ≡ self.old.width }
        ensures words { self.new.words ≡ slice_set self.old.words addr word }
    {
        if addr < self.words.len() as u64 {
            self.words.set(addr as usize, word);
        }
    }

    /// All words in order.
    pub(crate) fn contents(&self, alloc: Global) -> Result<Vec<u64>, NoMemory>
        ensures { IfOk result (λ v. v.items ≡ self.now.words) }
    {
        let mut all = Vec::with_capacity(alloc, self.words.len())?;
        for i in 0..self.words.len() {
            all.push(self.words.get(i))?;
        }
        Ok(all)
    }
}

/// The word at an address of the memory of that number, and 0 where there is none.
#[tactic(auto, unfolding(crate::specs::Memories::word_at, crate::specs::Memories::width_at))]
pub(crate) fn read_at(memories: &[Memory], number: u64, addr: u64) -> u64
    ensures word { result ≡ word_at memories.now number addr }
    ensures fits { result < 2 ^ width_at memories.now number }
{
    if number < memories.len() as u64 {
        let memory = &memories[number as usize];
        memory.read(addr)
    } else {
        0
    }
}

/// Puts a word at an address of the memory of that number, if there is that place.
#[tactic(auto, unfolding(crate::specs::Memories::width_at, crate::specs::Memories::written))]
pub(crate) fn write_at(memories: &mut [Memory], number: u64, addr: u64, word: u64)
    requires { word < 2 ^ width_at memories.old number }
    ensures { memories.new ≡ written memories.old number addr word }
{
    if number < memories.len() as u64 {
        let memory = &mut memories[number as usize];
        memory.write(addr, word);
    }
}
