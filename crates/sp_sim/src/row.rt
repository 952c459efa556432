//! Rows of words, by nets.
ghost use Rattle.std.specs.Prelude.{◌≡◌, ℕ, List, length, map, IsTrue, IfOk, OnOk, All, Contains};
ghost use Rattle.std.specs.List.{fold};
ghost use Rattle.std.specs.List.Sorted.{IsStrictlyIncreasing};
ghost use Rattle.sp_netlist.specs.Rules.{IsNetlist};
ghost use Rattle.sp_sim.specs.Rows.{word_of, with_word, nets_of, IsDense, IsPlaceOf};
ghost use Rattle.sp_sim.specs.Runs.{runs_cells, AreNetsOf, IsRunWithin};
ghost use Rattle.sp_sim.specs.Settling.{IsRow, settle_cell};

use crate::NoMemory;
use crate::run::Run;
use crate::settle::settle_runs;
use sp_netlist::{NetId, Netlist};
use std::alloc::Global;
use std::marker::Model;

/// Whether the nets are 0, 1, 2, ..
fn is_dense(nets: &[u64]) -> bool
    ensures { IsTrue result → IsDense nets.now }
{
    for (place, net) in nets.iter().enumerate() {
        if *net != place as u64 {
            return false;
        }
    }
    true
}

/// The place of a number among those that ascend, or how many they are where it isn't one of them. Kept apart, so that
/// dense nets don't pay for it.
#[inline(never)]
pub(crate) fn searched(nets: &[u64], number: u64) -> usize
    requires { IsStrictlyIncreasing nets.now }
    ensures { IsPlaceOf nets.now number result }
{
    match nets.binary_search(&number) {
        Ok(place) => place,
        Err(_) => nets.len(),
    }
}

/// The place of a net among those that ascend, or their number where it isn't one of them.
#[inline]
fn place_of(nets: &[u64], dense: bool, net: NetId) -> usize
    requires ascending { IsStrictlyIncreasing nets.now }
    requires dense { IsTrue dense → IsDense nets.now }
    ensures { IsPlaceOf nets.now net result }
{
    let number = net.number();
    if dense {
        return number as usize;
    }
    searched(nets, number)
}

/// A word for each of some nets, which ascend.
#[derive(Drop)]
pub(crate) struct Row {
    nets: Vec<u64>,
    words: Vec<u64>,
    // Whether the nets are 0, 1, 2, .., so that each is its own place.
    dense: bool,
}

impl Model for Row {
    ghost use Rattle.std.specs.Prelude.{◌≡◌, ℕ, List, length, IsTrue};
    ghost use Rattle.std.specs.List.{zip};
    ghost use Rattle.std.specs.List.Sorted.{IsStrictlyIncreasing};
    ghost use Rattle.sp_sim.specs.Rows.{IsDense};

    ghost Value = { List (ℕ × ℕ) };

    ghost view = { λ r. zip r.nets.items r.words.items };

    ghost invariant = { λ r. IsStrictlyIncreasing r.nets.items × (length r.words.items ≡ length r.nets.items) × (IsTrue r.dense → IsDense r.nets.items) };
}

impl Row {
    /// A row with the word 0 for each net.
    pub(crate) fn new(alloc: Global, nets: &[u64]) -> Result<Row, NoMemory>
        requires { IsStrictlyIncreasing nets.now }
        ensures { IfOk result (λ row. row ≡ map (λ n. (n, 0)) nets.now) }
    {
        let words = vec![in alloc; 0u64; nets.len()]?;
        let dense = is_dense(nets);
        let nets = Vec::from_slice(alloc, nets)?;
        Ok(Row { nets, words, dense })
    }

    /// The word of a net, and 0 where it has none.
    #[inline]
    pub(crate) fn get(&self, net: NetId) -> u64
        ensures { result ≡ word_of self.now net }
    {
        let place = place_of(&self.nets, self.dense, net);
        if place < self.words.len() {
            self.words[place]
        } else {
            0
        }
    }

    /// Gives a net that stands in the row another word.
    #[inline]
    pub(crate) fn put(&mut self, net: NetId, word: u64)
        ensures { self.new ≡ with_word self.old net word }
    {
        let place = place_of(&self.nets, self.dense, net);
        if place < self.words.len() {
            self.words[place] = word;
        }
    }

    /// Carries out these runs, one after the other.
    pub(crate) fn settle(&mut self, netlist: &Netlist, runs: &[Run])
        requires netlist { IsNetlist netlist.now }
        requires runs { (nets : List ℕ) → AreNetsOf netlist.now nets → All (IsRunWithin (length nets)) runs.now × All (Contains netlist.now) (runs_cells nets runs.now) }
        requires is_row { IsRow netlist.now self.old }
        ensures nets { AreNetsOf netlist.now (nets_of self.old) }
        ensures settled { self.new ≡ fold settle_cell self.old (runs_cells (nets_of self.old) runs.now) }
        ensures is_row { IsRow netlist.now self.new }
    {
        settle_runs(netlist, runs, &self.nets, &mut self.words);
    }

    /// Puts the words of these nets into `words`, in order.
    pub(crate) fn put_into(&self, nets: &[NetId], words: &mut Vec<u64>) -> Result<(), NoMemory>
        ensures { OnOk result (words.new.items ≡ map (word_of self.now) nets.now) }
    {
        words.clear();
        for net in nets {
            words.push(self.get(*net))?;
        }
        Ok(())
    }
}
