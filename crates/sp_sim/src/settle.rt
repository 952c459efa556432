//! The nets that are computed.
ghost use Rattle.std.specs.Prelude.{◌≡◌, ℕ, ◌<◌, ◌^◌, length, map, slice_index, All, Contains};
ghost use Rattle.std.specs.List.{fold, zip};
ghost use Rattle.std.specs.List.Sorted.{IsStrictlyIncreasing};
ghost use Rattle.sp_netlist.specs.Rules.{IsNetlist};
ghost use Rattle.sp_sim.specs.Runs.{cell_in, runs_cells, AreWithin, IsRunWithin};
ghost use Rattle.sp_sim.specs.Settling.{IsRow, settle_cell};
ghost use Rattle.sp_sim.specs.Steps.{word_by, width_by, Fit};

use crate::run::{Places, Run};
use crate::step::{Task, is_below, product, shifted};
use sp_netlist::Netlist;

/// The word at a place.
#[inline(always)]
fn word_at(words: &[u64], place: usize) -> u64
    requires { place < length words.now }
    ensures { result ≡ slice_index words.now place }
{
    words[place]
}

/// Puts the word that the task computes of the words at these places.
#[inline(always)]
fn put_word(netlist: &Netlist, task: Task, at: Places, nets: &[u64], words: &mut [u64], word: u64)
    requires netlist { IsNetlist netlist.now }
    requires stands { Contains netlist.now (cell_in nets.now task at) }
    requires within { AreWithin (length nets.now) at }
    requires ascending { IsStrictlyIncreasing nets.now }
    requires long { length words.old ≡ length nets.now }
    requires is_row { IsRow netlist.now (zip nets.now words.old) }
    requires word { word ≡ word_by task (slice_index words.old at.first) (slice_index words.old at.second) (slice_index words.old at.third) }
    requires fits { word < 2 ^ width_by task }
    ensures settled { zip nets.now words.new ≡ settle_cell (zip nets.now words.old) (cell_in nets.now task at) }
    ensures is_row { IsRow netlist.now (zip nets.now words.new) }
    ensures long { length words.new ≡ length nets.now }
{
    words[at.net] = word;
}

/// Carries out steps of a task that `compute` computes, one after the other.
#[inline(always)]
fn settle_with<F: Fn(u64, u64, u64) -> u64>(
    netlist: &Netlist,
    task: Task,
    places: &[Places],
    nets: &[u64],
    words: &mut [u64],
    compute: F,
)
    requires netlist { IsNetlist netlist.now }
    requires stand { All (Contains netlist.now) (map (cell_in nets.now task) places.now) }
    requires within { All (AreWithin (length nets.now)) places.now }
    requires ascending { IsStrictlyIncreasing nets.now }
    requires long { length words.old ≡ length nets.now }
    requires is_row { IsRow netlist.now (zip nets.now words.old) }
    requires callable { (x y z : ℕ) → Fit task x y z → F.pre compute x y z }
    requires computes { (x y z r : ℕ) → Fit task x y z → F.post compute x y z r → (r ≡ word_by task x y z) × (r < 2 ^ width_by task) }
    ensures settled { zip nets.now words.new ≡ fold settle_cell (zip nets.now words.old) (map (cell_in nets.now task) places.now) }
    ensures is_row { IsRow netlist.now (zip nets.now words.new) }
    ensures long { length words.new ≡ length nets.now }
{
    for at in places {
        let first = word_at(words, at.first);
        let second = word_at(words, at.second);
        let third = word_at(words, at.third);
        let word = compute(first, second, third);
        put_word(netlist, task, *at, nets, words, word);
    }
}

/// Carries out a run: each task has a loop of its own.
fn settle_run(netlist: &Netlist, task: Task, places: &[Places], nets: &[u64], words: &mut [u64])
    requires netlist { IsNetlist netlist.now }
    requires stand { All (Contains netlist.now) (map (cell_in nets.now task) places.now) }
    requires within { All (AreWithin (length nets.now)) places.now }
    requires ascending { IsStrictlyIncreasing nets.now }
    requires long { length words.old ≡ length nets.now }
    requires is_row { IsRow netlist.now (zip nets.now words.old) }
    ensures settled { zip nets.now words.new ≡ fold settle_cell (zip nets.now words.old) (map (cell_in nets.now task) places.now) }
    ensures is_row { IsRow netlist.now (zip nets.now words.new) }
    ensures long { length words.new ≡ length nets.now }
{
    match task {
        Task::Add(ty) => settle_with(
            netlist,
            task,
            places,
            nets,
            words,
            |x, y, _| sp_words::add(ty, x, y),
        ),
        Task::Sub(ty) => settle_with(
            netlist,
            task,
            places,
            nets,
            words,
            |x, y, _| sp_words::sub(ty, x, y),
        ),
        Task::Mul(ty) => settle_with(
            netlist,
            task,
            places,
            nets,
            words,
            |x, y, _| product(ty, x, y),
        ),
        Task::Div(ty) => settle_with(
            netlist,
            task,
            places,
            nets,
            words,
            |x, y, _| sp_words::div(ty, x, y),
        ),
        Task::Rem(ty) => settle_with(
            netlist,
            task,
            places,
            nets,
            words,
            |x, y, _| sp_words::rem(ty, x, y),
        ),
        Task::And(ty) => settle_with(
            netlist,
            task,
            places,
            nets,
            words,
            |x, y, _| sp_words::and(ty, x, y),
        ),
        Task::Or(ty) => settle_with(
            netlist,
            task,
            places,
            nets,
            words,
            |x, y, _| sp_words::or(ty, x, y),
        ),
        Task::Xor(ty) => settle_with(
            netlist,
            task,
            places,
            nets,
            words,
            |x, y, _| sp_words::xor(ty, x, y),
        ),
        Task::Min(ty) => settle_with(
            netlist,
            task,
            places,
            nets,
            words,
            |x, y, _| sp_words::min(ty, x, y),
        ),
        Task::Max(ty) => settle_with(
            netlist,
            task,
            places,
            nets,
            words,
            |x, y, _| sp_words::max(ty, x, y),
        ),
        Task::Lt(ty) => settle_with(
            netlist,
            task,
            places,
            nets,
            words,
            |x, y, _| u64::from(is_below(ty, x, y)),
        ),
        Task::Eq(ty) => settle_with(
            netlist,
            task,
            places,
            nets,
            words,
            |x, y, _| u64::from(sp_words::eq(ty, x, y)),
        ),
        Task::Not(ty) => settle_with(
            netlist,
            task,
            places,
            nets,
            words,
            |x, _, _| sp_words::not(ty, x),
        ),
        Task::Shl(ty, by) => settle_with(
            netlist,
            task,
            places,
            nets,
            words,
            |x, _, _| sp_words::shl(ty, x, by),
        ),
        Task::Shr(ty, by) => settle_with(
            netlist,
            task,
            places,
            nets,
            words,
            |x, _, _| shifted(ty, x, by),
        ),
        Task::Cast(from, to) => settle_with(
            netlist,
            task,
            places,
            nets,
            words,
            |x, _, _| sp_words::cast(from, to, x),
        ),
        Task::Choose(_) => settle_with(netlist, task, places, nets, words, |x, y, z| {
            if z == 1 { x } else { y }
        }),
    }
}

/// Carries out these runs, one after the other.
pub(crate) fn settle_runs(netlist: &Netlist, runs: &[Run], nets: &[u64], words: &mut [u64])
    requires netlist { IsNetlist netlist.now }
    requires stand { All (Contains netlist.now) (runs_cells nets.now runs.now) }
    requires within { All (IsRunWithin (length nets.now)) runs.now }
    requires ascending { IsStrictlyIncreasing nets.now }
    requires long { length words.old ≡ length nets.now }
    requires is_row { IsRow netlist.now (zip nets.now words.old) }
    ensures settled { zip nets.now words.new ≡ fold settle_cell (zip nets.now words.old) (runs_cells nets.now runs.now) }
    ensures is_row { IsRow netlist.now (zip nets.now words.new) }
    ensures long { length words.new ≡ length nets.now }
{
    for run in runs {
        settle_run(netlist, run.task, &run.places, nets, words);
    }
}
