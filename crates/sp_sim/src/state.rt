//! The state of a simulation, and one cycle of it.
ghost use Rattle.std.specs.Prelude.{◌≡◌, ℕ, suc, List, length, count_by};
ghost use Rattle.sp_netlist.specs.Rules.{is_dram, IsNetlist};
ghost use Rattle.sp_netlist.specs.Signals.{Setting, Signals};
ghost use Rattle.sp_netlist.specs.Quiet.{IsQuiet};
ghost use Rattle.sp_sim.specs.Rows.{word_of};
ghost use Rattle.sp_sim.specs.Programs.{IsProgram};
ghost use Rattle.sp_sim.specs.States.{IsState, StandsIn, LookedIn, TurnedIn, finding};

use crate::conflict::conflict;
use crate::hold::hold;
use crate::memory::Memory;
use crate::over::is_over;
use crate::phase::Phase;
use crate::program::Program;
use crate::row::Row;
use crate::serve::serve;
use crate::write::{write_banks, write_drams};
use sp_netlist::{Netlist, Port};

/// What is kept from cycle to cycle, and what a cycle needs besides: the row in which the next one's words
/// are put, and the counts of enabled taps.
#[derive(Drop)]
pub(crate) struct State {
    pub(crate) row: Row,
    pub(crate) next: Row,
    pub(crate) banks: Vec<Memory>,
    pub(crate) drams: Vec<Memory>,
    pub(crate) phases: Vec<Phase>,
    // How many of the delays were taken.
    pub(crate) taken: usize,
    pub(crate) reads: Vec<u8>,
    pub(crate) writes: Vec<u8>,
}

/// What is found in a cycle.
#[derive(Clone, Copy)]
pub(crate) enum Found {
    Nothing,
    Over,
    Shared(u64, Port),
}

/// A conflict goes first.
fn found_by(clash: Option<(u64, Port)>, over: bool) -> Found
    ensures { result ≡ finding clash over }
{
    match clash {
        Some(shared) => Found::Shared(shared.0, shared.1),
        None if over => Found::Over,
        None => Found::Nothing,
    }
}

/// Gives each net its word in this cycle, and tells whether the run ends there.
pub(crate) fn look(netlist: &Netlist, program: &Program, state: &mut State) -> Found
    requires netlist { IsNetlist netlist.now }
    requires program { IsProgram netlist.now program.now }
    requires state { IsState netlist.now state.old }
    ensures state { IsState netlist.now state.new }
    ensures looked { (args : List ℕ) (drams : List (List ℕ)) (delays : List ℕ) (s : Signals) (t : ℕ)
        → IsQuiet (record { cells = netlist.now; args = args; drams = drams; delays = delays }) s
        → StandsIn (record { cells = netlist.now; args = args; drams = drams; delays = delays }) s t state.old
        → LookedIn (record { cells = netlist.now; args = args; drams = drams; delays = delays }) s t state.new result }
{
    state.row.settle(netlist, &program.runs);
    let clash = conflict(
        &program.reads,
        &program.writes,
        &state.row,
        &mut state.reads,
        &mut state.writes,
    );
    let over = is_over(&program.dones, &state.row);
    found_by(clash, over)
}

/// Everything acts at once: the state goes to the next cycle.
pub(crate) fn advance(netlist: &Netlist, program: &Program, delays: &[u32], state: &mut State)
    requires netlist { IsNetlist netlist.now }
    requires program { IsProgram netlist.now program.now }
    requires state { IsState netlist.now state.old }
    ensures state { IsState netlist.now state.new }
    ensures stands { (args : List ℕ) (drams : List (List ℕ)) (s : Signals) (t : ℕ)
        → length drams ≡ count_by is_dram netlist.now
        → IsQuiet (record { cells = netlist.now; args = args; drams = drams; delays = delays.now }) s
        → StandsIn (record { cells = netlist.now; args = args; drams = drams; delays = delays.now }) s t state.old
        → word_of state.old.row ≡ s.net t
        → StandsIn (record { cells = netlist.now; args = args; drams = drams; delays = delays.now }) s (suc t) state.new }
{
    let _cells = netlist.cells();
    state.taken = serve(
        &program.units,
        &state.row,
        &mut state.phases,
        delays,
        state.taken,
    );
    hold(
        &program.kept,
        &state.row,
        &state.banks,
        &state.drams,
        &state.phases,
        &mut state.next,
    );
    write_banks(&program.writes, &state.row, &mut state.banks);
    write_drams(&program.units, &state.row, &mut state.drams);
    std::mem::swap(&mut state.row, &mut state.next);
}

/// One cycle: the state goes to the next one, unless the run ends here.
pub(crate) fn turn(netlist: &Netlist, program: &Program, delays: &[u32], state: &mut State) -> Found
    requires netlist { IsNetlist netlist.now }
    requires program { IsProgram netlist.now program.now }
    requires state { IsState netlist.now state.old }
    ensures state { IsState netlist.now state.new }
    ensures turned { (args : List ℕ) (drams : List (List ℕ)) (s : Signals) (t : ℕ)
        → length drams ≡ count_by is_dram netlist.now
        → IsQuiet (record { cells = netlist.now; args = args; drams = drams; delays = delays.now }) s
        → StandsIn (record { cells = netlist.now; args = args; drams = drams; delays = delays.now }) s t state.old
        → TurnedIn (record { cells = netlist.now; args = args; drams = drams; delays = delays.now }) s t state.new result }
{
    let found = look(netlist, program, state);
    if let Found::Nothing = found {
        advance(netlist, program, delays, state);
    }
    found
}
