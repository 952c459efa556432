//! A simulation of a netlist.
ghost use Rattle.std.specs.Prelude.{◌≡◌};
ghost use Rattle.sp_sim.specs.Sims as sims;

use crate::NoMemory;
use crate::end::{SimEnd, SimLoad};
use crate::given::first_fault;
use crate::load::first_state;
use crate::over::{contents, out_words};
use crate::program::{Program, program_of};
use crate::state::{Found, State, look, turn};
use sp_netlist::{NetId, Netlist, ending_kept, one_ending, quiet_run};
use sp_words::{Input, Output};
use std::alloc::Global;
use std::marker::Model;

/// A netlist that is run cycle by cycle on an input and a list of delays. All memory is taken when it is
/// loaded.
#[derive(Drop)]
pub struct Sim<'a> {
    netlist: &'a Netlist,
    input: &'a Input,
    delays: &'a [u32],
    program: Program,
    state: State,
    cycle: u64,
    ended: Option<SimEnd>,
}

impl<'a> Model for Sim<'a> {
    ghost use Rattle.sp_sim.specs.Progress.{Progress, setting_of};
    ghost use Rattle.sp_sim.specs.Sims.{IsSim};

    ghost Value = { Progress };

    ghost view = { λ m. record { setting = setting_of m.netlist.now m.input.now m.delays.now; cycle = m.cycle; ended = m.ended } };

    ghost invariant = { λ m. IsSim (setting_of m.netlist.now m.input.now m.delays.now) m.program m.cycle m.state m.ended };
}

/// What was found in a cycle, as the end of the run.
fn end_of(cycle: u64, found: Found) -> Option<SimEnd>
    ensures { result ≡ sims.end_of cycle found }
{
    match found {
        Found::Nothing => None,
        Found::Over => Some(SimEnd::Done { cycles: cycle }),
        Found::Shared(bank, port) => Some(SimEnd::Conflict { cycle, bank, port }),
    }
}

impl<'a> Sim<'a> {
    ghost use Rattle.std.specs.Prelude.{◌≡◌, ◌↔◌, ℕ, None, map, IfOk, OnOk};
    ghost use Rattle.sp_netlist.specs.Ports.{ports_of};
    ghost use Rattle.sp_netlist.specs.Refusals.{IsLeast};
    ghost use Rattle.sp_sim.specs.Progress.{setting_of};
    ghost use Rattle.sp_sim.specs.Given.{IsGiven, InputFault};

    /// A simulation that stands in cycle 0, of an input that fits the netlist. Whether it does is looked at before
    /// any memory is taken.
    pub fn load(
        alloc: Global,
        netlist: &'a Netlist,
        input: &'a Input,
        delays: &'a [u32],
    ) -> Result<Sim<'a>, SimLoad>
        ensures loaded { IfOk result (λ sim. sim ≡ record { setting = setting_of netlist.now input.now delays.now; cycle = 0; ended = None }) }
        ensures given { OnOk result (IsGiven netlist.now input.now.args.items (map (λ v. v.items) input.now.drams.items)) }
        ensures shape { (which : ℕ) → (result ≡ Err (SimLoad.InputShape which)) ↔ IsLeast (InputFault (ports_of netlist.now) input.now.args.items (map (λ v. v.items) input.now.drams.items)) which }
    {
        if let Some(which) = first_fault(netlist.ports(), input) {
            return Err(SimLoad::InputShape { which });
        }
        Ok(Sim::begin(alloc, netlist, input, delays)?)
    }

    /// The simulation of an input that fits.
    fn begin(
        alloc: Global,
        netlist: &'a Netlist,
        input: &'a Input,
        delays: &'a [u32],
    ) -> Result<Sim<'a>, NoMemory>
        requires { IsGiven netlist.now input.now.args.items (map (λ v. v.items) input.now.drams.items) }
        ensures { IfOk result (λ sim. sim ≡ record { setting = setting_of netlist.now input.now delays.now; cycle = 0; ended = None }) }
    {
        quiet_run();
        let _cells = netlist.cells();
        let program = program_of(alloc, netlist)?;
        let state = first_state(alloc, netlist, input)?;
        Ok(Sim {
            netlist,
            input,
            delays,
            program,
            state,
            cycle: 0,
            ended: None,
        })
    }
}

impl Sim<'_> {
    ghost use Rattle.std.specs.Prelude.{◌≡◌, ◌+◌, ◌-◌, ◌^◌, ◌<◌, min, map, IfOk, OnOk, IfSome, IfNone, Some, None};
    ghost use Rattle.sp_netlist.specs.Quiet.{IsQuiet};
    ghost use Rattle.sp_netlist.specs.Signals.{Signals};
    ghost use Rattle.sp_netlist.specs.Cycle.{done_in, Ends};
    ghost use Rattle.sp_sim.specs.Progress.{Tells, IsDone, IsEndIn, StepsTo, PeeksAt, RunsTo};
    ghost use Rattle.sp_sim.specs.Sims as sims;

    /// One cycle. After an end it answers the same again, and after 2^64 - 1 cycles without an end
    /// `CyclesSpent`; then it changes nothing.
    pub fn step(&mut self) -> Option<SimEnd>
        ensures ended { IfSome self.old.ended (λ end. (result ≡ Some end) × (self.new ≡ self.old)) }
        ensures spent { IfNone self.old.ended (self.old.cycle ≡ 2 ^ 64 - 1 → (result ≡ Some SimEnd.CyclesSpent) × (self.new ≡ self.old)) }
        ensures cycle { IfNone self.old.ended (self.old.cycle < 2 ^ 64 - 1 → StepsTo self.old result self.new) }
    {
        if let Some(end) = self.ended {
            return Some(end);
        }
        if self.cycle == u64::MAX {
            return Some(SimEnd::CyclesSpent);
        }
        one_ending();
        quiet_run();
        let found = turn(self.netlist, &self.program, self.delays, &mut self.state);
        let end = end_of(self.cycle, found);
        match end {
            None => self.cycle += 1,
            Some(_) => self.ended = end,
        }
        end
    }

    /// How the run ended, if it did.
    pub fn ended(&self) -> Option<SimEnd>
        ensures ended { result ≡ self.now.ended }
        ensures tells { IfSome result (λ end. Tells self.now.setting self.now.cycle end × IsEndIn self.now.cycle end) }
    {
        one_ending();
        quiet_run();
        self.ended
    }

    /// The cycle that comes next, or the one in which the run ended.
    pub fn cycle(&self) -> u64
        ensures { result ≡ self.now.cycle }
    {
        self.cycle
    }

    /// Looks at the cycle that comes next, and stays there.
    fn peek(&mut self) -> Option<SimEnd>
        requires { self.old.ended ≡ None }
        ensures { PeeksAt self.old result self.new }
    {
        one_ending();
        quiet_run();
        let found = look(self.netlist, &self.program, &mut self.state);
        let end = end_of(self.cycle, found);
        self.ended = end;
        end
    }

    /// The first end among the cycle in which the simulation stands and the `cycles` after it, but none past
    /// number 2^64 - 1. Where there is none it stands in the last of them, which has been looked at.
    pub fn run(&mut self, cycles: u64) -> SimEnd
        ensures end { Tells self.old.setting (min (self.old.cycle + cycles) (2 ^ 64 - 1)) result }
        ensures progress { RunsTo self.old (min (self.old.cycle + cycles) (2 ^ 64 - 1)) result self.new }
    {
        ending_kept();
        let from = self.cycle();
        if let Some(end) = self.ended() {
            return end;
        }
        let last = from.saturating_add(cycles);
        for _cycle in from..last {
            if let Some(end) = self.step() {
                return end;
            }
        }
        self.peek().unwrap_or(SimEnd::CyclesSpent)
    }

    /// Puts the words of these nets into `words`, as they stand in the cycle that comes next or in which the run
    /// ended. A net that no cell drives has the word 0.
    pub fn watch(&mut self, nets: &[NetId], words: &mut Vec<u64>) -> Result<(), NoMemory>
        ensures stays { self.new ≡ self.old }
        ensures words { OnOk result ((s : Signals) → IsQuiet self.old.setting s → words.new.items ≡ map (s.net self.old.cycle) nets.now) }
    {
        one_ending();
        quiet_run();
        look(self.netlist, &self.program, &mut self.state);
        self.state.row.put_into(nets, words)
    }

    /// The words of the outs and of the DRAMs in the cycle in which the run is done.
    pub fn outputs(&self, alloc: Global) -> Result<Output, NoMemory>
        requires { IsDone self.now.ended }
        ensures { IfOk result (λ o. Ends self.now.setting self.now.cycle (done_in self.now.cycle o.outs.items (map (λ v. v.items) o.drams.items))) }
    {
        one_ending();
        quiet_run();
        let cells = self.netlist.cells();
        let outs = out_words(alloc, cells, &self.state.row)?;
        let drams = contents(alloc, &self.state.drams)?;
        Ok(Output { outs, drams })
    }
}
