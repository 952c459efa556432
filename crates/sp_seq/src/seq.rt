//! A program that is run on an input, statement by statement.
ghost use Rattle.std.specs.Prelude.{◌≡◌};

use crate::NoMemory;
use crate::end::{Run, SeqEnd};
use crate::load::first_state;
use crate::over::results;
use crate::start::go;
use crate::state::State;
use sp_tree::Program;
use sp_words::{Input, Output};
use std::alloc::Global;
use std::marker::Model;

/// A program that is run, once, on an input. All memory is taken when it is loaded.
#[derive(Drop)]
pub struct Seq<'a> {
    program: &'a Program,
    input: &'a Input,
    state: State,
    ran: Option<Run>,
}

impl<'a> Model for Seq<'a> {
    ghost use Rattle.sp_words.specs.Ports.{plain_input};
    ghost use Rattle.sp_tree.specs.ProgramParts.{plain_program};
    ghost use Rattle.sp_seq.specs.Loading.{IsSeq, run_of};
    ghost use Rattle.sp_seq.specs.Progress.{Progress};
    ghost use Rattle.std.specs.Coded.{codes};
    ghost use Rattle.sp_tree.specs.contracts.statement.Stmt as stmt;

    ghost Value = { Progress };

    ghost coded = { Prim.hlevel (codes, stmt.the_row.coded) };

    ghost view = { λ m. record { program = m.program.now; input = plain_input m.input.now; ran = run_of m.ran } };

    ghost invariant = { λ m. IsSeq (plain_program m.program.now) (plain_input m.input.now) (run_of m.ran) m.state };
}

impl<'a> Seq<'a> {
    ghost use Rattle.std.specs.Prelude.{◌≡◌, None, IfOk};
    ghost use Rattle.sp_words.specs.Ports.{plain_input};
    ghost use Rattle.sp_seq.specs.Progress.{InputFits};

    /// The program with an input that fits its ports, before its run.
    pub fn load(alloc: Global, program: &'a Program, input: &'a Input) -> Result<Seq<'a>, NoMemory>
        requires { InputFits program.now.ports (plain_input input.now) }
        ensures { IfOk result (λ seq. seq ≡ record { program = program.now; input = plain_input input.now; ran = None }) }
    {
        let state = first_state(alloc, program, input)?;
        Ok(Seq {
            program,
            input,
            state,
            ran: None,
        })
    }
}

impl Seq<'_> {
    ghost use Rattle.std.specs.Prelude.{◌≡◌, map, IfOk, Some, None};
    ghost use Rattle.sp_tree.specs.Meaning.{seq};
    ghost use Rattle.sp_tree.specs.ProgramParts.{plain_program};
    ghost use Rattle.sp_seq.specs.Progress.{end_of, HasEnded, Leaves};

    /// Runs the program, with so many turns.
    pub fn run(&mut self, turns: u64) -> SeqEnd
        requires { self.old.ran ≡ None }
        ensures end { result ≡ end_of (seq turns (plain_program self.old.program) self.old.input) }
        ensures ran { self.new ≡ record { program = self.old.program; input = self.old.input; ran = Some (record { given = turns; end = result }) } }
    {
        let end = go(self.program, self.input, &mut self.state, turns);
        self.ran = Some(Run { given: turns, end });
        end
    }

    /// The words of the outputs and of the DRAMs after a run that ended.
    pub fn outputs(&self, alloc: Global) -> Result<Output, NoMemory>
        requires { HasEnded self.now.ran }
        ensures { IfOk result (λ o. Leaves self.now o.outs.items (map (λ words. words.items) o.drams.items)) }
    {
        results(alloc, self.program, &self.state)
    }
}
