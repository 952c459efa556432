//! The run of a program as the netlist that it is compiled to.
ghost use Rattle.std.specs.Prelude.{ℕ, IfOk, IfErr, OnOk, string_bytes};
ghost use Rattle.sp_setup.specs.Setup.{plain_setup};
ghost use Rattle.sp_tree.specs.ProgramParts.{plain_program};
ghost use Rattle.sp_top.specs.NetlistRun.{Takes};
ghost use Rattle.sp_top.specs.Seq.{RunsNetlist, RunStops, Stops, IsInput};
ghost use Rattle.sp_top.specs.Status.{plain_status};

use crate::compile::block_line;
use crate::simulate::run_text;
use crate::sinks::Texts;
use crate::status::Status;
use sp_build::build;
use sp_listing::write;
use sp_netlist::{ending_kept, one_ending};
use sp_seq::{Seq, SeqEnd};
use sp_setup::Setup;
use sp_tree::{Program, turns_decide};
use std::alloc::Global;

// Whether the program ends within the setup's turns, or why it doesn't.
fn ends_in_time(alloc: Global, program: &Program, setup: &Setup) -> Result<(), Status>
    requires { IsInput program.now.ports (plain_setup setup.now) }
    ensures takes { OnOk result ((turns : ℕ) × Takes (plain_program program.now) (plain_setup setup.now) turns) }
    ensures refused { IfErr result (λ status. Stops (plain_program program.now) (plain_setup setup.now) (plain_status status)) }
{
    let mut interpreter = Seq::load(alloc, program, &setup.input)?;
    match interpreter.run(setup.turns) {
        SeqEnd::Ended { .. } => Ok(()),
        SeqEnd::Fault { kind, at } => Err(Status::Fault { kind, at }),
        SeqEnd::TurnsSpent => Err(Status::TurnsSpent { turns: setup.turns }),
    }
}

/// Runs a program that ends within the setup's turns as its netlist: the result for `out`, and the netlist's listing for `aside`.
pub fn run_netlist(alloc: Global, program: &Program, setup: &Setup) -> Result<Texts, Status>
    requires { IsInput program.now.ports (plain_setup setup.now) }
    ensures texts { IfOk result (λ texts. RunsNetlist (plain_program program.now) (plain_setup setup.now) (string_bytes texts.out) (string_bytes texts.aside)) }
    ensures refused { IfErr result (λ status. RunStops (plain_program program.now) (plain_setup setup.now) (plain_status status)) }
{
    ending_kept();
    one_ending();
    turns_decide();
    // What every program keeps.
    program.mems();
    ends_in_time(alloc, program, setup)?;
    let Some(netlist) = build(alloc, program)? else {
        return Err(Status::Unbuilt {
            line: block_line(program),
        });
    };
    let listing = write(alloc, &netlist)?;
    match run_text(alloc, &netlist, setup, u64::MAX) {
        Ok(out) => Ok(Texts {
            out,
            aside: listing,
        }),
        // (Memory is all that can be wanting: the netlist is done within its limit, without a conflict. Only past 2^64 cycles, which no
        // machine runs, the count would end first.)
        Err(_) => Err(Status::Memory),
    }
}
