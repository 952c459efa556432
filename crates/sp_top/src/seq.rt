//! `seq P S` and `run P S`: a program is run on the input of a setup, statement by statement with the setup's turns, or as the
//! netlist that it is compiled to.
ghost use Rattle.std.specs.Prelude.{◌≡◌, ◌≤◌, ℕ, List, [], ◌∷◌, length, All, IfOk, IfErr, OnOk, string_bytes};
ghost use Rattle.sp_edges.specs.Counts.{Rose};
ghost use Rattle.sp_edges.specs.Calls.{given};
ghost use Rattle.sp_setup.specs.Setup.{plain_setup};
ghost use Rattle.sp_source.specs.Texts.{Spells};
ghost use Rattle.sp_tree.specs.ProgramParts.{plain_program};
ghost use Rattle.sp_words.specs.Interface.{Fits};
ghost use Rattle.sp_words.specs.Ports.{plain_ports};
ghost use Rattle.sp_top.specs.Check.{CheckRefuses, RefusesSource};
ghost use Rattle.sp_top.specs.Simulate.{GivesSetup, SetupRefuses};
ghost use Rattle.sp_top.specs.Seq.{GivesProgram, Leaves, LeavesBy, Stops, StopsBy, RunsProgram, RunRefuses, IsInput};
ghost use Rattle.sp_top.specs.Status.{plain_status};

use crate::compile::LONGEST_PROGRAM;
use crate::netlist_run::run_netlist;
use crate::reads::read_text;
use crate::result_text::turns_text;
use crate::simulate::setup_for;
use crate::sinks::Texts;
use crate::status::Status;
use sp_edges::Inputs;
use sp_seq::{Seq, SeqEnd};
use sp_setup::Setup;
use sp_source::program_of_text;
use sp_tree::Program;
use std::alloc::Global;

// The program that the bytes spell.
fn program_in(alloc: Global, bytes: &[u8]) -> Result<Program, Status>
    requires { length bytes.now ≤ 1048576 }
    ensures program { IfOk result (λ program. Spells bytes.now (plain_program program)) }
    ensures refused { IfErr result (λ status. RefusesSource bytes.now (plain_status status)) }
{
    let program = program_of_text(alloc, bytes)?;
    Ok(program)
}

// The program whose text stands under a name.
fn read_program<I: Inputs>(alloc: Global, name: &str, inputs: &mut I) -> Result<Program, Status>
    ensures given { IfOk result (λ program. GivesProgram (I.told inputs.old name.now) (plain_program program)) }
    ensures asks { OnOk result (I.asked inputs.old (given name.now ∷ []) inputs.new) }
    ensures refused { IfErr result (λ status. CheckRefuses (I.told inputs.old)
        (λ name. Rose (I.faults inputs.old) (I.faults inputs.new) × (I.sure inputs.old name → ⊥)) (λ calls. I.asked inputs.old calls inputs.new) name.now (plain_status status)) }
    ensures counts { I.faults inputs.old ≤ I.faults inputs.new }
    ensures tells { (n : List ℕ) → I.told inputs.new n ≡ I.told inputs.old n }
    ensures stays_sure { (n : List ℕ) → I.sure inputs.old n → I.sure inputs.new n }
{
    let bytes = read_text(alloc, name, LONGEST_PROGRAM, inputs)?;
    program_in(alloc, &bytes)
}

// The setup that stands under a name, for the ports of a program.
fn read_setup<I: Inputs>(
    alloc: Global,
    program: &Program,
    name: &str,
    inputs: &mut I,
) -> Result<Setup, Status>
    ensures given { IfOk result (λ setup. GivesSetup (I.told inputs.old) (λ calls. I.asked inputs.old calls inputs.new) program.now.ports name.now (plain_setup setup)) }
    ensures fits { IfOk result (λ setup. IsInput program.now.ports (plain_setup setup)) }
    ensures refused { IfErr result (λ status. SetupRefuses (I.told inputs.old)
        (λ name. Rose (I.faults inputs.old) (I.faults inputs.new) × (I.sure inputs.old name → ⊥)) (λ calls. I.asked inputs.old calls inputs.new) program.now.ports name.now (plain_status status)) }
{
    setup_for(alloc, program.ports(), name, inputs)
}

// What the program leaves that is run on an input that fits its ports.
fn run_text(alloc: Global, program: &Program, setup: &Setup) -> Result<String, Status>
    requires { IsInput program.now.ports (plain_setup setup.now) }
    ensures text { IfOk result (λ text. Leaves (plain_program program.now) (plain_setup setup.now) (string_bytes text)) }
    ensures refused { IfErr result (λ status. Stops (plain_program program.now) (plain_setup setup.now) (plain_status status)) }
{
    let mut interpreter = Seq::load(alloc, program, &setup.input)?;
    match interpreter.run(setup.turns) {
        SeqEnd::Ended { turns } => {
            let output = interpreter.outputs(alloc)?;
            let text = turns_text(alloc, program.ports(), &output, turns)?;
            Ok(text)
        }
        SeqEnd::Fault { kind, at } => Err(Status::Fault { kind, at }),
        SeqEnd::TurnsSpent => Err(Status::TurnsSpent { turns: setup.turns }),
    }
}

/// How a program is run: statement by statement, or as its netlist.
#[derive(Clone, Copy, Debug)]
pub enum Run {
    Sequential,
    Netlist,
}

// The texts of a run on an input that fits the program's ports.
fn texts_of_run(alloc: Global, run: Run, program: &Program, setup: &Setup) -> Result<Texts, Status>
    requires { IsInput program.now.ports (plain_setup setup.now) }
    ensures texts { IfOk result (λ texts. LeavesBy run (plain_program program.now) (plain_setup setup.now) (string_bytes texts.out) (string_bytes texts.aside)) }
    ensures refused { IfErr result (λ status. StopsBy run (plain_program program.now) (plain_setup setup.now) (plain_status status)) }
{
    match run {
        Run::Sequential => Ok(Texts {
            out: run_text(alloc, program, setup)?,
            aside: String::new(alloc),
        }),
        Run::Netlist => run_netlist(alloc, program, setup),
    }
}

/// Reads a program and a setup, runs the program, and gives what that leaves for `out`, and for `aside` the listing of the netlist, if
/// one was run.
pub fn run_program<I: Inputs>(
    alloc: Global,
    run: Run,
    program: &str,
    setup: &str,
    inputs: &mut I,
) -> Result<Texts, Status>
    ensures done { IfOk result (λ texts. RunsProgram (LeavesBy run) (I.told inputs.old) (λ calls. I.asked inputs.old calls inputs.new) program.now setup.now (string_bytes texts.out) (string_bytes texts.aside)) }
    ensures refused { IfErr result (λ status. RunRefuses (StopsBy run) (I.told inputs.old)
        (λ name. Rose (I.faults inputs.old) (I.faults inputs.new) × (I.sure inputs.old name → ⊥)) (λ calls. I.asked inputs.old calls inputs.new) program.now setup.now (plain_status status)) }
{
    let tree = read_program(alloc, program, inputs)?;
    let plan = read_setup(alloc, &tree, setup, inputs)?;
    let texts = texts_of_run(alloc, run, &tree, &plan)?;
    Ok(texts)
}
