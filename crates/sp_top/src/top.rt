//! The top call.
ghost use Rattle.std.specs.Prelude.{◌≡◌, ◌⊎◌, ◌≤◌, ℕ, List, length, map, string_bytes, IfOk, IfErr};
ghost use Rattle.sp_edges.specs.Counts.{Rose};
ghost use Rattle.sp_top.specs.Status.{plain_status};
ghost use Rattle.sp_edges.specs.Standing.{Holds};
ghost use Rattle.sp_top.specs.Commands.{IsCommand, IsReading, DoneTexts, MayRefuse, MayEnd, NotRefused};
ghost use Rattle.sp_netlist.specs.Cells.{PlainCell};
ghost use Rattle.sp_setup.specs.Setup.{PlainSetup};
ghost use Rattle.sp_source.specs.Texts.{Spells};
ghost use Rattle.sp_build.specs.Buildable.{CanBeBuilt};
ghost use Rattle.sp_tree.specs.PlainProgram.{PlainProgram};
ghost use Rattle.sp_top.specs.Complete.{CanBeRun, TellsEnd, IsRunnable, IsDoneInTime};
ghost use Rattle.sp_top.specs.Programs.{longest_program};
ghost use Rattle.sp_top.specs.Commands as commands;
ghost use Rattle.sp_top.specs.Said.{plain_command};
ghost use Rattle.sp_top.specs.Record.{Records};

use crate::check::check;
use crate::compile::{compile, print_verilog};
use crate::format::print_canonical;
use crate::report::print_report;
use crate::seq::{Run, run_program};
use crate::simulate::{View, simulate};
use crate::sinks::{Texts, deliver, refuse};
use crate::status::Status;
use sp_command::{Command, command_of};
use sp_edges::{Inputs, Sink};
use sp_listing::{listing_breaks_nowhere, listing_has_one_reading};
use sp_netlist::{one_ending, refusals_exact};
use sp_setup::{setups_are_not_refused, setups_are_one};
use sp_source::{spelled_texts_are_not_refused, texts_spell_one_program};
use std::alloc::Global;

// The texts of a command, or why it refuses.
fn texts_of<I: Inputs>(alloc: Global, command: Command<'_>, inputs: &mut I) -> Result<Texts, Status>
    ensures done { IfOk result (λ texts. DoneTexts (I.told inputs.old) (λ calls. I.asked inputs.old calls inputs.new) (plain_command command.entry) (string_bytes texts.out) (string_bytes texts.aside)) }
    ensures refused { IfErr result (λ status. MayRefuse (I.told inputs.old)
        (λ name. Rose (I.faults inputs.old) (I.faults inputs.new) × (I.sure inputs.old name → ⊥)) (λ calls. I.asked inputs.old calls inputs.new) (plain_command command.entry) (plain_status status)) }
{
    match command {
        Command::Check { program } => check(alloc, program, inputs),
        Command::Format { program } => print_canonical(alloc, program, inputs),
        Command::Compile { program } => compile(alloc, program, inputs),
        Command::Verilog { program } => print_verilog(alloc, program, inputs),
        Command::Report { program } => print_report(alloc, program, inputs),
        Command::Seq { program, setup } => {
            run_program(alloc, Run::Sequential, program, setup, inputs)
        }
        Command::Run { program, setup } => {
            run_program(alloc, Run::Netlist, program, setup, inputs)
        }
        Command::Simulate { listing, setup } => {
            simulate(alloc, View::Outcome, listing, setup, inputs)
        }
        Command::Waves { listing, setup } => simulate(alloc, View::Waves, listing, setup, inputs),
    }
}

// Carries out the command that the words are.
fn carry_out<I: Inputs, K: Sink, A: Sink>(
    alloc: Global,
    words: &[String],
    command: Command<'_>,
    inputs: &mut I,
    out: &mut K,
    aside: &mut A,
) -> Status
    requires { IsCommand (map string_bytes words.now) (plain_command command) }
    ensures { Records (MayEnd (map string_bytes words.now) (I.told inputs.old) (λ name. Rose (I.faults inputs.old) (I.faults inputs.new) × (I.sure inputs.old name → ⊥)) (λ calls. I.asked inputs.old calls inputs.new))
        (record { before = K.taken out.old; after = K.taken out.new; faults_before = K.faults out.old; faults_after = K.faults out.new; room = K.sure_room out.old; put = λ pieces. K.was_put out.old pieces out.new })
        (record { before = A.taken aside.old; after = A.taken aside.new; faults_before = A.faults aside.old; faults_after = A.faults aside.new; room = A.sure_room aside.old; put = λ pieces. A.was_put aside.old pieces aside.new })
        (plain_status result) }
{
    match texts_of(alloc, command, inputs) {
        Ok(texts) => deliver(&texts, out, aside),
        Err(status) => refuse(alloc, out, status),
    }
}

// Does what the words say.
fn answer<I: Inputs, K: Sink, A: Sink>(
    alloc: Global,
    words: &[String],
    inputs: &mut I,
    out: &mut K,
    aside: &mut A,
) -> Status
    ensures { Records (MayEnd (map string_bytes words.now) (I.told inputs.old) (λ name. Rose (I.faults inputs.old) (I.faults inputs.new) × (I.sure inputs.old name → ⊥)) (λ calls. I.asked inputs.old calls inputs.new))
        (record { before = K.taken out.old; after = K.taken out.new; faults_before = K.faults out.old; faults_after = K.faults out.new; room = K.sure_room out.old; put = λ pieces. K.was_put out.old pieces out.new })
        (record { before = A.taken aside.old; after = A.taken aside.new; faults_before = A.faults aside.old; faults_after = A.faults aside.new; room = A.sure_room aside.old; put = λ pieces. A.was_put aside.old pieces aside.new })
        (plain_status result) }
{
    match command_of(alloc, words) {
        Ok(Some(command)) => carry_out(alloc, words, command, inputs, out, aside),
        Ok(None) => refuse(alloc, out, Status::Words),
        Err(_) => refuse(alloc, out, Status::Memory),
    }
}

/// Does what the words say: reads by `inputs`, puts the command's texts on `aside` and on `out`, or the line
/// of a refusal on `out`. The words are those after the program's name; `docs/commands.md` has the table.
pub fn spatialc<I: Inputs, K: Sink, A: Sink>(
    alloc: Global,
    words: &[String],
    inputs: &mut I,
    out: &mut K,
    aside: &mut A,
) -> Status
    // What the sinks gained belongs to the status, and each status has its cause.
    ensures record { Records (MayEnd (map string_bytes words.now) (I.told inputs.old) (λ name. Rose (I.faults inputs.old) (I.faults inputs.new) × (I.sure inputs.old name → ⊥)) (λ calls. I.asked inputs.old calls inputs.new))
        (record { before = K.taken out.old; after = K.taken out.new; faults_before = K.faults out.old; faults_after = K.faults out.new; room = K.sure_room out.old; put = λ pieces. K.was_put out.old pieces out.new })
        (record { before = A.taken aside.old; after = A.taken aside.new; faults_before = A.faults aside.old; faults_after = A.faults aside.new; room = A.sure_room aside.old; put = λ pieces. A.was_put aside.old pieces aside.new })
        (plain_status result) }
    // A text under a sure name that spells a program whose core can be built isn't refused by `compile` or `verilog`.
    ensures complete { (program bytes : List ℕ) (plain : PlainProgram) → IsCommand (map string_bytes words.now) (commands.compile program) ⊎ IsCommand (map string_bytes words.now) (commands.verilog program) → I.sure inputs.old program
        → I.told inputs.old program ≡ Holds bytes → length bytes ≤ longest_program → Spells bytes plain → CanBeBuilt plain → NotRefused (plain_status result) }
    // Nor is a text that spells a program by `check`, `format` or `report`.
    ensures checks { (program bytes : List ℕ) (plain : PlainProgram) → IsReading (map string_bytes words.now) program → I.sure inputs.old program
        → I.told inputs.old program ≡ Holds bytes → length bytes ≤ longest_program → Spells bytes plain → NotRefused (plain_status result) }
    // The run of a program tells how the program ends: it isn't refused but for want of memory.
    ensures runs { (program setup : List ℕ) (plain : PlainProgram) (plan : PlainSetup) → IsCommand (map string_bytes words.now) (commands.seq program setup)
        → CanBeRun (I.told inputs.old) (I.sure inputs.old) program setup plain plan → TellsEnd plain plan (plain_status result) }
    // Nor is the run of its netlist, where its core can be built.
    ensures runs_netlists { (program setup : List ℕ) (plain : PlainProgram) (plan : PlainSetup) → IsCommand (map string_bytes words.now) (commands.run program setup)
        → CanBeRun (I.told inputs.old) (I.sure inputs.old) program setup plain plan → CanBeBuilt plain → TellsEnd plain plan (plain_status result) }
    // The simulation of a listing that is done within its setup's cycles isn't refused, nor is the dump of any run.
    ensures simulates { (listing setup : List ℕ) (cells : List PlainCell) (plain : PlainSetup) → IsCommand (map string_bytes words.now) (commands.simulate listing setup)
        → IsRunnable (I.told inputs.old) (I.sure inputs.old) listing setup cells plain → IsDoneInTime cells plain → NotRefused (plain_status result) }
    ensures dumps { (listing setup : List ℕ) (cells : List PlainCell) (plain : PlainSetup) → IsCommand (map string_bytes words.now) (commands.waves listing setup)
        → IsRunnable (I.told inputs.old) (I.sure inputs.old) listing setup cells plain → NotRefused (plain_status result) }
{
    listing_has_one_reading();
    listing_breaks_nowhere();
    refusals_exact();
    one_ending();
    setups_are_not_refused();
    setups_are_one();
    spelled_texts_are_not_refused();
    texts_spell_one_program();
    answer(alloc, words, inputs, out, aside)
}
