//! Setups.
ghost use Rattle.std.specs.Prelude.{◌≡◌, ◌≤◌, ℕ, List, map, IfOk, IfErr, OnOk};
ghost use Rattle.std.specs.List.{All};
ghost use Rattle.sp_edges.specs.Counts.{Rose};
ghost use Rattle.sp_edges.specs.Calls.{given};
ghost use Rattle.sp_words.specs.declared.interface.PortDecl.{PortDecl};
ghost use Rattle.sp_words.specs.Ports.{plain_ports};
ghost use Rattle.sp_words.specs.Interface.{word_count, Fits};
ghost use Rattle.sp_setup.specs.Setup.{plain_setup, IsDocument, DocumentEnds, IsSetup, SetupEnds, files_named};
ghost use Rattle.toml.specs.View.{table_view};

use crate::cells::MOST_WORDS;
use crate::drams::read_drams;
use crate::error::{SetupEnd, SetupError};
use crate::settings::read_settings;
use crate::table::section_at;
use sp_edges::Inputs;
use sp_words::{Input, Ports, values_are_a_range};
use std::alloc::Global;
use toml::Table;

/// How a program or a listing is run: the most turns and cycles, the delays of its channels, and its input.
#[derive(Debug, Drop)]
pub struct Setup {
    pub turns: u64,
    pub cycles: u64,
    pub delays: Vec<u32>,
    pub input: Input,
}

// The TOML document that the bytes are.
fn read_document(alloc: Global, bytes: &[u8]) -> Result<Table, SetupEnd>
    ensures ok { IfOk result (λ table. IsDocument bytes.now (table_view table)) }
    ensures refused { IfErr result (DocumentEnds bytes.now) }
{
    match toml::table_from_slice(alloc, bytes) {
        Ok(table) => Ok(table),
        Err(error) => {
            if error.is_memory() {
                Err(SetupEnd::Memory)
            } else {
                Err(SetupEnd::Refused(SetupError::NoToml))
            }
        }
    }
}

/// Reads a setup, a TOML text, for these ports, and the CSV files that it names by `inputs`.
///
/// The first check that refuses decides; `docs/setups.md` has them in their order. A file is asked for only
/// where all checks before it pass.
pub fn read<I: Inputs>(
    alloc: Global,
    inputs: &mut I,
    ports: &Ports,
    bytes: &[u8],
) -> Result<Setup, SetupEnd>
    requires { All (λ (port : PortDecl). word_count port.dims.items ≤ MOST_WORDS) ports.now.drams.items }
    ensures setup { IfOk result (λ setup. IsSetup (I.told inputs.old) (plain_ports ports.now) bytes.now (plain_setup setup)) }
    ensures refused { IfErr result (SetupEnds (I.told inputs.old) (λ name. Rose (I.faults inputs.old) (I.faults inputs.new) × (I.sure inputs.old name → ⊥)) (λ calls. I.asked inputs.old calls inputs.new) (plain_ports ports.now) bytes.now) }
    ensures fits { IfOk result (λ setup. Fits ports.now setup.input) }

    // The names that were asked for, in order: where a setup is given, its files, each once.
    ensures asks { OnOk result (I.asked inputs.old (map given (files_named (plain_ports ports.now) bytes.now)) inputs.new) }

    // What stays of the inputs.
    ensures counts { I.faults inputs.old ≤ I.faults inputs.new }
    ensures tells { (n : List ℕ) → I.told inputs.new n ≡ I.told inputs.old n }
    ensures stays_sure { (n : List ℕ) → I.sure inputs.old n → I.sure inputs.new n }
{
    // what a number is read as is a word of its type
    values_are_a_range();
    let table = read_document(alloc, bytes)?;
    let settings = read_settings(alloc, ports, &table)?;
    let files = section_at(&table, "dram");
    let drams = read_drams(alloc, inputs, files, ports)?;
    Ok(Setup {
        turns: settings.turns,
        cycles: settings.cycles,
        delays: settings.delays,
        input: Input {
            args: settings.args,
            drams,
        },
    })
}
