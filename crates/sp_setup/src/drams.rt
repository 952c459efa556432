//! The words of the DRAMs: those of their files, and zeros where none is named.
ghost use Rattle.std.specs.Prelude.{◌≡◌, ◌≤◌, ℕ, List, [], ◌∷◌, map, replicate, option_map, option_to_list, IfOk, IfErr, OnOk};
ghost use Rattle.std.specs.Global.{Vec};
ghost use Rattle.std.specs.List.{All};
ghost use Rattle.sp_edges.specs.Counts.{Rose};
ghost use Rattle.sp_edges.specs.Calls.{given};
ghost use Rattle.sp_words.specs.declared.interface.PortDecl.{PortDecl};
ghost use Rattle.sp_words.specs.Ports.{plain_port, plain_ports};
ghost use Rattle.sp_words.specs.Interface.{word_count};
ghost use Rattle.sp_setup.specs.Table.{option_table};
ghost use Rattle.sp_setup.specs.Drams.{GivesFile, IsTooLong, NamedGives, file_of, files_of, DramGives, AllGive, FileEnds, NamedEnds, DramEnds, DramsEnd};

use crate::cells::{MOST_WORDS, read_cells, words_of};
use crate::error::SetupEnd;
use crate::table::value_at;
use sp_edges::{InputFault, Inputs};
use sp_words::{PortDecl, Ports};
use std::alloc::{AllocError, Global};
use toml::Table;

/// The longest CSV file that is read, in bytes.
pub const LONGEST_FILE: usize = 1_610_612_736;

// The name of a DRAM's file.
fn file_name<'a>(files: Option<&'a Table>, port: &PortDecl) -> Option<&'a str>
    ensures { option_map (λ name. name.now) result ≡ file_of (option_table files.entry) (plain_port port.now) }
{
    match value_at(files, port.name.as_str()) {
        Some(value) => value.as_str(),
        None => None,
    }
}

fn too_long(alloc: Global, name: &str) -> SetupEnd
    ensures { IsTooLong name.now result }
{
    match String::from_str(alloc, name) {
        Ok(name) => SetupEnd::TooLong { name },
        Err(_) => SetupEnd::Memory,
    }
}

// The bytes of a file.
fn read_file<I: Inputs>(alloc: Global, inputs: &mut I, name: &str) -> Result<Vec<u8>, SetupEnd>
    ensures given { IfOk result (λ bytes. GivesFile (I.told inputs.old name.now) bytes.items) }
    ensures asks { OnOk result (I.asked inputs.old (given name.now ∷ []) inputs.new) }
    ensures refused { IfErr result (FileEnds (I.told inputs.old name.now) (Rose (I.faults inputs.old) (I.faults inputs.new) × (I.sure inputs.old name.now → ⊥)) (λ calls. I.asked inputs.old calls inputs.new) name.now) }
    ensures counts { I.faults inputs.old ≤ I.faults inputs.new }
    ensures tells { (n : List ℕ) → I.told inputs.new n ≡ I.told inputs.old n }
    ensures stays_sure { (n : List ℕ) → I.sure inputs.old n → I.sure inputs.new n }
{
    let mut bytes = Vec::new(alloc);
    match inputs.read_into(name, LONGEST_FILE, &mut bytes) {
        Ok(()) => Ok(bytes),
        Err(InputFault::Failed) => Err(SetupEnd::ReadFault),
        Err(InputFault::TooLong) => Err(too_long(alloc, name)),
        Err(InputFault::Memory) => Err(SetupEnd::Memory),
    }
}

// The words of a DRAM whose file is named.
fn read_named<I: Inputs>(
    alloc: Global,
    inputs: &mut I,
    name: &str,
    port: &PortDecl,
) -> Result<Vec<u64>, SetupEnd>
    requires { word_count port.now.dims.items ≤ MOST_WORDS }
    ensures given { IfOk result (λ words. NamedGives (I.told inputs.old name.now) (plain_port port.now) words.items) }
    ensures asks { OnOk result (I.asked inputs.old (given name.now ∷ []) inputs.new) }
    ensures refused { IfErr result (NamedEnds (I.told inputs.old name.now) (Rose (I.faults inputs.old) (I.faults inputs.new) × (I.sure inputs.old name.now → ⊥)) (λ calls. I.asked inputs.old calls inputs.new) name.now (plain_port port.now)) }
    ensures counts { I.faults inputs.old ≤ I.faults inputs.new }
    ensures tells { (n : List ℕ) → I.told inputs.new n ≡ I.told inputs.old n }
    ensures stays_sure { (n : List ℕ) → I.sure inputs.old n → I.sure inputs.new n }
{
    let bytes = read_file(alloc, inputs, name)?;
    read_cells(alloc, port, &bytes)
}

// The words of a DRAM whose file isn't named.
fn zeros(alloc: Global, port: &PortDecl) -> Result<Vec<u64>, AllocError>
    requires { word_count port.now.dims.items ≤ MOST_WORDS }
    ensures { IfOk result (λ words. words.items ≡ replicate (word_count port.now.dims.items) 0) }
{
    vec![in alloc; 0u64; words_of(port) as usize]
}

// The words of a DRAM.
fn read_dram<I: Inputs>(
    alloc: Global,
    inputs: &mut I,
    files: Option<&Table>,
    port: &PortDecl,
) -> Result<Vec<u64>, SetupEnd>
    requires { word_count port.now.dims.items ≤ MOST_WORDS }
    ensures given { IfOk result (λ words. DramGives (I.told inputs.old) (file_of (option_table files.entry) (plain_port port.now)) (plain_port port.now) words.items) }
    ensures asks { OnOk result (I.asked inputs.old (map given (option_to_list (file_of (option_table files.entry) (plain_port port.now)))) inputs.new) }
    ensures refused { IfErr result (DramEnds (I.told inputs.old) (λ name. Rose (I.faults inputs.old) (I.faults inputs.new) × (I.sure inputs.old name → ⊥)) (λ calls. I.asked inputs.old calls inputs.new) (file_of (option_table files.entry) (plain_port port.now)) (plain_port port.now)) }
    ensures counts { I.faults inputs.old ≤ I.faults inputs.new }
    ensures tells { (n : List ℕ) → I.told inputs.new n ≡ I.told inputs.old n }
    ensures stays_sure { (n : List ℕ) → I.sure inputs.old n → I.sure inputs.new n }
{
    match file_name(files, port) {
        Some(name) => read_named(alloc, inputs, name, port),
        None => Ok(zeros(alloc, port)?),
    }
}

// The words of several DRAMs.
fn read_dram_list<I: Inputs>(
    alloc: Global,
    inputs: &mut I,
    files: Option<&Table>,
    ports: &[PortDecl],
) -> Result<Vec<Vec<u64>>, SetupEnd>
    requires { All (λ (port : PortDecl). word_count port.dims.items ≤ MOST_WORDS) ports.now }
    ensures given { IfOk result (λ drams. AllGive (I.told inputs.old) (option_table files.entry) (map plain_port ports.now) (map (λ (words : Vec ℕ). words.items) drams.items)) }
    ensures asks { OnOk result (I.asked inputs.old (map given (files_of (option_table files.entry) (map plain_port ports.now))) inputs.new) }
    ensures refused { IfErr result (DramsEnd (I.told inputs.old) (λ name. Rose (I.faults inputs.old) (I.faults inputs.new) × (I.sure inputs.old name → ⊥)) (λ calls. I.asked inputs.old calls inputs.new) (option_table files.entry) (map plain_port ports.now)) }
    ensures counts { I.faults inputs.old ≤ I.faults inputs.new }
    ensures tells { (n : List ℕ) → I.told inputs.new n ≡ I.told inputs.old n }
    ensures stays_sure { (n : List ℕ) → I.sure inputs.old n → I.sure inputs.new n }
{
    let mut drams = Vec::new(alloc);
    for port in ports {
        let words = read_dram(alloc, inputs, files, port)?;
        drams.push(words)?;
    }
    Ok(drams)
}

// The words of the DRAMs of these ports.
pub(crate) fn read_drams<I: Inputs>(
    alloc: Global,
    inputs: &mut I,
    files: Option<&Table>,
    ports: &Ports,
) -> Result<Vec<Vec<u64>>, SetupEnd>
    requires { All (λ (port : PortDecl). word_count port.dims.items ≤ MOST_WORDS) ports.now.drams.items }
    ensures given { IfOk result (λ drams. AllGive (I.told inputs.old) (option_table files.entry) (plain_ports ports.now).drams (map (λ (words : Vec ℕ). words.items) drams.items)) }
    ensures asks { OnOk result (I.asked inputs.old (map given (files_of (option_table files.entry) (plain_ports ports.now).drams)) inputs.new) }
    ensures refused { IfErr result (DramsEnd (I.told inputs.old) (λ name. Rose (I.faults inputs.old) (I.faults inputs.new) × (I.sure inputs.old name → ⊥)) (λ calls. I.asked inputs.old calls inputs.new) (option_table files.entry) (plain_ports ports.now).drams) }
    ensures counts { I.faults inputs.old ≤ I.faults inputs.new }
    ensures tells { (n : List ℕ) → I.told inputs.new n ≡ I.told inputs.old n }
    ensures stays_sure { (n : List ℕ) → I.sure inputs.old n → I.sure inputs.new n }
{
    read_dram_list(alloc, inputs, files, &ports.drams)
}
