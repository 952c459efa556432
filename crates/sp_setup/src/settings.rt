//! The table of a setup as settings: all but the contents of DRAMs.
ghost use Rattle.std.specs.Prelude.{◌≡◌, map, IfOk, IfErr, None};
ghost use Rattle.toml.specs.View.{table_view};
ghost use Rattle.sp_words.specs.Ports.{plain_port, plain_ports};
ghost use Rattle.sp_setup.specs.Refusal.{IsRefusal};
ghost use Rattle.sp_setup.specs.Checks.{argument_check, argument_word, arguments_check, table_check};
ghost use Rattle.sp_setup.specs.Table.{option_table};
ghost use Rattle.sp_setup.specs.Settings.{AreSettings};

use crate::error::{SetupEnd, SetupError, path};
use crate::reading::{Reading, read_value};
use crate::table::{
    check_argument_names, check_dram_names, check_top_keys, read_count, read_delays, section_at,
    value_at,
};
use sp_words::{PortDecl, Ports};
use std::alloc::Global;
use toml::Table;

// The most turns and the most cycles.
const MOST_TURNS: i64 = 10_000_000;

const MOST_CYCLES: i64 = 1_000_000_000;

// What a setup says of turns, cycles, delays and arguments.
#[derive(Drop)]
pub(crate) struct Settings {
    pub(crate) turns: u64,
    pub(crate) cycles: u64,
    pub(crate) delays: Vec<u32>,
    pub(crate) args: Vec<u64>,
}

// The word of an argument.
fn read_argument(alloc: Global, args: Option<&Table>, port: &PortDecl) -> Result<u64, SetupEnd>
    ensures ok { IfOk result (λ word. (argument_check (option_table args.entry) (plain_port port.now) ≡ None) × (word ≡ argument_word (option_table args.entry) (plain_port port.now))) }
    ensures refused { IfErr result (IsRefusal (argument_check (option_table args.entry) (plain_port port.now))) }
{
    let Some(value) = value_at(args, port.name.as_str()) else {
        return Err(SetupEnd::Refused(SetupError::Missing {
            name: path(alloc, "args", port.name.as_str())?,
        }));
    };
    match read_value(alloc, port.ty, value)? {
        Reading::Word(word) => Ok(word),
        Reading::OutOfRange => Err(SetupEnd::Refused(SetupError::Range {
            name: path(alloc, "args", port.name.as_str())?,
            place: 0,
        })),
        Reading::NoNumber => Err(SetupEnd::Refused(SetupError::Key {
            name: path(alloc, "args", port.name.as_str())?,
        })),
    }
}

// The words of all arguments.
fn read_arguments(
    alloc: Global,
    args: Option<&Table>,
    ports: &[PortDecl],
) -> Result<Vec<u64>, SetupEnd>
    ensures ok { IfOk result (λ words. (arguments_check (option_table args.entry) (map plain_port ports.now) ≡ None) × (words.items ≡ map (argument_word (option_table args.entry)) (map plain_port ports.now))) }
    ensures refused { IfErr result (IsRefusal (arguments_check (option_table args.entry) (map plain_port ports.now))) }
{
    let mut words = Vec::new(alloc);
    for port in ports {
        let word = read_argument(alloc, args, port)?;
        words.push(word)?;
    }
    Ok(words)
}

// The words of the arguments of these ports.
fn arguments_of(alloc: Global, args: Option<&Table>, ports: &Ports) -> Result<Vec<u64>, SetupEnd>
    ensures ok { IfOk result (λ words. (arguments_check (option_table args.entry) (plain_ports ports.now).args ≡ None) × (words.items ≡ map (argument_word (option_table args.entry)) (plain_ports ports.now).args)) }
    ensures refused { IfErr result (IsRefusal (arguments_check (option_table args.entry) (plain_ports ports.now).args)) }
{
    read_arguments(alloc, args, &ports.args)
}

// What the table says, where all its checks pass.
pub(crate) fn read_settings(
    alloc: Global,
    ports: &Ports,
    table: &Table,
) -> Result<Settings, SetupEnd>
    ensures ok { IfOk result (AreSettings (plain_ports ports.now) (table_view table.now)) }
    ensures refused { IfErr result (IsRefusal (table_check (plain_ports ports.now) (table_view table.now))) }
{
    let arguments = section_at(table, "args");
    let files = section_at(table, "dram");
    check_top_keys(alloc, table)?;
    let turns = read_count(alloc, table, "turns", MOST_TURNS)?;
    let cycles = read_count(alloc, table, "cycles", MOST_CYCLES)?;
    let delays = read_delays(alloc, table)?;
    check_argument_names(alloc, ports, arguments)?;
    let args = arguments_of(alloc, arguments, ports)?;
    check_dram_names(alloc, ports, files)?;
    Ok(Settings {
        turns,
        cycles,
        delays,
        args,
    })
}
