//! The checks of a setup's table.
ghost use Rattle.std.specs.Prelude.{◌≡◌, ◌&&◌, ℤ, int_le, true, false, map, string_bytes, option_map, option_and_then, MatchOption, IfOk, IfErr, OnOk, Some, None, codes};
ghost use Rattle.toml.specs.Data.{as_integer, as_array, get_member};
ghost use Rattle.toml.specs.View.{view, table_view, items_view, array_view};
ghost use Rattle.sp_words.specs.Ports.{plain_port, plain_ports};
ghost use Rattle.sp_setup.specs.Refusal.{range, IsRefusal};
ghost use Rattle.sp_setup.specs.Checks.{top_keys_check, args_keys_check, dram_keys_check, are_integers, are_all_integers, allows_top, first_key, section, integer_at, count_check, count_of, is_delay, is_next_delay, delay_of, items_or_none, delays_check, delays_in, delay_items};
ghost use Rattle.sp_setup.specs.Section.{HaveNames, ports_of, allowed, key_check, section_path};
ghost use Rattle.sp_setup.specs.Table.{option_table};

use crate::error::{SetupEnd, SetupError, path};
use indexmap::IndexSet;
use sp_words::{PortDecl, Ports};
use std::alloc::{AllocError, Global};
use toml::value::Array;
use toml::{Table, Value};

// The count of turns or of cycles where the setup says none.
const DEFAULT_COUNT: u64 = 10_000_000;

// The most delays, and the greatest of them.
const MOST_DELAYS: usize = 100_000;

const MOST_DELAY: i64 = 1_000_000;

// A table of a setup, with the ports that its keys name.
#[derive(Clone, Copy)]
enum Section<'a> {
    Top,
    Args(&'a [PortDecl]),
    Dram(&'a [PortDecl]),
}

fn is_between(number: i64, low: i64, high: i64) -> bool
    ensures { result ≡ (int_le low number && int_le number high) }
{
    low <= number && number <= high
}

fn are_integers(items: &[Value]) -> bool
    ensures { result ≡ are_integers (items_view items.now) }
{
    for item in items {
        if !item.is_integer() {
            return false;
        }
    }
    true
}

fn is_integer_array(value: &Value) -> bool
    ensures { result ≡ are_all_integers (as_array (view value.now)) }
{
    match value.as_array() {
        Some(items) => are_integers(items),
        None => false,
    }
}

// Whether a setup has this key, and the value is of its kind.
fn is_top_entry(key: &str, value: &Value) -> bool
    ensures { result ≡ allows_top key.now (view value.now) }
{
    if key == "turns" || key == "cycles" {
        value.is_integer()
    } else if key == "delays" {
        is_integer_array(value)
    } else {
        (key == "args" || key == "dram") && value.is_table()
    }
}

// The names of ports, so that one is found without a search through all of them.
fn names_of(alloc: Global, ports: &[PortDecl]) -> Result<IndexSet<String>, AllocError>
    ensures { IfOk result (λ names. HaveNames names.keys (map plain_port ports.now)) }
{
    let mut names = IndexSet::new(alloc);
    for port in ports {
        names.insert(String::from_str(alloc, &port.name)?)?;
    }
    Ok(names)
}

// The names that the keys of a section have to be, if it has any.
fn section_names(alloc: Global, section: Section<'_>) -> Result<IndexSet<String>, AllocError>
    ensures { IfOk result (λ names. HaveNames names.keys (ports_of section.entry)) }
{
    match section {
        Section::Top => names_of(alloc, &[]),
        Section::Args(ports) => names_of(alloc, ports),
        Section::Dram(ports) => names_of(alloc, ports),
    }
}

fn is_allowed(section: Section<'_>, names: &IndexSet<String>, key: &str, value: &Value) -> bool
    requires { HaveNames names.now.keys (ports_of section) }
    ensures { result ≡ allowed section.entry key.now (view value.now) }
{
    match section {
        Section::Top => is_top_entry(key, value),
        Section::Args(_) => names.contains(key),
        Section::Dram(_) => names.contains(key) && value.is_str(),
    }
}

// The first key, in the order of bytes, that the section doesn't allow with its value.
fn first_unknown<'a>(
    section: Section<'_>,
    names: &IndexSet<String>,
    table: &'a Table,
) -> Option<&'a String>
    requires { HaveNames names.now.keys (ports_of section) }
    ensures { option_map (λ key. string_bytes key.now) result ≡ first_key (allowed section.entry) (table_view table.now) }
{
    for (key, value) in table {
        if !is_allowed(section, names, key.as_str(), value) {
            return Some(key);
        }
    }
    None
}

fn section_path(alloc: Global, section: Section<'_>, key: &str) -> Result<String, AllocError>
    ensures { IfOk result (λ text. string_bytes text ≡ section_path section.entry key.now) }
{
    match section {
        Section::Top => String::from_str(alloc, key),
        Section::Args(_) => path(alloc, "args", key),
        Section::Dram(_) => path(alloc, "dram", key),
    }
}

// Refuses the first key that isn't known, or whose value isn't of its kind.
fn check_table_keys(alloc: Global, section: Section<'_>, table: &Table) -> Result<(), SetupEnd>
    ensures ok { OnOk result (key_check section.entry (table_view table.now) ≡ None) }
    ensures refused { IfErr result (IsRefusal (key_check section.entry (table_view table.now))) }
{
    let names = section_names(alloc, section)?;
    match first_unknown(section, &names, table) {
        Some(key) => Err(SetupEnd::Refused(SetupError::Key {
            name: section_path(alloc, section, key.as_str())?,
        })),
        None => Ok(()),
    }
}

fn check_keys(alloc: Global, section: Section<'_>, table: Option<&Table>) -> Result<(), SetupEnd>
    ensures ok { OnOk result (key_check section.entry (option_table table.entry) ≡ None) }
    ensures refused { IfErr result (IsRefusal (key_check section.entry (option_table table.entry))) }
{
    match table {
        Some(table) => check_table_keys(alloc, section, table),
        None => Ok(()),
    }
}

pub(crate) fn check_top_keys(alloc: Global, table: &Table) -> Result<(), SetupEnd>
    ensures ok { OnOk result (top_keys_check (table_view table.now) ≡ None) }
    ensures refused { IfErr result (IsRefusal (top_keys_check (table_view table.now))) }
{
    check_keys(alloc, Section::Top, Some(table))
}

pub(crate) fn check_argument_names(
    alloc: Global,
    ports: &Ports,
    args: Option<&Table>,
) -> Result<(), SetupEnd>
    ensures ok { OnOk result (args_keys_check (plain_ports ports.now).args (option_table args.entry) ≡ None) }
    ensures refused { IfErr result (IsRefusal (args_keys_check (plain_ports ports.now).args (option_table args.entry))) }
{
    check_keys(alloc, Section::Args(&ports.args), args)
}

pub(crate) fn check_dram_names(
    alloc: Global,
    ports: &Ports,
    files: Option<&Table>,
) -> Result<(), SetupEnd>
    ensures ok { OnOk result (dram_keys_check (plain_ports ports.now).drams (option_table files.entry) ≡ None) }
    ensures refused { IfErr result (IsRefusal (dram_keys_check (plain_ports ports.now).drams (option_table files.entry))) }
{
    check_keys(alloc, Section::Dram(&ports.drams), files)
}

// The table at a key.
pub(crate) fn section_at<'a>(table: &'a Table, key: &str) -> Option<&'a Table>
    ensures { option_table result ≡ section key.now (table_view table.now) }
{
    match table.get(key) {
        Some(value) => value.as_table(),
        None => None,
    }
}

// The value at a key of a table that may not be there.
pub(crate) fn value_at<'a>(table: Option<&'a Table>, key: &str) -> Option<&'a Value>
    ensures { option_map (λ value. view value.now) result ≡ get_member key.now (option_table table.entry) }
{
    match table {
        Some(table) => table.get(key),
        None => None,
    }
}

fn integer(table: &Table, key: &str) -> Option<i64>
    ensures { result ≡ integer_at key.now (table_view table.now) }
{
    match table.get(key) {
        Some(value) => value.as_integer(),
        None => None,
    }
}

fn array_at<'a>(table: &'a Table, key: &str) -> Option<&'a Array>
    ensures { items_or_none (option_map (λ items. array_view items.now) result) ≡ items_or_none (option_and_then as_array (get_member key.now (table_view table.now))) }
{
    match table.get(key) {
        Some(value) => value.as_array(),
        None => None,
    }
}

// The count of turns or of cycles, from 1 to `most`.
pub(crate) fn read_count(
    alloc: Global,
    table: &Table,
    name: &str,
    most: i64,
) -> Result<u64, SetupEnd>
    ensures ok { IfOk result (λ count. (count_check name.now most (integer_at name.now (table_view table.now)) ≡ None) × (count ≡ count_of (integer_at name.now (table_view table.now)))) }
    ensures refused { IfErr result (IsRefusal (count_check name.now most (integer_at name.now (table_view table.now)))) }
{
    let Some(count) = integer(table, name) else {
        return Ok(DEFAULT_COUNT);
    };
    if is_between(count, 1, most) {
        Ok(count.unsigned_abs())
    } else {
        Err(SetupEnd::Refused(SetupError::Range {
            name: String::from_str(alloc, name)?,
            place: 0,
        }))
    }
}

// A delay, where the value is one that is in range.
fn read_delay(value: &Value) -> Option<u32>
    ensures { MatchOption result (is_delay (as_integer (view value.now)) ≡ false)
        (λ delay. (is_delay (as_integer (view value.now)) ≡ true) × (delay ≡ delay_of (as_integer (view value.now)))) }
{
    match value.as_integer() {
        Some(delay) => {
            if is_between(delay, 0, MOST_DELAY) {
                Some(delay.unsigned_abs() as u32)
            } else {
                None
            }
        }
        None => None,
    }
}

// The delay at a place, where there may be one.
fn next_delay(place: usize, value: &Value) -> Option<u32>
    ensures { MatchOption result (is_next_delay place (view value.now) ≡ false)
        (λ delay. (is_next_delay place (view value.now) ≡ true) × (delay ≡ delay_of (as_integer (view value.now)))) }
{
    if place < MOST_DELAYS {
        read_delay(value)
    } else {
        None
    }
}

fn delay_out_of_range(alloc: Global, place: usize) -> SetupEnd
    ensures { IsRefusal (Some (range (codes "delays") place)) result }
{
    match String::from_str(alloc, "delays") {
        Ok(name) => SetupEnd::Refused(SetupError::Range {
            name,
            place: place as u64,
        }),
        Err(_) => SetupEnd::Memory,
    }
}

// The delays of a list, each from 0 to 1,000,000.
fn read_delay_list(alloc: Global, items: &[Value]) -> Result<Vec<u32>, SetupEnd>
    ensures ok { IfOk result (λ delays. (delays_check (items_view items.now) ≡ None) × (delays.items ≡ delays_in (items_view items.now))) }
    ensures refused { IfErr result (IsRefusal (delays_check (items_view items.now))) }
{
    let mut delays = Vec::new(alloc);
    for item in items {
        let Some(delay) = next_delay(delays.len(), item) else {
            return Err(delay_out_of_range(alloc, delays.len()));
        };
        delays.push(delay)?;
    }
    Ok(delays)
}

pub(crate) fn read_delays(alloc: Global, table: &Table) -> Result<Vec<u32>, SetupEnd>
    ensures ok { IfOk result (λ delays. (delays_check (delay_items (table_view table.now)) ≡ None) × (delays.items ≡ delays_in (delay_items (table_view table.now)))) }
    ensures refused { IfErr result (IsRefusal (delays_check (delay_items (table_view table.now)))) }
{
    match array_at(table, "delays") {
        Some(items) => read_delay_list(alloc, items),
        None => Ok(Vec::new(alloc)),
    }
}
