//! The words of a CSV file.
ghost use Rattle.std.specs.Prelude.{◌≡◌, ◌≢◌, ◌↔◌, ◌+◌, ◌*◌, ◌-◌, ◌^◌, ◌<◌, ◌≤◌, ◌++◌, ◌∷◌, [], min, length, reverse, Some, IsTrue, IfSome, IfOk, IfErr, OnOk, OnErr, None};
ghost use Rattle.std.specs.List.{All, prefix_len};
ghost use Rattle.csv.specs.Records.{fields_of};
ghost use Rattle.csv.specs.Reading.{Ready, reader_config, reader_trim, reader_state, default_config, strip_bom};
ghost use Rattle.csv.specs.declared.parser.State.TheVariants as st;
ghost use Rattle.csv.specs.declared.reader.Trim.TheVariants as trim;
ghost use Rattle.sp_words.specs.declared.interface.PortDecl.{PortDecl};
ghost use Rattle.sp_words.specs.Ports.{plain_port};
ghost use Rattle.sp_words.specs.Interface.{word_count};
ghost use Rattle.sp_setup.specs.Refusal.{size, IsRefusal};
ghost use Rattle.sp_setup.specs.Cells.{is_blank, trim_start, trim_end, cell_reading, cell_word, reading_check, dram_path, record_check, record_words, bytes_left, FileGives, CellsEnd};

use crate::error::{SetupEnd, SetupError, path};
use crate::reading::{Reading, read_text};
use csv::{ByteRecord, Reader, ReaderBuilder};
use sp_words::{PortDecl, Ports, Ty};
use std::alloc::{AllocError, Global};

/// The most words of a DRAM.
pub const MOST_WORDS: u64 = 67_108_864;

fn is_blank(byte: u8) -> bool
    ensures { result ≡ is_blank byte }
{
    byte == b' ' || byte == b'\t'
}

fn blanks_before(cell: &[u8]) -> usize
    ensures count { result ≡ prefix_len is_blank cell.now }
    ensures inside { result ≤ length cell.now }
{
    cell.iter().take_while(|byte| is_blank(**byte)).count()
}

fn blanks_after(cell: &[u8]) -> usize
    ensures count { result ≡ prefix_len is_blank (reverse cell.now) }
    ensures inside { result ≤ length cell.now }
{
    cell.iter()
        .rev()
        .take_while(|byte| is_blank(**byte))
        .count()
}

// A cell without the spaces and tabs around it.
fn trimmed(cell: &[u8]) -> &[u8]
    ensures { result.now ≡ trim_end (trim_start cell.now) }
{
    let rest = &cell[blanks_before(cell)..];
    &rest[..rest.len() - blanks_after(rest)]
}

#[tactic(auto, unfolding(crate::specs::Cells::cell_reading))]
fn read_trimmed(alloc: Global, ty: Ty, cell: &[u8]) -> Result<Reading, AllocError>
    ensures { IfOk result (λ reading. reading ≡ cell_reading ty cell.now) }
{
    read_text(alloc, ty, trimmed(cell))
}

// Adds the word of a cell.
fn read_cell(
    alloc: Global,
    port: &PortDecl,
    row: u64,
    cell: &[u8],
    words: &mut Vec<u64>,
) -> Result<(), SetupEnd>
    ensures passes { OnOk result (reading_check (dram_path (plain_port port.now)) row (length words.old.items) (cell_reading port.now.ty cell.now) ≡ None) }
    ensures word { OnOk result (words.new.items ≡ words.old.items ++ cell_word port.now.ty cell.now ∷ []) }
    ensures refused { IfErr result (IsRefusal (reading_check (dram_path (plain_port port.now)) row (length words.old.items) (cell_reading port.now.ty cell.now))) }
{
    let place = words.len() as u64;
    match read_trimmed(alloc, port.ty, cell)? {
        Reading::Word(word) => {
            words.push(word)?;
            Ok(())
        }
        Reading::OutOfRange => Err(SetupEnd::Refused(SetupError::Range {
            name: path(alloc, "dram", port.name.as_str())?,
            place,
        })),
        Reading::NoNumber => Err(SetupEnd::Refused(SetupError::Csv {
            name: path(alloc, "dram", port.name.as_str())?,
            row,
        })),
    }
}

// Adds the words of a record's cells.
fn read_record(
    alloc: Global,
    port: &PortDecl,
    row: u64,
    cells: &ByteRecord,
    words: &mut Vec<u64>,
) -> Result<(), SetupEnd>
    ensures passes { OnOk result (record_check (plain_port port.now) row (length words.old.items) (fields_of cells.now) ≡ None) }
    ensures words { OnOk result (words.new.items ≡ words.old.items ++ record_words port.now.ty (fields_of cells.now)) }
    ensures refused { IfErr result (IsRefusal (record_check (plain_port port.now) row (length words.old.items) (fields_of cells.now))) }
{
    for cell in cells {
        read_cell(alloc, port, row, cell, words)?;
    }
    Ok(())
}

// The product of the dimensions, or the type's end where it is greater.
fn count_of_words(dims: &[u32]) -> u128
    ensures { result ≡ min (word_count dims.now) (2 ^ 128 - 1) }
{
    dims.iter().fold(1, |count: u128, dim| count.saturating_mul(u128::from(*dim)))
}

fn has_few_words(port: &PortDecl) -> bool
    ensures { IsTrue result ↔ (word_count port.now.dims.items ≤ MOST_WORDS) }
{
    count_of_words(&port.dims) <= u128::from(MOST_WORDS)
}

/// Whether each DRAM has at most 67,108,864 words, as `read` asks.
pub fn dram_sizes_fit(ports: &Ports) -> bool
    ensures { IsTrue result ↔ All (λ (port : PortDecl). word_count port.dims.items ≤ MOST_WORDS) ports.now.drams.items }
{
    ports.drams.iter().all(|port| has_few_words(port))
}

// How many words a DRAM has.
pub(crate) fn words_of(port: &PortDecl) -> u64
    requires { word_count port.now.dims.items ≤ MOST_WORDS }
    ensures { result ≡ word_count port.now.dims.items }
{
    count_of_words(&port.dims) as u64
}

// A reader of records of any lengths, without a header.
fn reader_of(alloc: Global, bytes: &[u8]) -> Reader<&[u8]>
    ensures config { reader_config result ≡ default_config }
    ensures trim { reader_trim result ≡ trim.None }
    ensures ready { Ready result }
    ensures state { reader_state result ≡ st.StartRecord }
    ensures source { bytes_left result ≡ Some (strip_bom bytes.now) }
{
    ReaderBuilder::new()
        .has_headers(false)
        .flexible(true)
        .from_reader(alloc, bytes)
}

fn next_row(row: u64) -> Option<u64>
    ensures { IfSome result (λ next. next ≡ row + 1) }
{
    row.checked_add(1)
}

// Refuses another number of cells than the DRAM has words.
fn check_size(alloc: Global, port: &PortDecl, got: usize) -> Result<(), SetupEnd>
    requires { word_count port.now.dims.items ≤ MOST_WORDS }
    ensures ok { OnOk result (got ≡ word_count port.now.dims.items) }
    ensures apart { OnErr result (got ≢ word_count port.now.dims.items) }
    ensures refused { IfErr result (IsRefusal (Some (size (dram_path (plain_port port.now)) (word_count port.now.dims.items) got))) }
{
    let want = words_of(port);
    let got = got as u64;
    if got == want {
        return Ok(());
    }
    Err(SetupEnd::Refused(SetupError::Size {
        name: path(alloc, "dram", port.name.as_str())?,
        want,
        got,
    }))
}

// The words of a DRAM from the bytes of its file.
pub(crate) fn read_cells(alloc: Global, port: &PortDecl, bytes: &[u8]) -> Result<Vec<u64>, SetupEnd>
    requires { word_count port.now.dims.items ≤ MOST_WORDS }
    ensures ok { IfOk result (λ words. FileGives (plain_port port.now) bytes.now words.items) }
    ensures refused { IfErr result (CellsEnd (plain_port port.now) bytes.now) }
{
    let mut words = Vec::new(alloc);
    let mut row: u64 = 0;
    for line in reader_of(alloc, bytes).into_byte_records() {
        let Ok(cells) = line else {
            return Err(SetupEnd::Memory);
        };
        // 2 ^ 64 records would not fit in memory
        let Some(next) = next_row(row) else {
            return Err(SetupEnd::Memory);
        };
        row = next;
        read_record(alloc, port, row, &cells, &mut words)?;
    }
    check_size(alloc, port, words.len())?;
    Ok(words)
}
