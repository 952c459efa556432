//! The lines of refusals.
ghost use Rattle.std.specs.Prelude.{◌≡◌, ◌++◌, IfOk, MatchOption, codes, string_bytes};
ghost use Rattle.sp_setup.specs.Refusal.{plain_error};
ghost use Rattle.sp_top.specs.Status.{plain_status, line_of, HasParts, listing_refused, conflict, stopped_at, setup_refused, read_line, types_head, source_refused};
ghost use Rattle.sp_check.specs.Texts.{error_text};

use crate::status::Status;
use sp_check::TypeError;
use sp_listing::ListError;
use sp_netlist::{NetError, Port};
use sp_reader::ReadError;
use sp_setup::SetupError;
use sp_source::SourceError;
use sp_tree::FaultKind;
use std::alloc::{AllocError, Global};

/// The line of a status, where it is a constant.
pub fn constant_line(status: &Status) -> Option<&'static str>
    ensures { MatchOption result (HasParts (plain_status status.now)) (λ line. line.now ≡ line_of (plain_status status.now)) }
{
    match status {
        Status::Done | Status::WriteFault { which: _ } => Some(""),
        Status::Words => Some("words: not in the command table\n"),
        Status::ReadFault => Some("read fault\n"),
        Status::Memory => Some("memory\n"),
        _ => None,
    }
}

fn setup_line(alloc: Global, error: &SetupError) -> Result<String, AllocError>
    ensures { IfOk result (λ line. string_bytes line ≡ line_of (setup_refused (plain_error error.now))) }
{
    format!(in alloc; "setup: {error}\n")
}

fn net_line(alloc: Global, error: NetError) -> Result<String, AllocError>
    ensures { IfOk result (λ line. string_bytes line ≡ line_of (listing_refused (ListError.Net error))) }
{
    match error {
        NetError::Driven { net } => format!(in alloc; "listing: net {net} is not driven once\n"),
        NetError::Width { net } => format!(in alloc; "listing: width of net {net}\n"),
        NetError::Loop { net } => format!(in alloc; "listing: loop through net {net}\n"),
        NetError::NetLimit { count } => format!(in alloc; "listing: limit {count}\n"),
        NetError::Memory => String::from_str(alloc, "listing: out of memory\n"),
    }
}

fn listing_line(alloc: Global, error: ListError) -> Result<String, AllocError>
    ensures { IfOk result (λ line. string_bytes line ≡ line_of (listing_refused error)) }
{
    match error {
        ListError::NoListing { line } => format!(in alloc; "listing: no listing at line {line}\n"),
        ListError::Net(error) => net_line(alloc, error),
        ListError::Memory => String::from_str(alloc, "listing: out of memory\n"),
    }
}

fn conflict_line(alloc: Global, cycle: u64, bank: u64, port: Port) -> Result<String, AllocError>
    ensures { IfOk result (λ line. string_bytes line ≡ line_of (conflict cycle bank port)) }
{
    match port {
        Port::Read => format!(in alloc; "conflict: cycle {cycle}, bank {bank}, read port\n"),
        Port::Write => format!(in alloc; "conflict: cycle {cycle}, bank {bank}, write port\n"),
    }
}

fn fault_line(alloc: Global, kind: FaultKind, at: u32) -> Result<String, AllocError>
    ensures { IfOk result (λ line. string_bytes line ≡ line_of (stopped_at kind at)) }
{
    match kind {
        FaultKind::Bounds => format!(in alloc; "fault: Bounds at {at}\n"),
        FaultKind::Unwritten => format!(in alloc; "fault: Unwritten at {at}\n"),
        FaultKind::FifoFull => format!(in alloc; "fault: FifoFull at {at}\n"),
        FaultKind::FifoEmpty => format!(in alloc; "fault: FifoEmpty at {at}\n"),
        FaultKind::DramBounds => format!(in alloc; "fault: DramBounds at {at}\n"),
        FaultKind::RowLength => format!(in alloc; "fault: RowLength at {at}\n"),
    }
}

fn read_line(alloc: Global, error: ReadError) -> Result<String, AllocError>
    ensures { IfOk result (λ line. string_bytes line ≡ codes "source: " ++ read_line error) }
{
    match error {
        ReadError::NotText { at } => format!(in alloc; "source: not text at {at}\n"),
        ReadError::NoParse { at } => format!(in alloc; "source: no parse at {at}\n"),
        ReadError::TooDeep { at } => format!(in alloc; "source: too deep at {at}\n"),
        ReadError::LiteralTooWide { at } => format!(in alloc; "source: literal too wide at {at}\n"),
        ReadError::Memory => String::from_str(alloc, "source: out of memory\n"),
    }
}

fn types_line(alloc: Global, error: TypeError) -> Result<String, AllocError>
    ensures { IfOk result (λ line. string_bytes line ≡ types_head error ++ (error_text error ++ codes "\n")) }
{
    match error {
        TypeError::Limit { which: _, count: _ } => format!(in alloc; "limit: {error}\n"),
        _ => format!(in alloc; "types: {error}\n"),
    }
}

fn source_line(alloc: Global, error: SourceError) -> Result<String, AllocError>
    ensures { IfOk result (λ line. string_bytes line ≡ line_of (source_refused error)) }
{
    match error {
        SourceError::Read(error) => read_line(alloc, error),
        SourceError::Types(error) => types_line(alloc, error),
        SourceError::Memory => String::from_str(alloc, "source: out of memory\n"),
    }
}

/// The line of a status with a name or a number in it.
pub fn built_line(alloc: Global, status: &Status) -> Result<String, AllocError>
    requires { HasParts (plain_status status.now) }
    ensures { IfOk result (λ line. string_bytes line ≡ line_of (plain_status status.now)) }
{
    match status {
        Status::Setup(error) => setup_line(alloc, error),
        Status::Listing(error) => listing_line(alloc, *error),
        Status::Conflict { cycle, bank, port } => conflict_line(alloc, *cycle, *bank, *port),
        Status::CyclesSpent { cycles } => format!(in alloc; "cycles spent: {cycles}\n"),
        Status::Fault { kind, at } => fault_line(alloc, *kind, *at),
        Status::TurnsSpent { turns } => format!(in alloc; "turns spent: {turns}\n"),
        Status::TooLong { name } => format!(in alloc; "too long: {name}\n"),
        Status::Unbuilt { line } => format!(in alloc; "unbuilt at line {line}\n"),
        Status::Source(error) => source_line(alloc, *error),
        _ => Ok(String::new(alloc)),
    }
}
