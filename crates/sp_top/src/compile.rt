//! `compile P` and `verilog P`: from a name to a text of its program's netlist.
ghost use Rattle.std.specs.Prelude.{◌≡◌, ◌≤◌, count_by, length, map, IfOk, IfErr, string_bytes};
ghost use Rattle.sp_edges.specs.Counts.{Rose};
ghost use Rattle.sp_tree.specs.Counts.{is_port};
ghost use Rattle.sp_tree.specs.Plain.{plain_mem};
ghost use Rattle.sp_tree.specs.PlainProgram.{PlainMem};
ghost use Rattle.sp_tree.specs.ProgramParts.{plain_program};
ghost use Rattle.sp_top.specs.Status.{plain_status, memory};
ghost use Rattle.sp_top.specs.Compile.{CarriesText, ListsProgram, PrintsProgram, RefusesProgram, CompileRefuses, block_line};
ghost use Rattle.sp_top.specs.Programs.{Translates};

use crate::reads::read_text;
use crate::sinks::Texts;
use crate::status::Status;
use sp_build::build;
use sp_edges::Inputs;
use sp_listing::write;
use sp_netlist::Netlist;
use sp_source::program_of_text;
use sp_tree::{MemDecl, Program};
use sp_verilog::verilog;
use sp_words::Kind;
use std::alloc::{AllocError, Global};

/// The longest text of a program that is read, in bytes.
pub const LONGEST_PROGRAM: usize = 1_048_576;

impl From<AllocError> for Status {
    ghost from_gives = { λ _ status. plain_status status ≡ memory };

    fn from(_error: AllocError) -> Status {
        Status::Memory
    }
}

fn is_port(kind: Kind) -> bool
    ensures { result ≡ is_port kind }
{
    matches!(kind, Kind::ArgIn | Kind::ArgOut | Kind::Dram)
}

// How many of these are arguments, outputs and DRAMs.
fn port_count(mems: &[MemDecl]) -> u64
    ensures count { result ≡ count_by (λ (m : PlainMem). is_port m.kind) (map plain_mem mems.now) }
    ensures bound { result ≤ length mems.now }
{
    let mut count = 0;
    for mem in mems {
        if is_port(mem.kind) {
            count += 1;
        }
    }
    count
}

/// The line of the canonical text with which a program's block begins.
pub fn block_line(program: &Program) -> u64
    ensures { result ≡ block_line (plain_program program.now) }
{
    port_count(program.mems()) + 1
}

// A netlist that carries the program of these bytes.
fn netlist_of(alloc: Global, bytes: &[u8]) -> Result<Netlist, Status>
    requires { length bytes.now ≤ 1048576 }
    ensures carries { IfOk result (CarriesText bytes.now) }
    ensures refused { IfErr result (λ status. RefusesProgram bytes.now (plain_status status)) }
{
    let program = program_of_text(alloc, bytes)?;
    match build(alloc, &program)? {
        Some(netlist) => Ok(netlist),
        None => Err(Status::Unbuilt {
            line: block_line(&program),
        }),
    }
}

fn listing_of_program(alloc: Global, bytes: &[u8]) -> Result<String, Status>
    requires { length bytes.now ≤ 1048576 }
    ensures listing { IfOk result (λ text. ListsProgram bytes.now (string_bytes text)) }
    ensures refused { IfErr result (λ status. RefusesProgram bytes.now (plain_status status)) }
{
    let netlist = netlist_of(alloc, bytes)?;
    let text = write(alloc, &netlist)?;
    Ok(text)
}

fn verilog_of_program(alloc: Global, bytes: &[u8]) -> Result<String, Status>
    requires { length bytes.now ≤ 1048576 }
    ensures prints { IfOk result (λ text. PrintsProgram bytes.now (string_bytes text)) }
    ensures refused { IfErr result (λ status. RefusesProgram bytes.now (plain_status status)) }
{
    let netlist = netlist_of(alloc, bytes)?;
    let text = verilog(alloc, &netlist)?;
    Ok(text)
}

/// Reads a program and gives the listing of its netlist for `out`, and nothing for `aside`.
pub fn compile<I: Inputs>(alloc: Global, program: &str, inputs: &mut I) -> Result<Texts, Status>
    ensures done { IfOk result (λ texts. Translates ListsProgram (I.told inputs.old) (λ calls. I.asked inputs.old calls inputs.new) program.now (string_bytes texts.out) (string_bytes texts.aside)) }
    ensures refused { IfErr result (λ status. CompileRefuses (I.told inputs.old)
        (λ name. Rose (I.faults inputs.old) (I.faults inputs.new) × (I.sure inputs.old name → ⊥)) (λ calls. I.asked inputs.old calls inputs.new) program.now (plain_status status)) }
{
    let bytes = read_text(alloc, program, LONGEST_PROGRAM, inputs)?;
    Ok(Texts {
        out: listing_of_program(alloc, &bytes)?,
        aside: String::new(alloc),
    })
}

/// Reads a program and gives the Verilog text of its netlist for `out`, and nothing for `aside`.
pub fn print_verilog<I: Inputs>(
    alloc: Global,
    program: &str,
    inputs: &mut I,
) -> Result<Texts, Status>
    ensures done { IfOk result (λ texts. Translates PrintsProgram (I.told inputs.old) (λ calls. I.asked inputs.old calls inputs.new) program.now (string_bytes texts.out) (string_bytes texts.aside)) }
    ensures refused { IfErr result (λ status. CompileRefuses (I.told inputs.old)
        (λ name. Rose (I.faults inputs.old) (I.faults inputs.new) × (I.sure inputs.old name → ⊥)) (λ calls. I.asked inputs.old calls inputs.new) program.now (plain_status status)) }
{
    let bytes = read_text(alloc, program, LONGEST_PROGRAM, inputs)?;
    Ok(Texts {
        out: verilog_of_program(alloc, &bytes)?,
        aside: String::new(alloc),
    })
}
