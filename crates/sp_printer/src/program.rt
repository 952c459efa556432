//! The text of a whole program.
ghost use Rattle.std.specs.Prelude.{◌≡◌, ◌++◌, map, string_bytes, OnOk, IfOk};
ghost use Rattle.sp_tree.specs.Counts.{is_port};
ghost use Rattle.sp_tree.specs.Plain.{plain_mem};
ghost use Rattle.sp_tree.specs.ProgramParts.{plain_program};
ghost use Rattle.sp_printer.specs.Program.{ports_text, canonical_text};

use crate::NoMemory;
use crate::body::push_body;
use crate::pieces::push_mem;
use sp_tree::{MemDecl, Program};
use sp_words::Kind;
use std::alloc::Global;

fn is_port(kind: Kind) -> bool
    ensures { result ≡ is_port kind }
{
    match kind {
        Kind::Dram => true,
        Kind::ArgIn => true,
        Kind::ArgOut => true,
        _ => false,
    }
}

/// Appends the lines of the arguments, outputs and DRAMs.
fn push_ports(alloc: Global, text: &mut String, mems: &[MemDecl]) -> Result<(), NoMemory>
    ensures { OnOk result (string_bytes text.new ≡ string_bytes text.old ++ ports_text (map plain_mem mems.now)) }
{
    let [mem, rest @ ..] = mems else {
        return Ok(());
    };
    if is_port(mem.kind) {
        push_mem(alloc, text, mem)?;
        text.push_str("\n")?;
    }
    push_ports(alloc, text, rest)?;
    Ok(())
}

/// The canonical text of the program: the same text for each program that differs in places alone.
pub fn print(alloc: Global, program: &Program) -> Result<String, NoMemory>
    ensures { IfOk result (λ text. string_bytes text ≡ canonical_text (plain_program program.now)) }
{
    let mut text = String::new(alloc);
    push_ports(alloc, &mut text, program.mems())?;
    text.push_str("Accel {")?;
    text.push_str("\n")?;
    push_body(alloc, &mut text, program, "  ", program.body())?;
    text.push_str("}")?;
    text.push_str("\n")?;
    Ok(text)
}
