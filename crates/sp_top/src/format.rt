//! `format P`: from a name to the canonical text of its program.
ghost use Rattle.std.specs.Prelude.{◌≡◌, ◌≤◌, IfOk, IfErr, length, string_bytes};
ghost use Rattle.sp_edges.specs.Counts.{Rose};
ghost use Rattle.sp_top.specs.Status.{plain_status};
ghost use Rattle.sp_top.specs.Programs.{Translates};
ghost use Rattle.sp_top.specs.Check.{WritesCanonical, CheckRefuses, RefusesSource};

use crate::compile::LONGEST_PROGRAM;
use crate::reads::read_text;
use crate::sinks::Texts;
use crate::status::Status;
use sp_edges::Inputs;
use sp_printer::print;
use sp_source::program_of_text;
use std::alloc::Global;

// The canonical text of the program that the bytes spell.
fn canonical_of(alloc: Global, bytes: &[u8]) -> Result<String, Status>
    requires { length bytes.now ≤ 1048576 }
    ensures canonical { IfOk result (λ text. WritesCanonical bytes.now (string_bytes text)) }
    ensures refused { IfErr result (λ status. RefusesSource bytes.now (plain_status status)) }
{
    let program = program_of_text(alloc, bytes)?;
    let text = print(alloc, &program)?;
    Ok(text)
}

/// Reads a program and gives its canonical text for `out`, and nothing for `aside`.
pub fn print_canonical<I: Inputs>(
    alloc: Global,
    program: &str,
    inputs: &mut I,
) -> Result<Texts, Status>
    ensures done { IfOk result (λ texts. Translates WritesCanonical (I.told inputs.old) (λ calls. I.asked inputs.old calls inputs.new) program.now (string_bytes texts.out) (string_bytes texts.aside)) }
    ensures refused { IfErr result (λ status. CheckRefuses (I.told inputs.old)
        (λ name. Rose (I.faults inputs.old) (I.faults inputs.new) × (I.sure inputs.old name → ⊥)) (λ calls. I.asked inputs.old calls inputs.new) program.now (plain_status status)) }
{
    let bytes = read_text(alloc, program, LONGEST_PROGRAM, inputs)?;
    Ok(Texts {
        out: canonical_of(alloc, &bytes)?,
        aside: String::new(alloc),
    })
}
