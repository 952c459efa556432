//! `report P`: from a name to what is decided of its program.
ghost use Rattle.std.specs.Prelude.{◌≡◌, ◌≤◌, IfOk, IfErr, length, string_bytes};
ghost use Rattle.sp_edges.specs.Counts.{Rose};
ghost use Rattle.sp_top.specs.Status.{plain_status};
ghost use Rattle.sp_top.specs.Programs.{Translates};
ghost use Rattle.sp_top.specs.Check.{WritesReport, CheckRefuses, RefusesSource};

use crate::compile::LONGEST_PROGRAM;
use crate::reads::read_text;
use crate::sinks::Texts;
use crate::status::Status;
use sp_compile::plan;
use sp_edges::Inputs;
use sp_report::report;
use sp_source::program_of_text;
use std::alloc::Global;

// The report of the plan that is chosen for the program that the bytes spell.
fn report_of(alloc: Global, bytes: &[u8]) -> Result<String, Status>
    requires { length bytes.now ≤ 1048576 }
    ensures writes { IfOk result (λ text. WritesReport bytes.now (string_bytes text)) }
    ensures refused { IfErr result (λ status. RefusesSource bytes.now (plain_status status)) }
{
    let program = program_of_text(alloc, bytes)?;
    let made = plan(alloc, &program)?;
    let text = report(alloc, &made.core, &made.plan)?;
    Ok(text)
}

/// Reads a program and gives the report of its plan for `out`, and nothing for `aside`.
pub fn print_report<I: Inputs>(
    alloc: Global,
    program: &str,
    inputs: &mut I,
) -> Result<Texts, Status>
    ensures done { IfOk result (λ texts. Translates WritesReport (I.told inputs.old) (λ calls. I.asked inputs.old calls inputs.new) program.now (string_bytes texts.out) (string_bytes texts.aside)) }
    ensures refused { IfErr result (λ status. CheckRefuses (I.told inputs.old)
        (λ name. Rose (I.faults inputs.old) (I.faults inputs.new) × (I.sure inputs.old name → ⊥)) (λ calls. I.asked inputs.old calls inputs.new) program.now (plain_status status)) }
{
    let bytes = read_text(alloc, program, LONGEST_PROGRAM, inputs)?;
    Ok(Texts {
        out: report_of(alloc, &bytes)?,
        aside: String::new(alloc),
    })
}
