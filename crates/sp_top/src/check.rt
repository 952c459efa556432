//! `check P`: from a name to whether its text is a program.
ghost use Rattle.std.specs.Prelude.{◌≡◌, ◌≤◌, IfOk, IfErr, length, string_bytes};
ghost use Rattle.sp_edges.specs.Counts.{Rose};
ghost use Rattle.sp_top.specs.Status.{plain_status};
ghost use Rattle.sp_top.specs.Programs.{Translates};
ghost use Rattle.sp_top.specs.Check.{SaysRight, CheckRefuses, RefusesSource, status_of_source};

use crate::compile::LONGEST_PROGRAM;
use crate::reads::read_text;
use crate::sinks::Texts;
use crate::status::Status;
use sp_edges::Inputs;
use sp_source::{SourceError, program_of_text};
use std::alloc::Global;

impl From<SourceError> for Status {
    ghost from_gives = { λ e status. plain_status status ≡ status_of_source e };

    fn from(error: SourceError) -> Status {
        match error {
            SourceError::Memory => Status::Memory,
            _ => Status::Source(error),
        }
    }
}

// What is said of the bytes of a program.
fn verdict_on(alloc: Global, bytes: &[u8]) -> Result<String, Status>
    requires { length bytes.now ≤ 1048576 }
    ensures says { IfOk result (λ text. SaysRight bytes.now (string_bytes text)) }
    ensures refused { IfErr result (λ status. RefusesSource bytes.now (plain_status status)) }
{
    program_of_text(alloc, bytes)?;
    let text = String::from_str(alloc, "ok\n")?;
    Ok(text)
}

/// Reads a program and says for `out` that it is one, and nothing for `aside`.
pub fn check<I: Inputs>(alloc: Global, program: &str, inputs: &mut I) -> Result<Texts, Status>
    ensures done { IfOk result (λ texts. Translates SaysRight (I.told inputs.old) (λ calls. I.asked inputs.old calls inputs.new) program.now (string_bytes texts.out) (string_bytes texts.aside)) }
    ensures refused { IfErr result (λ status. CheckRefuses (I.told inputs.old)
        (λ name. Rose (I.faults inputs.old) (I.faults inputs.new) × (I.sure inputs.old name → ⊥)) (λ calls. I.asked inputs.old calls inputs.new) program.now (plain_status status)) }
{
    let bytes = read_text(alloc, program, LONGEST_PROGRAM, inputs)?;
    Ok(Texts {
        out: verdict_on(alloc, &bytes)?,
        aside: String::new(alloc),
    })
}
