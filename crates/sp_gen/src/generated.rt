//! The program of a number, and its input.
ghost use Rattle.std.specs.Prelude.{◌≡◌, IfOk, IfErr};
ghost use Rattle.sp_words.specs.Ports.{plain_input};
ghost use Rattle.sp_tree.specs.ProgramParts.{plain_program};
ghost use Rattle.sp_source.specs.Texts.{Spells};
ghost use Rattle.sp_gen.specs.Generated.{IsGenCause};
ghost use Rattle.sp_gen.specs.Input.{input_of};
ghost use Rattle.sp_gen.specs.Text as spec;

use crate::error::GenError;
use crate::given::input;
use crate::text::program_text;
use sp_source::{SourceError, program_of_text};
use sp_tree::Program;
use sp_words::Input;
use std::alloc::Global;

fn program(alloc: Global, number: u32) -> Result<Program, GenError>
    ensures program { IfOk result (λ program. Spells (spec.program_text number) (plain_program program)) }
    ensures refused { IfErr result (IsGenCause number) }
{
    let text = program_text(alloc, number)?;
    match program_of_text(alloc, text.as_bytes()) {
        Ok(program) => Ok(program),
        Err(SourceError::Memory) => Err(GenError::Memory),
        Err(error) => Err(GenError::Text(error)),
    }
}

/// The program of a number, and its input: the words of the first DRAM are drawn, those of the second are zeros.
pub fn generate(alloc: Global, number: u32) -> Result<(Program, Input), GenError>
    ensures program { IfOk result (λ made. Spells (spec.program_text number) (plain_program made.0)) }
    ensures input { IfOk result (λ made. plain_input made.1 ≡ input_of number) }
    ensures refused { IfErr result (IsGenCause number) }
{
    let program = program(alloc, number)?;
    let input = input(alloc, number)?;
    Ok((program, input))
}
