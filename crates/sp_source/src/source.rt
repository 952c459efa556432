//! Reading and typing a text.
ghost use Rattle.std.specs.Prelude.{◌≡◌, ◌≤◌, ℕ, List, length, IfErr, IfOk};
ghost use Rattle.sp_reader.specs.Limits.{read_of};
ghost use Rattle.sp_tree.specs.PlainProgram.{PlainProgram};
ghost use Rattle.sp_tree.specs.ProgramParts.{plain_program};
ghost use Rattle.sp_source.specs.Texts.{Spells, IsCauseOf};

use crate::error::SourceError;
use sp_check::{TypeError, check};
use sp_read_trees::read_trees_keep_their_rules;
use sp_reader::{ReadError, read};
use sp_tree::Program;
use std::alloc::Global;

/// The typed program that a text of at most 1,048,576 bytes spells; or the first refusal of its reading; or the first
/// place at which its tree breaks a rule of names and types; or else the first count past its limit.
pub fn program_of_text(alloc: Global, bytes: &[u8]) -> Result<Program, SourceError>
    requires { length bytes.now ≤ 1048576 }
    ensures program { IfOk result (λ program. Spells bytes.now (plain_program program)) }
    ensures refused { IfErr result (IsCauseOf bytes.now) }
{
    let syntax = match read(alloc, bytes) {
        Ok(syntax) => syntax,
        Err(ReadError::Memory) => return Err(SourceError::Memory),
        Err(error) => return Err(SourceError::Read(error)),
    };
    read_trees_keep_their_rules();
    match check(alloc, &syntax) {
        Ok(program) => Ok(program),
        Err(TypeError::Memory) => Err(SourceError::Memory),
        Err(error) => Err(SourceError::Types(error)),
    }
}
