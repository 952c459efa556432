//! The typed program of a tree, or its refusal.

ghost use Rattle.std.specs.Prelude.{◌≡◌, IfErr, IfOk, OnOk};
ghost use Rattle.sp_reader.specs.PlainProgram.{plain_syntax};
ghost use Rattle.sp_tree.specs.ProgramParts.{plain_program};
ghost use Rattle.sp_typed.specs.Programs.{program_of};
ghost use Rattle.sp_typed.specs.ReadTree.{IsReadTree};
ghost use Rattle.sp_check.specs.Refused.{IsRight, IsCause};

use crate::error::TypeError;
use crate::parts::checked_parts;
use sp_reader::Syntax;
use sp_tree::Program;
use sp_typing::right_trees_are_programs;
use std::alloc::Global;

/// The typed program of a tree that was read; or the first place of its text that breaks a rule of names and types;
/// or else the first count past its limit, in the order of `Which`.
pub fn check(alloc: Global, syntax: &Syntax) -> Result<Program, TypeError>
    requires { IsReadTree (plain_syntax syntax.now) }
    ensures program { IfOk result (λ program. plain_program program ≡ program_of (plain_syntax syntax.now)) }
    ensures right { OnOk result (IsRight (plain_syntax syntax.now)) }
    ensures refused { IfErr result (IsCause (plain_syntax syntax.now)) }
{
    let parts = checked_parts(alloc, syntax)?;
    right_trees_are_programs();
    Ok(Program::new(
        parts.ports,
        parts.mems,
        parts.vals,
        parts.counters,
        parts.body,
    ))
}
