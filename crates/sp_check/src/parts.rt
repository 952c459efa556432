//! The parts of the typed program of a tree, or its refusal.

ghost use Rattle.std.specs.Prelude.{◌≡◌, IfErr, IfOk, OnOk};
ghost use Rattle.sp_reader.specs.PlainProgram.{plain_syntax};
ghost use Rattle.sp_tree.specs.ProgramParts.{plain_program};
ghost use Rattle.sp_typed.specs.Programs.{program_of};
ghost use Rattle.sp_check.specs.Parts.{parts_of};
ghost use Rattle.sp_check.specs.Refused.{IsRight, IsCause};

use crate::declared::declarations;
use crate::error::TypeError;
use crate::ports::ports_of;
use sp_counts::first_over;
use sp_reader::Syntax;
use sp_tree::{MemDecl, Stmt};
use sp_typed::typed_block;
use sp_types::first_refusal;
use sp_words::Ports;
use std::alloc::{AllocError, Global};

/// The parts of a program.
#[derive(Drop)]
pub struct Parts {
    pub ports: Ports,
    pub mems: Vec<MemDecl>,
    pub vals: Vec<String>,
    pub counters: Vec<String>,
    pub body: Vec<Stmt>,
}

/// The parts of the program that a tree without refusals spells.
fn program_parts(alloc: Global, syntax: &Syntax) -> Result<Parts, AllocError>
    ensures { IfOk result (λ parts. plain_program (parts_of parts) ≡ program_of (plain_syntax syntax.now)) }
{
    let all = declarations(alloc, syntax)?;
    let body = typed_block(alloc, syntax)?;
    let ports = ports_of(alloc, &all.mems)?;
    Ok(Parts {
        ports,
        mems: all.mems,
        vals: all.vals,
        counters: all.counters,
        body,
    })
}

/// The parts of the program of a tree, or why it gives none.
pub(crate) fn checked_parts(alloc: Global, syntax: &Syntax) -> Result<Parts, TypeError>
    ensures program { IfOk result (λ parts. plain_program (parts_of parts) ≡ program_of (plain_syntax syntax.now)) }
    ensures right { OnOk result (IsRight (plain_syntax syntax.now)) }
    ensures refused { IfErr result (IsCause (plain_syntax syntax.now)) }
{
    if let Some(refusal) = first_refusal(alloc, syntax)? {
        return Err(TypeError::from(refusal));
    }
    let parts = program_parts(alloc, syntax)?;
    if let Some(over) = first_over(alloc, &parts.mems, &parts.body)? {
        return Err(TypeError::from(over));
    }
    Ok(parts)
}
