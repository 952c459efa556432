//! The command table.
ghost use Rattle.std.specs.Prelude.{◌≡◌, [], All, IfOk, IfSome, IsNone, map, string_bytes};
ghost use Rattle.sp_command.specs.Commands.{IsCommand, IsFileWord};
ghost use Rattle.sp_command.specs.Said.{plain_command, words_of};

use crate::NoMemory;
use crate::said::{Said, said_of};
use std::alloc::Global;

/// A row of the command table.
#[derive(Clone, Copy, Debug)]
pub enum Command<'a> {
    /// `check P`: whether program P is one of the language.
    Check { program: &'a str },
    /// `format P`: the canonical text of program P.
    Format { program: &'a str },
    /// `compile P`: the listing of the netlist of program P.
    Compile { program: &'a str },
    /// `verilog P`: the Verilog text of that netlist.
    Verilog { program: &'a str },
    /// `report P`: what is decided of program P: its banks, times, slots and copies.
    Report { program: &'a str },
    /// `seq P S`: what program P leaves under the setup S.
    Seq { program: &'a str, setup: &'a str },
    /// `run P S`: the netlist of program P, and the result of its run under the setup S.
    Run { program: &'a str, setup: &'a str },
    /// `simulate L S`: the result of the listing L under the setup S.
    Simulate { listing: &'a str, setup: &'a str },
    /// `waves L S`: the value change dump of that run.
    Waves { listing: &'a str, setup: &'a str },
}

/// The row that words which name files are, if they are one.
fn row_of(said: Said<'_>) -> Option<Command<'_>>
    requires { All IsFileWord (words_of said) }
    ensures found { IfSome result (λ command. IsCommand (words_of said.entry) (plain_command command)) }
    ensures none { IsNone result → (command : _) → IsCommand (words_of said.entry) command → ⊥ }
{
    let program = said.first;
    match (said.verb, said.second) {
        ("check", None) => Some(Command::Check { program }),
        ("format", None) => Some(Command::Format { program }),
        ("compile", None) => Some(Command::Compile { program }),
        ("verilog", None) => Some(Command::Verilog { program }),
        ("report", None) => Some(Command::Report { program }),
        ("seq", Some(setup)) => Some(Command::Seq { program, setup }),
        ("run", Some(setup)) => Some(Command::Run { program, setup }),
        ("simulate", Some(setup)) => Some(Command::Simulate {
            listing: program,
            setup,
        }),
        ("waves", Some(setup)) => Some(Command::Waves {
            listing: program,
            setup,
        }),
        _ => None,
    }
}

/// The command that the words are, if they are one.
pub fn command_of<'a>(alloc: Global, words: &'a [String]) -> Result<Option<Command<'a>>, NoMemory>
    ensures found { IfOk result (λ found. IfSome found (λ command. IsCommand (map string_bytes words.entry.now) (plain_command command))) }
    ensures none { IfOk result (λ found. IsNone found → (command : _) → IsCommand (map string_bytes words.entry.now) command → ⊥) }
{
    let Some(said) = said_of(alloc, words)? else {
        return Ok(None);
    };
    Ok(row_of(said))
}
