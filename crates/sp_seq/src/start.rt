//! The run of a whole program.
ghost use Rattle.std.specs.Prelude.{◌≡◌, ◌<◌, Some};
ghost use Rattle.sp_words.specs.Ports.{plain_input};
ghost use Rattle.sp_tree.specs.Meaning.{seq};
ghost use Rattle.sp_tree.specs.ProgramParts.{plain_program};
ghost use Rattle.sp_seq.specs.Loading.{IsLoaded, IsSeq, RanWhole};
ghost use Rattle.sp_seq.specs.Progress.{end_of};

use crate::end::SeqEnd;
use crate::state::{State, Stop};
use sp_tree::Program;
use sp_words::Input;

/// The entry takes a turn, and then the statements of the block are run.
fn enter(program: &Program, input: &Input, state: &mut State) -> Result<(), Stop>
    requires { IsLoaded (plain_program program.now) (plain_input input.now) state.old }
    ensures { RanWhole (plain_program program.now) (plain_input input.now) state.old.left result state.new }
{
    let decls = program.mems();
    let body = program.body();
    state.turn()?;
    state.body(decls, body)
}

/// Runs the program from its beginning, with so many turns.
pub(crate) fn go(program: &Program, input: &Input, state: &mut State, turns: u64) -> SeqEnd
    requires { IsLoaded (plain_program program.now) (plain_input input.now) state.old }
    ensures end { result ≡ end_of (seq turns (plain_program program.now) (plain_input input.now)) }
    ensures left { IsSeq (plain_program program.now) (plain_input input.now) (Some (record { given = turns; end = result })) state.new }
{
    state.left = turns;
    match enter(program, input, state) {
        Ok(()) => SeqEnd::Ended {
            turns: turns - state.left,
        },
        Err(Stop::Fault(kind, at)) => SeqEnd::Fault { kind, at },
        Err(Stop::Turns) => SeqEnd::TurnsSpent,
    }
}
