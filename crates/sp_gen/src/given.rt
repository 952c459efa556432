//! The input of the program of a number.
ghost use Rattle.std.specs.Prelude.{◌≡◌, IfOk};
ghost use Rattle.sp_words.specs.Ports.{plain_input};
ghost use Rattle.sp_gen.specs.Input.{input_of};

use crate::NoMemory;
use crate::draws::Draws;
use sp_words::Input;
use std::alloc::Global;

/// What is drawn after the numbers of the program, and as many zeros.
pub fn input(alloc: Global, number: u32) -> Result<Input, NoMemory>
    ensures { IfOk result (λ input. plain_input input ≡ input_of number) }
{
    let mut draws = Draws {
        state: u64::from(number),
    };
    let numbers = draws.numbers();
    let count = numbers.tiles * numbers.tile;
    let words = draws.words(alloc, count)?;
    let zeros = vec![in alloc; 0u64; count as usize]?;
    let mut drams = Vec::new(alloc);
    drams.push(words)?;
    drams.push(zeros)?;
    Ok(Input {
        args: Vec::new(alloc),
        drams,
    })
}
