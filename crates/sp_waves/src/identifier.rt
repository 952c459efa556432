//! The identifiers of variables.
ghost use Rattle.std.specs.Prelude.{◌≡◌, ◌++◌, OnOk, string_bytes};
ghost use Rattle.sp_waves.specs.Identifiers.{identifier};

use crate::NoMemory;

/// Appends the identifier of the variable of that number.
pub(crate) fn push_identifier(text: &mut String, number: usize) -> Result<(), NoMemory>
    ensures { OnOk result (string_bytes text.new ≡ string_bytes text.old ++ identifier number) }
{
    let character = 33 + (number % 94) as u8;
    text.push(char::from(character))?;
    if number >= 94 {
        push_identifier(text, number / 94 - 1)?;
    }
    Ok(())
}
