//! Literals as they are written.
ghost use Rattle.std.specs.Prelude.{◌≡◌, ◌++◌, string_bytes, OnOk};
ghost use Rattle.sp_words.specs.Words.{IsWord};
ghost use Rattle.sp_printer.specs.Words.{word_at, literal_text, cast_text, type_after};

use crate::NoMemory;
use crate::types::{is_int, push_type};
use sp_words::{Ty, value_text};
use std::alloc::Global;

/// The lowest bits of the number, as many as the type has: all of them in a program.
pub(crate) fn word_at(ty: Ty, number: u64) -> u64
    ensures value { result ≡ word_at ty number }
    ensures word { IsWord ty result }
{
    let bound: u128 = 1 << ty.width();
    (u128::from(number) % bound) as u64
}

/// Appends a cast to the type.
pub(crate) fn push_cast(text: &mut String, ty: Ty) -> Result<(), NoMemory>
    ensures { OnOk result (string_bytes text.new ≡ string_bytes text.old ++ cast_text ty) }
{
    text.push_str(".to[")?;
    push_type(text, ty)?;
    text.push_str("]")?;
    Ok(())
}

fn push_type_after(text: &mut String, ty: Ty) -> Result<(), NoMemory>
    ensures { OnOk result (string_bytes text.new ≡ string_bytes text.old ++ type_after ty) }
{
    if is_int(ty) {
        return Ok(());
    }
    push_cast(text, ty)
}

/// Appends the literal.
pub(crate) fn push_literal(
    alloc: Global,
    text: &mut String,
    ty: Ty,
    number: u64,
) -> Result<(), NoMemory>
    ensures { OnOk result (string_bytes text.new ≡ string_bytes text.old ++ literal_text ty number) }
{
    match ty {
        Ty::Bit => text.push_str(if number == 0 { "false" } else { "true" }),
        Ty::Fix(fix) => {
            let decimal = value_text(alloc, Ty::Fix(fix), word_at(Ty::Fix(fix), number))?;
            text.push_str(&decimal)?;
            push_type_after(text, Ty::Fix(fix))?;
            Ok(())
        }
    }
}
