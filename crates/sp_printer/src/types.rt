//! Types as they are written.
ghost use Rattle.std.specs.Prelude.{◌≡◌, ◌++◌, string_bytes, OnOk};
ghost use Rattle.sp_printer.specs.Types.{is_int_fix, is_int, fix_text, type_text};

use crate::NoMemory;
use sp_words::{FixTy, Ty};

fn is_int_fix(fix: FixTy) -> bool
    ensures { result ≡ is_int_fix fix }
{
    fix.signed() && (fix.whole() == 32 && fix.frac() == 0)
}

/// Whether the type is `Int`.
pub(crate) fn is_int(ty: Ty) -> bool
    ensures { result ≡ is_int ty }
{
    match ty {
        Ty::Fix(fix) => is_int_fix(fix),
        Ty::Bit => false,
    }
}

fn push_fix(text: &mut String, fix: FixTy) -> Result<(), NoMemory>
    ensures { OnOk result (string_bytes text.new ≡ string_bytes text.old ++ fix_text fix) }
{
    let sign = if fix.signed() { "TRUE" } else { "FALSE" };
    let whole = fix.whole();
    let frac = fix.frac();
    write!(text, "FixPt[{sign},_{whole},_{frac}]")?;
    Ok(())
}

/// Appends the type.
pub(crate) fn push_type(text: &mut String, ty: Ty) -> Result<(), NoMemory>
    ensures { OnOk result (string_bytes text.new ≡ string_bytes text.old ++ type_text ty) }
{
    match ty {
        Ty::Fix(fix) => {
            if is_int_fix(fix) {
                return text.push_str("Int");
            }
            push_fix(text, fix)
        }
        Ty::Bit => text.push_str("Bit"),
    }
}
