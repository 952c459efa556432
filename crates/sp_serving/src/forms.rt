//! The forms of the accesses of a memory.

ghost use Rattle.std.specs.Prelude.{◌≡◌, length, option_map};
ghost use Rattle.sp_affine.specs.Equality.{linear_parts_equal};
ghost use Rattle.sp_core.specs.CoreParts.{plain_core};
ghost use Rattle.sp_core.specs.Declarations.{mem};
ghost use Rattle.sp_core.specs.Forms.{plain_forms, form_at};
ghost use Rattle.sp_plan.specs.Groups.{forms_by, have_one_linear_part};

use crate::standing::access_number;
use sp_affine::Form;
use sp_core::{AccessForms, Core};

/// How many dimensions a memory has.
pub(crate) fn rank(core: &Core, m: u32) -> usize
    ensures { result ≡ length (mem (plain_core core.now) m).dims }
{
    match core.mems().get(m as usize) {
        Some(mem) => mem.dims.len(),
        None => 0,
    }
}

/// The forms of the operation of a number, where it has some.
fn forms_at<'a>(core: &Core, forms: &'a AccessForms, n: u32) -> Option<&'a [Form]>
    ensures { option_map (λ f. f.now) result ≡ form_at (plain_core core.now) (plain_forms forms.now) n }
{
    match forms.forms.get(access_number(core, n) as usize) {
        Some(Some(row)) => Some(row.as_slice()),
        _ => None,
    }
}

/// The forms of the access of a number to a memory, if there is one for each dimension.
pub(crate) fn known_forms<'a>(
    core: &Core,
    forms: &'a AccessForms,
    m: u32,
    n: u32,
) -> Option<&'a [Form]>
    ensures { option_map (λ f. f.now) result ≡ forms_by (plain_core core.now) (plain_forms forms.now) (length (mem (plain_core core.now) m).dims) (form_at (plain_core core.now) (plain_forms forms.now) n) }
{
    let row = forms_at(core, forms, n)?;
    if row.len() == rank(core, m) {
        Some(row)
    } else {
        None
    }
}

/// Whether two forms differ in their constants alone.
fn have_one_part(f: &Form, g: &Form) -> bool
    ensures { result ≡ linear_parts_equal f.now g.now }
{
    f.has_linear_part_of(g)
}

/// Whether the forms of two accesses do.
pub(crate) fn have_one_linear_part(f: &[Form], g: &[Form]) -> bool
    ensures { result ≡ have_one_linear_part f.now g.now }
{
    let [a, fs @ ..] = f else {
        return g.is_empty();
    };
    let [b, gs @ ..] = g else {
        return false;
    };
    have_one_part(a, b) && have_one_linear_part(fs, gs)
}
