//! The accesses of a list of operations to one memory.

ghost use Rattle.std.specs.Prelude.{◌≡◌, ◌≤◌, ◌+◌, ◌^◌, Some, map, length, option_map, IfOk};
ghost use Rattle.std.specs.List.{list_all};
ghost use Rattle.sp_core.specs.CoreParts.{plain_core};
ghost use Rattle.sp_affine.specs.Equality.{linear_parts_equal};
ghost use Rattle.sp_core.specs.Declarations.{mem};
ghost use Rattle.sp_core.specs.Forms.{plain_forms, form_at};
ghost use Rattle.sp_core.specs.Plain.{plain_op};
ghost use Rattle.sp_plan.specs.Groups.{forms_by, rank_of, known_forms, is_one_group, have_one_linear_part};
ghost use Rattle.sp_schemes.specs.Accesses.{port_of, port_to, uses_in, share, is_grouped_with, are_one_group};
ghost use Rattle.sp_schemes.specs.Places.{places_of};
ghost use Rattle.sp_schemes.specs.Uses.{plain_use, plain_uses};

use crate::NoMemory;
use crate::standing::place_of;
use sp_affine::Form;
use sp_core::{AccessForms, Core, Op, OpKind};
use std::alloc::Global;

/// An access to a memory: by the port to be read, or by that to be written; with the forms of its indices, where they
/// are known.
#[derive(Clone, Copy, Debug)]
pub struct Use<'a> {
    pub reads: bool,
    pub forms: Option<&'a [Form]>,
}

fn port_of(kind: OpKind) -> Option<bool>
    ensures { result ≡ port_of kind }
{
    match kind {
        OpKind::Read => Some(true),
        OpKind::Write => Some(false),
        _ => None,
    }
}

/// By which port an operation uses a memory.
fn port_to(m: u32, op: &Op) -> Option<bool>
    ensures { result ≡ port_to m (plain_op op.now) }
{
    match op.mem {
        None => None,
        Some(r) => { if r == m { port_of(op.kind) } else { None } }
    }
}

/// The forms of the operation of a number, where it has some.
fn forms_at<'a>(
    core: &Core,
    forms: &'a AccessForms,
    places: &[usize],
    n: usize,
) -> Option<&'a [Form]>
    requires { places.now ≡ places_of (plain_core core.now) }
    ensures { option_map (λ f. f.now) result ≡ form_at (plain_core core.now) (plain_forms forms.now) n }
{
    match forms.forms.get(place_of(core, places, n)) {
        Some(Some(row)) => Some(row.as_slice()),
        _ => None,
    }
}

/// The forms of the access of a number to a memory, if there is one for each dimension.
fn known_forms<'a>(
    core: &Core,
    forms: &'a AccessForms,
    places: &[usize],
    m: u32,
    n: usize,
) -> Option<&'a [Form]>
    requires { places.now ≡ places_of (plain_core core.now) }
    ensures { option_map (λ f. f.now) result ≡ forms_by (plain_core core.now) (plain_forms forms.now) (rank_of (plain_core core.now) (plain_forms forms.now) (Some m)) (form_at (plain_core core.now) (plain_forms forms.now) n) }
{
    let row = forms_at(core, forms, places, n)?;
    if row.len() == rank(core, m) {
        Some(row)
    } else {
        None
    }
}

/// How many dimensions a memory has.
pub(crate) fn rank(core: &Core, m: u32) -> usize
    ensures { result ≡ length (mem (plain_core core.now) m).dims }
{
    match core.mems().get(m as usize) {
        Some(mem) => mem.dims.len(),
        None => 0,
    }
}

/// The accesses of operations to a memory, where the first operation has a number.
pub(crate) fn uses_in<'a>(
    alloc: Global,
    core: &Core,
    forms: &'a AccessForms,
    places: &[usize],
    m: u32,
    number: usize,
    ops: &[Op],
) -> Result<Vec<Use<'a>>, NoMemory>
    requires places { places.now ≡ places_of (plain_core core.now) }
    requires small { number + length ops.now ≤ 2 ^ 30 }
    ensures { IfOk result (λ uses. plain_uses uses.items ≡ uses_in (plain_core core.now) (plain_forms forms.now) m number (map plain_op ops.now)) }
{
    let mut uses = Vec::new(alloc);
    let mut n = number;
    for op in ops {
        if let Some(reads) = port_to(m, op) {
            uses.push(Use {
                reads,
                forms: known_forms(core, forms, places, m, n),
            })?;
        }
        n += 1;
    }
    Ok(uses)
}

/// Whether two forms differ in their constants alone.
fn have_one_part(f: &Form, g: &Form) -> bool
    ensures { result ≡ linear_parts_equal f.now g.now }
{
    f.has_linear_part_of(g)
}

fn have_one_linear_part(f: &[Form], g: &[Form]) -> bool
    ensures { result ≡ have_one_linear_part f.now g.now }
{
    let [a, fs @ ..] = f else {
        return g.is_empty();
    };
    let [b, gs @ ..] = g else {
        return false;
    };
    have_one_part(a, b) && have_one_linear_part(fs, gs)
}

/// Whether two accesses are of one group: both have forms, which differ in their constants alone.
fn is_one_group(a: &Use, b: &Use) -> bool
    ensures { result ≡ is_one_group (plain_use a.now).forms (plain_use b.now).forms }
{
    match a.forms {
        None => false,
        Some(f) => match b.forms {
            None => false,
            Some(g) => have_one_linear_part(f, g),
        },
    }
}

/// Whether two accesses are by one port.
pub(crate) fn share(a: &Use, b: &Use) -> bool
    ensures { result ≡ share (plain_use a.now) (plain_use b.now) }
{
    if a.reads { b.reads } else { !b.reads }
}

fn is_grouped_with(a: &Use, b: &Use) -> bool
    ensures { result ≡ is_grouped_with (plain_use a.now) (plain_use b.now) }
{
    !share(a, b) || is_one_group(a, b)
}

fn are_grouped_with(a: &Use, rest: &[Use]) -> bool
    ensures { result ≡ list_all (is_grouped_with (plain_use a.now)) (plain_uses rest.now) }
{
    for b in rest {
        if !is_grouped_with(a, b) {
            return false;
        }
    }
    true
}

/// Whether accesses to one port are one group.
pub(crate) fn are_one_group(uses: &[Use]) -> bool
    ensures { result ≡ are_one_group (plain_uses uses.now) }
{
    let [a, rest @ ..] = uses else {
        return true;
    };
    are_grouped_with(a, rest) && are_one_group(rest)
}
