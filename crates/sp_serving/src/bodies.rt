//! Whether the accesses of a body to a memory are one group for each port, which a scheme keeps apart.

ghost use Rattle.std.specs.Prelude.{◌≡◌, ◌≤◌, ◌<◌, ◌+◌, ◌^◌, Some, map, length};
ghost use Rattle.std.specs.List.{list_all};
ghost use Rattle.sp_core.specs.CoreParts.{plain_core};
ghost use Rattle.sp_core.specs.Declarations.{mem};
ghost use Rattle.sp_core.specs.Elements.{numbers_below};
ghost use Rattle.sp_core.specs.Forms.{plain_forms};
ghost use Rattle.sp_core.specs.Plain.{plain_op};
ghost use Rattle.sp_plan.specs.Ports.{is_one_mem};
ghost use Rattle.sp_serving.specs.Apart.{are_kept};
ghost use Rattle.sp_serving.specs.Served.{AreRanked, known, is_pair_kept, is_access_kept, is_body_kept};

use crate::apart;
use crate::forms::known_forms;
use sp_bank::Scheme;
use sp_core::{AccessForms, Core, Op};
use sp_plan::{kind, share_port};

/// Whether the accesses of two numbers are of one group, and apart.
fn are_kept(
    core: &Core,
    forms: &AccessForms,
    m: u32,
    scheme: &Scheme,
    first: u32,
    second: u32,
) -> bool
    requires ranks { AreRanked (mem (plain_core core.now) m).kind (length (mem (plain_core core.now) m).dims) (length scheme.now.alpha) }
    ensures { result ≡ are_kept scheme.now (mem (plain_core core.now) m).kind (known (plain_core core.now) (plain_forms forms.now) m scheme.now first) (known (plain_core core.now) (plain_forms forms.now) m scheme.now second) }
{
    match known_forms(core, forms, m, first) {
        None => false,
        Some(f) => match known_forms(core, forms, m, second) {
            None => false,
            Some(g) => apart::are_kept(scheme, kind(core, m), f, g),
        },
    }
}

/// Whether two operations of a body are, if they share a port.
fn is_pair_kept(
    core: &Core,
    forms: &AccessForms,
    m: u32,
    scheme: &Scheme,
    number: u32,
    ops: &[Op],
    j: u32,
    i: u32,
) -> bool
    requires ranks { AreRanked (mem (plain_core core.now) m).kind (length (mem (plain_core core.now) m).dims) (length scheme.now.alpha) }
    requires first { i < length ops.now }
    requires second { j < length ops.now }
    requires small { number + length ops.now ≤ 2 ^ 30 }
    ensures { result ≡ is_pair_kept (plain_core core.now) (plain_forms forms.now) m scheme.now number (map plain_op ops.now) j i }
{
    !share_port(core, &ops[i as usize], &ops[j as usize])
        || are_kept(core, forms, m, scheme, number + i, number + j)
}

/// Whether an operation names a memory.
fn names(m: u32, op: &Op) -> bool
    ensures { result ≡ is_one_mem (plain_op op.now).mem (Some m) }
{
    match op.mem {
        None => false,
        Some(r) => r == m,
    }
}

/// Whether each pair of an operation and one before it is.
fn is_with_earlier_kept(
    core: &Core,
    forms: &AccessForms,
    m: u32,
    scheme: &Scheme,
    number: u32,
    ops: &[Op],
    j: u32,
) -> bool
    requires ranks { AreRanked (mem (plain_core core.now) m).kind (length (mem (plain_core core.now) m).dims) (length scheme.now.alpha) }
    requires inside { j < length ops.now }
    requires small { number + length ops.now ≤ 2 ^ 30 }
    ensures { result ≡ list_all (is_pair_kept (plain_core core.now) (plain_forms forms.now) m scheme.now number (map plain_op ops.now) j) (numbers_below j) }
{
    let mut kept = true;
    for i in 0..j {
        kept = kept && is_pair_kept(core, forms, m, scheme, number, ops, j, i);
    }
    kept
}

/// Whether they are, where the operation names the memory.
fn is_access_kept(
    core: &Core,
    forms: &AccessForms,
    m: u32,
    scheme: &Scheme,
    number: u32,
    ops: &[Op],
    j: u32,
) -> bool
    requires ranks { AreRanked (mem (plain_core core.now) m).kind (length (mem (plain_core core.now) m).dims) (length scheme.now.alpha) }
    requires inside { j < length ops.now }
    requires small { number + length ops.now ≤ 2 ^ 30 }
    ensures { result ≡ is_access_kept (plain_core core.now) (plain_forms forms.now) m scheme.now number (map plain_op ops.now) j }
{
    !names(m, &ops[j as usize]) || is_with_earlier_kept(core, forms, m, scheme, number, ops, j)
}

/// Whether each two operations of a body that use a memory by one port are of one group, and apart by the scheme.
pub(crate) fn is_body_kept(
    core: &Core,
    forms: &AccessForms,
    m: u32,
    scheme: &Scheme,
    number: u32,
    ops: &[Op],
) -> bool
    requires ranks { AreRanked (mem (plain_core core.now) m).kind (length (mem (plain_core core.now) m).dims) (length scheme.now.alpha) }
    requires small { number + length ops.now ≤ 2 ^ 30 }
    ensures { result ≡ is_body_kept (plain_core core.now) (plain_forms forms.now) m scheme.now number (map plain_op ops.now) }
{
    let mut kept = true;
    for j in 0..ops.len() as u32 {
        kept = kept && is_access_kept(core, forms, m, scheme, number, ops, j);
    }
    kept
}
