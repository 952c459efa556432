//! Whether the scheme of a memory serves it.

ghost use Rattle.std.specs.Prelude.{◌≡◌, ◌≤◌, ◌+◌, ◌^◌, ◌↔◌, Some, IsTrue, length};
ghost use Rattle.sp_core.specs.CoreParts.{plain_core};
ghost use Rattle.sp_core.specs.Declarations.{mem};
ghost use Rattle.sp_core.specs.Forms.{plain_forms};
ghost use Rattle.sp_core.specs.Numbering.{number_count};
ghost use Rattle.sp_core.specs.Plain.{plain_node};
ghost use Rattle.sp_plan.specs.Validity.{fits_scheme};
ghost use Rattle.sp_plans.specs.Parts.{Serves, IsServed};
ghost use Rattle.sp_serving.specs.Served.{AreRanked, is_wide_kept, is_served_in};

use crate::bodies::is_body_kept;
use crate::forms::rank;
use crate::lanes::are_lanes_far;
use sp_bank::Scheme;
use sp_core::{AccessForms, Core, Node, SparseKind};
use sp_plan::{MemPlan, count_numbers, counters_size, fits_scheme};

/// Whether the lanes of a transfer of a memory are apart, where it is a wide one.
fn is_wide_kept(
    core: &Core,
    forms: &AccessForms,
    m: u32,
    scheme: &Scheme,
    kind: SparseKind,
    par: u32,
) -> bool
    ensures { result ≡ is_wide_kept (plain_core core.now) (plain_forms forms.now) m scheme.now kind par }
{
    let _forms = forms;
    match kind {
        SparseKind::Gather => true,
        SparseKind::Scatter => true,
        SparseKind::WideLoad => are_lanes_far(scheme, rank(core, m), par),
        SparseKind::WideStore => are_lanes_far(scheme, rank(core, m), par),
    }
}

/// Whether a scheme serves a memory in each body and wide transfer of a part, whose first operation has a number.
fn serves_in(
    core: &Core,
    forms: &AccessForms,
    m: u32,
    scheme: &Scheme,
    number: u32,
    node: &Node,
) -> bool
    requires ranks { AreRanked (mem (plain_core core.now) m).kind (length (mem (plain_core core.now) m).dims) (length scheme.now.alpha) }
    requires small { number + number_count (plain_node node.now) ≤ 2 ^ 30 }
    ensures { result ≡ is_served_in (plain_core core.now) (plain_forms forms.now) m scheme.now number (plain_node node.now) }
{
    match node {
        Node::Inner { counters, ops, .. } => {
            let first = number + counters_size(counters);
            is_body_kept(core, forms, m, scheme, first, ops)
        }
        Node::Outer {
            counters,
            stages,
            ..
        } => {
            let mut next = number + counters_size(counters);
            for stage in stages {
                if !serves_in(core, forms, m, scheme, next, &stage.node) {
                    return false;
                }
                next += count_numbers(&stage.node);
            }
            true
        }
        Node::Fsm {
            start,
            test,
            body,
            ..
        } => {
            let first = number + (start.len() + test.len()) as u32;
            serves_in(core, forms, m, scheme, first, body)
        }
        Node::Branch { test, yes, no } => {
            let first = number + test.len() as u32;
            if !serves_in(core, forms, m, scheme, first, yes) {
                return false;
            }
            let second = first + count_numbers(yes);
            serves_in(core, forms, m, scheme, second, no)
        }
        Node::Load { .. } => true,
        Node::Store { .. } => true,
        Node::Sparse { kind, mem, par, .. } => {
            *mem != m || is_wide_kept(core, forms, m, scheme, *kind, *par)
        }
    }
}

/// Whether a scheme that is of a memory's rank serves it.
fn serves_by(core: &Core, forms: &AccessForms, m: u32, scheme: &Scheme) -> bool
    requires { IsTrue (fits_scheme (plain_core core.now) m (Some scheme.now)) }
    ensures { IsTrue result ↔ Serves (plain_core core.now) (plain_forms forms.now) m scheme.now }
{
    let _banks = scheme.banks;
    serves_in(core, forms, m, scheme, 0, core.root())
}

/// Whether the scheme of a memory by its plan, if it has one, is of its rank and serves it where no other memory has a
/// scheme: in each body the accesses to one of its ports are one group, which the scheme keeps apart, and so are the lanes
/// of each wide transfer. It takes no memory; the forms of an access are found by counting through the whole core, for both
/// of each two accesses of a body by one port.
pub fn serves(core: &Core, forms: &AccessForms, m: u32, plan: &MemPlan) -> bool
    ensures { IsTrue result ↔ IsServed (plain_core core.now) (plain_forms forms.now) m plan.now.scheme }
{
    match &plan.scheme {
        None => true,
        Some(scheme) => {
            if fits_scheme(core, m, plan) {
                serves_by(core, forms, m, scheme)
            } else {
                false
            }
        }
    }
}
