//! The groups of accesses that a scheme of a memory is to keep apart.

ghost use Rattle.std.specs.Prelude.{◌≡◌, ◌≤◌, ◌+◌, ◌^◌, ◌&&◌, ◌++◌, [], ◌∷◌, map, length, filter, replicate, IfOk, OnOk};
ghost use Rattle.std.specs.List.{list_any};
ghost use Rattle.sp_core.specs.CoreParts.{plain_core};
ghost use Rattle.sp_core.specs.Declarations.{mem};
ghost use Rattle.sp_core.specs.Forms.{plain_forms};
ghost use Rattle.sp_core.specs.Numbering.{number_count};
ghost use Rattle.sp_core.specs.Plain.{plain_node};
ghost use Rattle.sp_plan.specs.Groups.{lane_place};
ghost use Rattle.sp_schemes.specs.Groups.{is_one_row, banked_forms, go_together, flat, groups_from, constant_form, lanes_group, wide_groups, groups_in, are_grouped_in};
ghost use Rattle.sp_schemes.specs.Places.{places_of};
ghost use Rattle.sp_schemes.specs.Uses.{plain_use, plain_uses};

use crate::NoMemory;
use crate::accesses::{Use, are_one_group, rank, share, uses_in};
use sp_affine::Form;
use sp_core::{AccessForms, Core, Node, SparseKind};
use sp_plan::{count_numbers, counters_size, kind};
use sp_words::Kind;
use std::alloc::Global;

/// Whether two accesses to a line buffer are in one row, up to what all of a group share.
fn is_one_row(kind: Kind, a: &Use, b: &Use) -> bool
    ensures { result ≡ is_one_row kind (plain_use a.now).forms (plain_use b.now).forms }
{
    match kind {
        Kind::LineBuf => match a.forms {
            Some([row, ..]) => match b.forms {
                Some([other, ..]) => row.constant == other.constant,
                _ => true,
            },
            _ => true,
        },
        _ => true,
    }
}

/// The forms of the indices that are banked: those of the columns of a line buffer, all of another memory.
fn banked_forms<'a>(kind: Kind, a: &Use<'a>) -> &'a [Form]
    ensures { result.now ≡ banked_forms kind (plain_use a.now).forms }
{
    match a.forms {
        None => &[],
        Some(f) => match kind {
            Kind::LineBuf => match f {
                [_row, columns @ ..] => columns,
                _ => f,
            },
            _ => f,
        },
    }
}

/// Whether two accesses are by one port, and of one row.
fn go_together(kind: Kind, a: &Use, b: &Use) -> bool
    ensures { result ≡ go_together kind (plain_use a.now) (plain_use b.now) }
{
    share(a, b) && is_one_row(kind, a, b)
}

fn goes_with_one(kind: Kind, a: &Use, earlier: &[Use]) -> bool
    ensures { result ≡ list_any (go_together kind (plain_use a.now)) (plain_uses earlier.now) }
{
    for b in earlier {
        if go_together(kind, a, b) {
            return true;
        }
    }
    false
}

/// A form again.
fn copy_of(alloc: Global, f: &Form) -> Result<Form, NoMemory>
    ensures { IfOk result (λ r. r ≡ f.now) }
{
    Ok(Form {
        coefs: Vec::from_slice(alloc, &f.coefs)?,
        constant: f.constant,
        symbol: f.symbol,
    })
}

fn push_forms(alloc: Global, into: &mut Vec<Form>, forms: &[Form]) -> Result<(), NoMemory>
    ensures { OnOk result (into.new.items ≡ into.old.items ++ forms.now) }
{
    for form in forms {
        into.push(copy_of(alloc, form)?)?;
    }
    Ok(())
}

/// The forms of an access and of those that go with it, one after the other.
fn group_of(alloc: Global, kind: Kind, first: &Use, rest: &[Use]) -> Result<Vec<Form>, NoMemory>
    ensures { IfOk result (λ group. group.items ≡ flat kind (plain_use first.now ∷ filter (go_together kind (plain_use first.now)) (plain_uses rest.now))) }
{
    let mut group = Vec::new(alloc);
    push_forms(alloc, &mut group, banked_forms(kind, first))?;
    for other in rest {
        if go_together(kind, first, other) {
            push_forms(alloc, &mut group, banked_forms(kind, other))?;
        }
    }
    Ok(group)
}

/// Appends a group for each port and row of some accesses, at the first one.
fn push_groups(
    alloc: Global,
    kind: Kind,
    uses: &[Use],
    into: &mut Vec<Vec<Form>>,
) -> Result<(), NoMemory>
    ensures { OnOk result (map (λ g. g.items) into.new.items ≡ map (λ g. g.items) into.old.items ++ groups_from kind [] (plain_uses uses.now)) }
{
    for i in 0..uses.len() {
        if !goes_with_one(kind, &uses[i], &uses[..i]) {
            into.push(group_of(alloc, kind, &uses[i], &uses[i + 1..])?)?;
        }
    }
    Ok(())
}

fn constant_form(alloc: Global, number: u32) -> Form
    ensures { result ≡ constant_form number }
{
    Form {
        coefs: Vec::new(alloc),
        constant: i64::from(number),
        symbol: None,
    }
}

fn push_zeros(alloc: Global, into: &mut Vec<Form>, count: usize) -> Result<(), NoMemory>
    ensures { OnOk result (into.new.items ≡ into.old.items ++ replicate count (constant_form 0)) }
{
    if count == 0 {
        return Ok(());
    }
    into.push(constant_form(alloc, 0))?;
    push_zeros(alloc, into, count - 1)?;
    Ok(())
}

/// Appends the place of a lane of a wide transfer: its number in the last dimension.
fn push_lane(
    alloc: Global,
    core: &Core,
    forms: &AccessForms,
    rank: usize,
    lane: u32,
    into: &mut Vec<Form>,
) -> Result<(), NoMemory>
    requires { 1 ≤ rank }
    ensures { OnOk result (into.new.items ≡ into.old.items ++ lane_place (plain_core core.now) (plain_forms forms.now) [] rank lane) }
{
    let _core = core;
    let _forms = forms;
    push_zeros(alloc, into, rank - 1)?;
    into.push(constant_form(alloc, lane))?;
    Ok(())
}

/// The places of the lanes of a wide transfer: neighbours of the last dimension.
fn lanes_group(
    alloc: Global,
    core: &Core,
    forms: &AccessForms,
    m: u32,
    rank: usize,
    par: u32,
) -> Result<Vec<Form>, NoMemory>
    requires { 1 ≤ rank }
    ensures { IfOk result (λ group. group.items ≡ lanes_group (plain_core core.now) (plain_forms forms.now) m rank par) }
{
    let _memory = m;
    let mut group = Vec::new(alloc);
    for lane in 0..par {
        push_lane(alloc, core, forms, rank, lane, &mut group)?;
    }
    Ok(group)
}

/// Appends the group of the lanes of a transfer, where it is a wide one.
fn push_wide(
    alloc: Global,
    core: &Core,
    forms: &AccessForms,
    m: u32,
    sparse: SparseKind,
    par: u32,
    into: &mut Vec<Vec<Form>>,
) -> Result<(), NoMemory>
    requires { 1 ≤ length (mem (plain_core core.now) m).dims }
    ensures { OnOk result (map (λ g. g.items) into.new.items ≡ map (λ g. g.items) into.old.items ++ wide_groups (plain_core core.now) (plain_forms forms.now) m sparse (length (mem (plain_core core.now) m).dims) par) }
{
    match sparse {
        SparseKind::Gather => Ok(()),
        SparseKind::Scatter => Ok(()),
        SparseKind::WideLoad => {
            into.push(lanes_group(alloc, core, forms, m, rank(core, m), par)?)?;
            Ok(())
        }
        SparseKind::WideStore => {
            into.push(lanes_group(alloc, core, forms, m, rank(core, m), par)?)?;
            Ok(())
        }
    }
}

/// Appends the groups of each body of a part, whose first operation has a number.
#[allow(clippy::too_many_arguments)]
pub(crate) fn push_groups_in(
    alloc: Global,
    core: &Core,
    forms: &AccessForms,
    places: &[usize],
    m: u32,
    number: u32,
    node: &Node,
    into: &mut Vec<Vec<Form>>,
) -> Result<(), NoMemory>
    requires places { places.now ≡ places_of (plain_core core.now) }
    requires small { number + number_count (plain_node node.now) ≤ 2 ^ 30 }
    requires rank { 1 ≤ length (mem (plain_core core.now) m).dims }
    ensures { OnOk result (map (λ g. g.items) into.new.items ≡ map (λ g. g.items) into.old.items ++ groups_in (plain_core core.now) (plain_forms forms.now) m number (plain_node node.now)) }
{
    match node {
        Node::Inner { counters, ops, .. } => {
            let first = number + counters_size(counters);
            let uses = uses_in(alloc, core, forms, places, m, first as usize, ops)?;
            push_groups(alloc, kind(core, m), &uses, into)
        }
        Node::Outer {
            counters,
            stages,
            ..
        } => {
            let mut next = number + counters_size(counters);
            for stage in stages {
                push_groups_in(alloc, core, forms, places, m, next, &stage.node, into)?;
                next += count_numbers(&stage.node);
            }
            Ok(())
        }
        Node::Fsm {
            start,
            test,
            body,
            ..
        } => {
            let first = number + (start.len() + test.len()) as u32;
            push_groups_in(alloc, core, forms, places, m, first, body, into)
        }
        Node::Branch { test, yes, no } => {
            let first = number + test.len() as u32;
            push_groups_in(alloc, core, forms, places, m, first, yes, into)?;
            let second = first + count_numbers(yes);
            push_groups_in(alloc, core, forms, places, m, second, no, into)
        }
        Node::Load { .. } => Ok(()),
        Node::Store { .. } => Ok(()),
        Node::Sparse { kind, mem, par, .. } => {
            if *mem == m {
                push_wide(alloc, core, forms, m, *kind, *par, into)
            } else {
                Ok(())
            }
        }
    }
}

/// Whether the accesses of each body of a part to one port of a memory are one group.
pub(crate) fn are_grouped_in(
    alloc: Global,
    core: &Core,
    forms: &AccessForms,
    places: &[usize],
    m: u32,
    number: u32,
    node: &Node,
) -> Result<bool, NoMemory>
    requires places { places.now ≡ places_of (plain_core core.now) }
    requires small { number + number_count (plain_node node.now) ≤ 2 ^ 30 }
    ensures { IfOk result (λ b. b ≡ are_grouped_in (plain_core core.now) (plain_forms forms.now) m number (plain_node node.now)) }
{
    match node {
        Node::Inner { counters, ops, .. } => {
            let first = number + counters_size(counters);
            let uses = uses_in(alloc, core, forms, places, m, first as usize, ops)?;
            Ok(are_one_group(&uses))
        }
        Node::Outer {
            counters,
            stages,
            ..
        } => {
            let mut next = number + counters_size(counters);
            for stage in stages {
                if !are_grouped_in(alloc, core, forms, places, m, next, &stage.node)? {
                    return Ok(false);
                }
                next += count_numbers(&stage.node);
            }
            Ok(true)
        }
        Node::Fsm {
            start,
            test,
            body,
            ..
        } => {
            let first = number + (start.len() + test.len()) as u32;
            are_grouped_in(alloc, core, forms, places, m, first, body)
        }
        Node::Branch { test, yes, no } => {
            let first = number + test.len() as u32;
            if !are_grouped_in(alloc, core, forms, places, m, first, yes)? {
                return Ok(false);
            }
            let second = first + count_numbers(yes);
            are_grouped_in(alloc, core, forms, places, m, second, no)
        }
        _ => Ok(true),
    }
}
