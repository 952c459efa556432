//! The first node that breaks a rule.

ghost use Rattle.std.specs.Prelude.{◌≡◌, ◌+◌, ◌<◌, ◌≤◌, ◌++◌, ◌&&◌, ◌||◌, map, length, IfOk, IfSome};
ghost use Rattle.std.specs.List.{list_all};
ghost use Rattle.sp_core.specs.Around.{lanes_of, within};
ghost use Rattle.sp_words.specs.declared.types.Ty.TheVariants.{Bit};
ghost use Rattle.sp_core.specs.Declarations.{mem, is_among};
ghost use Rattle.sp_core.specs.Elements.{numbers_below};
ghost use Rattle.sp_core.specs.Invariant.{owned_in, is_right_here, has_owner, have_owners, unless, wrong_node, are_declarations_right, wrong_place};
ghost use Rattle.sp_core.specs.NodeRules.{is_reg, are_counters_right, are_lanes_right, is_slice_right, fits_sram, fits_line, with_state, is_owned_once, owned_by, is_node_right};
ghost use Rattle.sp_core.specs.Numbering.{node_count};
ghost use Rattle.sp_core.specs.OperationRules.{is_word_list};
ghost use Rattle.sp_core.specs.PartsPlain.{core_of, around_of};
ghost use Rattle.sp_core.specs.Plain.{plain_op, plain_counter, plain_span, plain_node, plain_stage_list};

use crate::lanes::are_lanes_right;
use crate::memory_rules::{are_memories_right, are_ports_right};
use crate::node::{CoreCounter, CoreSpan, Node, Stage};
use crate::node_rules::{
    are_counters_right, fits_line, fits_sram, is_slice_right, is_sparse_right,
};
use crate::operation::Op;
use crate::operation_rules::{are_operations_right, is_word_list};
use crate::parts::{Around, Near, Parts, is_among, is_port_kind, lanes_of};
use crate::size::{collect_owned, count_nodes, is_small};
use sp_words::{Kind, Ty};
use std::alloc::{AllocError, Global};

/// What stands around inside of a controller.
fn within(
    alloc: Global,
    around: &Around,
    counters: &[CoreCounter],
    owned: &[u32],
) -> Result<Around, AllocError>
    ensures { IfOk result (λ inside. around_of inside ≡ within (around_of around.now) (map plain_counter counters.now) owned.now) }
{
    let lanes = lanes_of(counters);
    let mut near = Vec::new(alloc);
    for counter in counters {
        near.push(Near {
            number: counter.id,
            lanes,
        })?;
    }
    near.extend_from_slice(&around.counters)?;
    let mut usable = owned.to_vec(alloc)?;
    usable.extend_from_slice(&around.owned)?;
    Ok(Around {
        counters: near,
        owned: usable,
    })
}

/// Whether memories exist, may have an owner, and have none yet.
fn is_owned_once(
    alloc: Global,
    parts: &Parts,
    earlier: &[u32],
    owned: &[u32],
) -> Result<bool, AllocError>
    ensures { IfOk result (λ right. right ≡ is_owned_once (core_of parts.now) earlier.now owned.now) }
{
    let mut before = earlier.to_vec(alloc)?;
    for m in owned {
        if !(((*m as usize) < parts.mems.len() && !is_port_kind(parts.kind(*m)))
            && !is_among(*m, &before))
        {
            return Ok(false);
        }
        before.push(*m)?;
    }
    Ok(true)
}

/// The memories that a node itself owns.
fn owned_by(alloc: Global, parts: &Parts, node: &Node) -> Result<Vec<u32>, AllocError>
    ensures { IfOk result (λ owned. owned.items ≡ owned_by (core_of parts.now) (plain_node node.now)) }
{
    let _core = parts;
    match node {
        Node::Inner { owned, .. } => owned.to_vec(alloc),
        Node::Outer { owned, .. } => owned.to_vec(alloc),
        Node::Fsm { state, .. } => Ok(vec![in alloc; *state]?),
        _ => Ok(Vec::new(alloc)),
    }
}

fn is_reg(kind: Kind) -> bool
    ensures { result ≡ is_reg kind }
{
    match kind {
        Kind::Reg => true,
        _ => false,
    }
}

/// Whether an FSM's state is a register, and its lists give its words and tests.
fn is_fsm_right(
    alloc: Global,
    parts: &Parts,
    around: &Around,
    start: &[Op],
    state: u32,
    test: &[Op],
    next: &[Op],
) -> Result<bool, AllocError>
    ensures { IfOk result (λ right. right ≡ ((is_reg (mem (core_of parts.now) state).kind && is_word_list (core_of parts.now) (around_of around.now) (map plain_op start.now) (mem (core_of parts.now) state).ty) && (is_word_list (core_of parts.now) (with_state (core_of parts.now) (around_of around.now) state) (map plain_op test.now) Bit && is_word_list (core_of parts.now) (with_state (core_of parts.now) (around_of around.now) state) (map plain_op next.now) (mem (core_of parts.now) state).ty))) }
{
    let ty = parts.ty(state);
    let inside = with_state(alloc, parts, around, state)?;
    Ok(
        (is_reg(parts.kind(state)) && is_word_list(alloc, parts, around, start, ty)?)
            && (is_word_list(alloc, parts, &inside, test, Ty::Bit)?
                && is_word_list(alloc, parts, &inside, next, ty)?),
    )
}

/// What stands around inside of an FSM.
fn with_state(
    alloc: Global,
    parts: &Parts,
    around: &Around,
    state: u32,
) -> Result<Around, AllocError>
    ensures { IfOk result (λ inside. around_of inside ≡ with_state (core_of parts.now) (around_of around.now) state) }
{
    let _core = parts;
    within(alloc, around, &[], &[state])
}

fn is_load_right(
    alloc: Global,
    parts: &Parts,
    around: &Around,
    dram: u32,
    mem: u32,
    spans: &[CoreSpan],
) -> Result<bool, AllocError>
    ensures { IfOk result (λ right. right ≡ (is_slice_right (core_of parts.now) (around_of around.now) dram (map plain_span spans.now) && (fits_sram (core_of parts.now) (around_of around.now) dram mem (map plain_span spans.now) || fits_line (core_of parts.now) (around_of around.now) dram mem (map plain_span spans.now)))) }
{
    Ok(
        is_slice_right(alloc, parts, around, dram, spans)?
            && (fits_sram(parts, around, dram, mem, spans)
                || fits_line(parts, around, dram, mem, spans)),
    )
}

fn is_outer_right(
    alloc: Global,
    parts: &Parts,
    around: &Around,
    counters: &[CoreCounter],
    stages: &[Stage],
) -> Result<bool, AllocError>
    ensures { IfOk result (λ right. right ≡ (are_counters_right (core_of parts.now) (around_of around.now) (map plain_counter counters.now) && are_lanes_right (lanes_of (map plain_counter counters.now)) (plain_stage_list stages.now))) }
{
    Ok(
        are_counters_right(alloc, parts, around, counters)?
            && are_lanes_right(alloc, lanes_of(counters), stages)?,
    )
}

/// Whether a node keeps its rules, beside what the nodes in it do.
fn is_node_right(
    alloc: Global,
    parts: &Parts,
    around: &Around,
    node: &Node,
) -> Result<bool, AllocError>
    ensures { IfOk result (λ right. right ≡ is_node_right (core_of parts.now) (around_of around.now) (plain_node node.now)) }
{
    match node {
        Node::Inner {
            counters,
            owned,
            ops,
            ..
        } => {
            let inside = within(alloc, around, counters, owned)?;
            Ok(
                are_counters_right(alloc, parts, around, counters)?
                    && are_operations_right(alloc, parts, &inside, ops)?,
            )
        }
        Node::Outer {
            counters,
            stages,
            ..
        } => is_outer_right(alloc, parts, around, counters, stages),
        Node::Fsm {
            start,
            state,
            test,
            next,
            ..
        } => is_fsm_right(alloc, parts, around, start, *state, test, next),
        Node::Branch { test, .. } => is_word_list(alloc, parts, around, test, Ty::Bit),
        Node::Load { dram, mem, span } => is_load_right(alloc, parts, around, *dram, *mem, span),
        Node::Store { dram, mem, span } => {
            Ok(
                is_slice_right(alloc, parts, around, *dram, span)?
                    && fits_sram(parts, around, *dram, *mem, span),
            )
        }
        Node::Sparse {
            kind,
            dram,
            mem,
            index,
            span,
            count,
            par,
        } => is_sparse_right(
            alloc, parts, around, *kind, *dram, *mem, *index, span, count, *par,
        ),
    }
}

/// Whether it does, and owns what no node before it owns.
fn is_right_here(
    alloc: Global,
    parts: &Parts,
    around: &Around,
    earlier: &[u32],
    node: &Node,
) -> Result<bool, AllocError>
    ensures { IfOk result (λ right. right ≡ is_right_here (core_of parts.now) (around_of around.now) earlier.now (plain_node node.now)) }
{
    let owned = owned_by(alloc, parts, node)?;
    Ok(is_node_right(alloc, parts, around, node)? && is_owned_once(alloc, parts, earlier, &owned)?)
}

/// Whether each memory but arguments and outputs has an owner.
fn have_owners(alloc: Global, parts: &Parts) -> Result<bool, AllocError>
    ensures { IfOk result (λ right. right ≡ have_owners (core_of parts.now)) }
{
    let mut owned = Vec::new(alloc);
    collect_owned(&parts.root, &mut owned)?;
    for i in 0..parts.mems.len() {
        if !has_owner(parts, &owned, i) {
            return Ok(false);
        }
    }
    Ok(true)
}

fn is_owned(i: usize, owned: &[u32]) -> bool
    ensures { result ≡ is_among i owned.now }
{
    for m in owned {
        if i == *m as usize {
            return true;
        }
    }
    false
}

/// Whether a memory has one, by all that are owned.
fn has_owner(parts: &Parts, owned: &[u32], i: usize) -> bool
    requires there { i < length parts.now.mems.items }
    requires all { owned.now ≡ owned_in (plain_node parts.now.root) }
    ensures { result ≡ has_owner (core_of parts.now) i }
{
    is_port_kind(parts.mems[i].kind) || is_owned(i, owned)
}

/// Whether memories, ports, owners and the size are right by themselves.
fn are_declarations_right(alloc: Global, parts: &Parts) -> Result<bool, AllocError>
    ensures { IfOk result (λ right. right ≡ are_declarations_right (core_of parts.now)) }
{
    Ok(
        (are_memories_right(parts) && are_ports_right(parts))
            && (have_owners(alloc, parts)? && is_small(parts)),
    )
}

/// The first node of a part, in preorder, that doesn't keep its rules, where the part's first node has this number.
fn wrong_node(
    alloc: Global,
    parts: &Parts,
    around: &Around,
    earlier: &[u32],
    number: u64,
    node: &Node,
) -> Result<Option<u64>, AllocError>
    requires { number + node_count (plain_node node.now) ≤ 536870912 }
    ensures node { IfOk result (λ found. found ≡ wrong_node (core_of parts.now) (around_of around.now) earlier.now number (plain_node node.now)) }
    ensures within { IfOk result (λ found. IfSome found (λ n. n ≤ 536870912)) }
{
    if !is_right_here(alloc, parts, around, earlier, node)? {
        return Ok(Some(number));
    }
    match node {
        Node::Outer {
            counters,
            owned,
            stages,
            ..
        } => {
            let inside = within(alloc, around, counters, owned)?;
            let mut before = joined(alloc, earlier, owned)?;
            let mut next = number + 1;
            for stage in stages {
                let found = wrong_node(alloc, parts, &inside, &before, next, &stage.node)?;
                if found.is_some() {
                    return Ok(found);
                }
                collect_owned(&stage.node, &mut before)?;
                next += count_nodes(&stage.node);
            }
            Ok(None)
        }
        Node::Fsm { state, body, .. } => {
            let inside = with_state(alloc, parts, around, *state)?;
            let before = joined(alloc, earlier, &[*state])?;
            wrong_node(alloc, parts, &inside, &before, number + 1, body)
        }
        Node::Branch { yes, no, .. } => {
            let found = wrong_node(alloc, parts, around, earlier, number + 1, yes)?;
            if found.is_some() {
                return Ok(found);
            }
            let mut before = earlier.to_vec(alloc)?;
            collect_owned(yes, &mut before)?;
            let next = number + 1 + count_nodes(yes);
            wrong_node(alloc, parts, around, &before, next, no)
        }
        _ => Ok(None),
    }
}

/// One list after another.
fn joined(alloc: Global, first: &[u32], rest: &[u32]) -> Result<Vec<u32>, AllocError>
    ensures { IfOk result (λ all. all.items ≡ first.now ++ rest.now) }
{
    let mut all = first.to_vec(alloc)?;
    all.extend_from_slice(rest)?;
    Ok(all)
}

/// The first node that shows that a core isn't right.
pub(crate) fn wrong_place(alloc: Global, parts: &Parts) -> Result<Option<u64>, AllocError>
    ensures place { IfOk result (λ found. found ≡ wrong_place (core_of parts.now)) }
    ensures within { IfOk result (λ found. IfSome found (λ n. n ≤ 536870912)) }
{
    if !are_declarations_right(alloc, parts)? {
        return Ok(Some(0));
    }
    let nothing = Around {
        counters: Vec::new(alloc),
        owned: Vec::new(alloc),
    };
    wrong_node(alloc, parts, &nothing, &[], 0, &parts.root)
}
