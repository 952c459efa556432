//! The memories of a core whose lanes stand one after the other, each by the number that it has in the core.

ghost use Rattle.std.specs.Prelude.{◌≡◌, ◌≤◌, ◌++◌, ◌∷◌, [], ℕ, List, map, take, drop, length, IfOk, OnOk};
ghost use Rattle.sp_words.specs.Ports.{PlainPorts};
ghost use Rattle.sp_core.specs.Around as around;
ghost use Rattle.sp_core.specs.Around.{is_port_kind};
ghost use Rattle.sp_core.specs.Plain.{plain_counter, plain_mem, plain_node};
ghost use Rattle.sp_lanes.specs.Order as plain;
ghost use Rattle.sp_lanes.specs.Order.{is_before, placed, in_turn, repeated, memories_in, memory_order};
ghost use Rattle.sp_unroll.specs.Arranged.{lists_of, arranged, is_kept, singles, ports_below};

use crate::NoMemory;
use sp_core::{CoreCounter, CoreMem, Node};
use sp_words::Kind;
use std::alloc::{AllocError, Global};

/// Where a number stands in a list for the k-th time.
pub(crate) fn occurrence(m: u32, k: u32, order: &[u32]) -> Result<u32, NoMemory>
    ensures { IfOk result (λ place. place ≡ plain.occurrence m k order.now) }
{
    let mut left = k;
    let mut place: u32 = 0;
    for x in order {
        if *x == m {
            if left == 0 {
                return Ok(place);
            }
            left -= 1;
        }
        place = place.checked_add(1).ok_or(AllocError)?;
    }
    Ok(place)
}

/// The lanes of a controller.
pub(crate) fn lanes_of(counters: &[CoreCounter]) -> u32
    ensures { result ≡ around.lanes_of (map plain_counter counters.now) }
{
    let [counter, rest @ ..] = counters else {
        return 1;
    };
    if rest.is_empty() {
        return counter.par;
    }
    lanes_of(rest)
}

/// Whether a memory stands in the text, or doesn't, as it is asked.
fn is_kept(mems: &[CoreMem], written: bool, m: u32) -> bool
    ensures { result ≡ is_kept (map plain_mem mems.now) written m }
{
    let is_written = match mems.get(m as usize) {
        Some(mem) => mem.written,
        None => false,
    };
    if written { is_written } else { !is_written }
}

/// Appends each memory that is kept, by itself.
fn push_singles(
    alloc: Global,
    parts: &mut Vec<Vec<u32>>,
    mems: &[CoreMem],
    written: bool,
    owned: &[u32],
) -> Result<(), NoMemory>
    ensures { OnOk result (lists_of parts.new.items ≡ lists_of parts.old.items ++ singles (is_kept (map plain_mem mems.now) written) owned.now) }
{
    for m in owned {
        if is_kept(mems, written, *m) {
            parts.push(vec![in alloc; *m]?)?;
        }
    }
    Ok(())
}

fn is_before(m: u32, list: &[u32]) -> bool
    ensures { result ≡ is_before m list.now }
{
    match list.first() {
        Some(first) => m < *first,
        None => true,
    }
}

/// Where a list that begins with a memory is placed among others.
fn place_of(m: u32, lists: &[Vec<u32>]) -> usize
    ensures place { (ms : List ℕ) → lists_of (take result lists.now) ++ (m ∷ ms) ∷ lists_of (drop result lists.now) ≡ placed (m ∷ ms) (lists_of lists.now) }
    ensures inside { result ≤ length lists.now }
{
    for i in 0..lists.len() {
        if is_before(m, &lists[i]) {
            return i;
        }
    }
    lists.len()
}

/// Places a list among others.
fn place(lists: &mut Vec<Vec<u32>>, part: Vec<u32>) -> Result<(), NoMemory>
    ensures { OnOk result (lists_of lists.new.items ≡ placed part.items (lists_of lists.old.items)) }
{
    let Some(first) = part.first() else {
        return Ok(());
    };
    let at = place_of(*first, lists);
    lists.insert(at, part)?;
    Ok(())
}

/// Lists of memories one after the other.
fn joined(alloc: Global, lists: &[Vec<u32>]) -> Result<Vec<u32>, NoMemory>
    ensures { IfOk result (λ all. all.items ≡ in_turn (lists_of lists.now)) }
{
    let mut all = Vec::new(alloc);
    for list in lists {
        all.extend_from_slice(list)?;
    }
    Ok(all)
}

/// All memories of parts, in the order of the parts' first ones.
fn arranged(alloc: Global, mut parts: Vec<Vec<u32>>) -> Result<Vec<u32>, NoMemory>
    ensures { IfOk result (λ all. all.items ≡ arranged (lists_of parts.items)) }
{
    let mut lists = Vec::new(alloc);
    while let Some(part) = parts.pop() {
        place(&mut lists, part)?;
    }
    joined(alloc, &lists)
}

/// The memories of a controller's parts, once for each of its lanes.
fn lane_by_lane(
    alloc: Global,
    counters: &[CoreCounter],
    parts: Vec<Vec<u32>>,
) -> Result<Vec<u32>, NoMemory>
    ensures { IfOk result (λ all. all.items ≡ repeated (around.lanes_of (map plain_counter counters.now)) (arranged (lists_of parts.items))) }
{
    let list = arranged(alloc, parts)?;
    let lanes = lanes_of(counters);
    let mut all = Vec::new(alloc);
    for _lane in 0..lanes {
        all.extend_from_slice(&list)?;
    }
    Ok(all)
}

/// The memories of a node and of the nodes in it that stand in the text, or of the others.
#[cycle(memories)]
fn memories_in(
    alloc: Global,
    mems: &[CoreMem],
    written: bool,
    node: &Node,
) -> Result<Vec<u32>, NoMemory>
    ensures { IfOk result (λ all. all.items ≡ memories_in (is_kept (map plain_mem mems.now) written) (plain_node node.now)) }
{
    let mut parts = Vec::new(alloc);
    match node {
        Node::Inner {
            counters,
            owned,
            ..
        } => {
            push_singles(alloc, &mut parts, mems, written, owned)?;
            let all = lane_by_lane(alloc, counters, parts)?;
            Ok(all)
        }
        Node::Outer {
            counters,
            owned,
            stages,
            ..
        } => {
            push_singles(alloc, &mut parts, mems, written, owned)?;
            for stage in stages {
                parts.push(memories_in(alloc, mems, written, &stage.node)?)?;
            }
            let all = lane_by_lane(alloc, counters, parts)?;
            Ok(all)
        }
        Node::Fsm { state, body, .. } => {
            push_singles(alloc, &mut parts, mems, written, &[*state])?;
            parts.push(memories_in(alloc, mems, written, body)?)?;
            let all = arranged(alloc, parts)?;
            Ok(all)
        }
        Node::Branch { yes, no, .. } => {
            parts.push(memories_in(alloc, mems, written, yes)?)?;
            parts.push(memories_in(alloc, mems, written, no)?)?;
            let all = arranged(alloc, parts)?;
            Ok(all)
        }
        Node::Load { .. } => Ok(Vec::new(alloc)),
        Node::Store { .. } => Ok(Vec::new(alloc)),
        Node::Sparse { .. } => Ok(Vec::new(alloc)),
    }
}

fn is_port_kind(kind: Kind) -> bool
    ensures { result ≡ is_port_kind kind }
{
    match kind {
        Kind::ArgIn => true,
        Kind::ArgOut => true,
        _ => false,
    }
}

/// The numbers of arguments and outputs.
fn port_numbers(alloc: Global, mems: &[CoreMem]) -> Result<Vec<u32>, NoMemory>
    ensures { IfOk result (λ all. all.items ≡ ports_below (map plain_mem mems.now) (length mems.now)) }
{
    let mut all = Vec::new(alloc);
    let mut number: u32 = 0;
    for mem in mems {
        if is_port_kind(mem.kind) {
            all.push(number)?;
        }
        number = number.checked_add(1).ok_or(AllocError)?;
    }
    Ok(all)
}

/// The memories of a core that stand in the text, or the others.
fn memories_where(
    alloc: Global,
    mems: &[CoreMem],
    written: bool,
    root: &Node,
) -> Result<Vec<u32>, NoMemory>
    ensures { IfOk result (λ all. all.items ≡ arranged (singles (is_kept (map plain_mem mems.now) written) (ports_below (map plain_mem mems.now) (length mems.now)) ++ memories_in (is_kept (map plain_mem mems.now) written) (plain_node root.now) ∷ [])) }
{
    let ports = port_numbers(alloc, mems)?;
    let mut parts = Vec::new(alloc);
    push_singles(alloc, &mut parts, mems, written, &ports)?;
    parts.push(memories_in(alloc, mems, written, root)?)?;
    let all = arranged(alloc, parts)?;
    Ok(all)
}

/// The memories of a core in lanes, each by its number in the core.
pub(crate) fn memory_order(
    alloc: Global,
    mems: &[CoreMem],
    root: &Node,
) -> Result<Vec<u32>, NoMemory>
    ensures { IfOk result (λ all. (ports : PlainPorts) → all.items ≡ memory_order (record { mems = map plain_mem mems.now; ports = ports; root = plain_node root.now })) }
{
    let mut all = memories_where(alloc, mems, true, root)?;
    let added = memories_where(alloc, mems, false, root)?;
    all.extend_from_slice(&added)?;
    Ok(all)
}
