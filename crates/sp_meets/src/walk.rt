//! The accesses of a core in preorder.
ghost use Rattle.std.specs.Prelude.{◌≡◌, ◌++◌, ◌+◌, ◌∷◌, [], map, IfOk, OnOk};
ghost use Rattle.sp_core.specs.CoreParts.{plain_core};
ghost use Rattle.sp_core.specs.Declarations.{is_stream};
ghost use Rattle.sp_core.specs.Meeting.{are_at_once, is_parallel};
ghost use Rattle.sp_core.specs.Numbering.{number_count};
ghost use Rattle.sp_core.specs.Plain.{plain_counter, plain_node, plain_mem};
ghost use Rattle.sp_meets.specs.Around.{changed_in, inner_level, outer_level, once};
ghost use Rattle.sp_meets.specs.Plain.{plain_level, plain_path, plain_spots, plain_spot};
ghost use Rattle.sp_meets.specs.Spots.{node_spots, spots};

use crate::access::{Found, add_bounds, add_list, add_spans, add_spot};
use crate::changed::add_changed;
use crate::range::{loops_of, places_inside};
use crate::spot::{Level, Spot, inside};
use crate::transfer::{slice_spot, sparse_spot};
use sp_core::{Core, CoreCounter, CoreMem, Node};
use sp_patterns::CounterPlace;
use sp_words::Style;
use std::alloc::{AllocError, Global};

fn is_parallel(style: Style) -> bool
    ensures { result ≡ is_parallel style }
{
    match style {
        Style::Parallel => true,
        Style::Pipe => false,
        Style::Sequential => false,
        Style::Stream => false,
    }
}

fn is_stream(style: Style) -> bool
    ensures { result ≡ is_stream style }
{
    match style {
        Style::Stream => true,
        Style::Pipe => false,
        Style::Sequential => false,
        Style::Parallel => false,
    }
}

fn are_at_once(counters: &[CoreCounter], style: Style) -> bool
    ensures { result ≡ are_at_once (map plain_counter counters.now) style }
{
    if counters.is_empty() {
        is_parallel(style)
    } else {
        true
    }
}

fn changed_in(alloc: Global, node: &Node) -> Result<Vec<u32>, AllocError>
    ensures { IfOk result (λ c. c.items ≡ changed_in (plain_node node.now)) }
{
    let mut changed = Vec::new(alloc);
    add_changed(node, &mut changed)?;
    Ok(changed)
}

fn inner_level(
    alloc: Global,
    mems: &[CoreMem],
    places: &[CounterPlace],
    counters: &[CoreCounter],
    node: &Node,
) -> Result<Level, AllocError>
    ensures { IfOk result (λ l. plain_level l ≡ inner_level (map plain_mem mems.now) places.now (map plain_counter counters.now) (changed_in (plain_node node.now))) }
{
    Ok(Level {
        part: 0,
        loops: loops_of(alloc, mems, places, counters)?,
        at_once: false,
        streams: false,
        copied: Vec::new(alloc),
        changed: changed_in(alloc, node)?,
    })
}

fn outer_level(
    alloc: Global,
    mems: &[CoreMem],
    places: &[CounterPlace],
    counters: &[CoreCounter],
    style: Style,
    owned: &[u32],
    node: &Node,
) -> Result<Level, AllocError>
    ensures { IfOk result (λ l. plain_level l ≡ outer_level (map plain_mem mems.now) places.now (map plain_counter counters.now) style owned.now (changed_in (plain_node node.now))) }
{
    Ok(Level {
        part: 0,
        loops: loops_of(alloc, mems, places, counters)?,
        at_once: are_at_once(counters, style),
        streams: is_stream(style),
        copied: Vec::from_slice(alloc, owned)?,
        changed: changed_in(alloc, node)?,
    })
}

fn once(alloc: Global, node: &Node) -> Result<Level, AllocError>
    ensures { IfOk result (λ l. plain_level l ≡ once (changed_in (plain_node node.now))) }
{
    Ok(Level {
        part: 0,
        loops: Vec::new(alloc),
        at_once: false,
        streams: false,
        copied: Vec::new(alloc),
        changed: changed_in(alloc, node)?,
    })
}

/// One number further.
fn add_transfer(found: &mut Found, spot: Spot) -> Result<(), AllocError>
    ensures spots { OnOk result (plain_spots found.new.spots.items ≡ plain_spots found.old.spots.items ++ plain_spot spot ∷ []) }
    ensures number { OnOk result (found.new.number ≡ found.old.number + 1) }
{
    add_spot(found, spot)?;
    found.number = found.number.checked_add(1).ok_or(AllocError)?;
    Ok(())
}

fn add_node(
    alloc: Global,
    core: &Core,
    path: &[Level],
    places: &[CounterPlace],
    node: &Node,
    found: &mut Found,
) -> Result<(), AllocError>
    ensures number { OnOk result (found.new.number ≡ found.old.number + number_count (plain_node node.now)) }
    ensures spots { OnOk result (plain_spots found.new.spots.items ≡ plain_spots found.old.spots.items ++ node_spots (plain_core core.now) (plain_path path.now) places.now found.old.number (plain_node node.now)) }
{
    match node {
        Node::Inner { counters, ops, .. } => {
            add_bounds(alloc, path, counters, found)?;
            let level = inner_level(alloc, core.mems(), places, counters, node)?;
            let within = inside(alloc, path, &level, 0)?;
            add_list(alloc, &within, ops, found)
        }
        Node::Outer {
            counters,
            style,
            owned,
            stages,
        } => {
            add_bounds(alloc, path, counters, found)?;
            let level = outer_level(alloc, core.mems(), places, counters, *style, owned, node)?;
            let around = places_inside(alloc, places, counters)?;
            let mut part = 0u32;
            for stage in stages {
                let within = inside(alloc, path, &level, part)?;
                add_node(alloc, core, &within, &around, &stage.node, found)?;
                part = part.checked_add(1).ok_or(AllocError)?;
            }
            Ok(())
        }
        Node::Fsm {
            start,
            test,
            body,
            next,
            ..
        } => {
            let level = once(alloc, node)?;
            add_list(alloc, path, start, found)?;
            let testing = inside(alloc, path, &level, 0)?;
            add_list(alloc, &testing, test, found)?;
            let working = inside(alloc, path, &level, 1)?;
            add_node(alloc, core, &working, places, body, found)?;
            let going = inside(alloc, path, &level, 2)?;
            add_list(alloc, &going, next, found)
        }
        Node::Branch { test, yes, no } => {
            let level = once(alloc, node)?;
            let testing = inside(alloc, path, &level, 0)?;
            add_list(alloc, &testing, test, found)?;
            let first = inside(alloc, path, &level, 1)?;
            add_node(alloc, core, &first, places, yes, found)?;
            let second = inside(alloc, path, &level, 2)?;
            add_node(alloc, core, &second, places, no, found)
        }
        Node::Load { dram, mem, span } => {
            add_spans(alloc, path, span, found)?;
            let spot = slice_spot(alloc, core, path, found.number, true, *dram, *mem, span)?;
            add_transfer(found, spot)
        }
        Node::Store { dram, mem, span } => {
            add_spans(alloc, path, span, found)?;
            let spot = slice_spot(alloc, core, path, found.number, false, *dram, *mem, span)?;
            add_transfer(found, spot)
        }
        Node::Sparse {
            kind,
            dram,
            mem,
            index,
            span,
            count,
            ..
        } => {
            add_spans(alloc, path, span, found)?;
            add_list(alloc, path, count, found)?;
            let spot = sparse_spot(
                alloc,
                core,
                path,
                found.number,
                *kind,
                *dram,
                *mem,
                *index,
                span,
            )?;
            add_transfer(found, spot)
        }
    }
}

/// The accesses of a core, with the controllers around them.
pub fn spots(alloc: Global, core: &Core) -> Result<Vec<Spot>, AllocError>
    ensures { IfOk result (λ v. plain_spots v.items ≡ spots (plain_core core.now)) }
{
    let mut path = Vec::new(alloc);
    path.push(once(alloc, core.root())?)?;
    let mut found = Found {
        spots: Vec::new(alloc),
        number: 0,
    };
    add_node(alloc, core, &path, &[], core.root(), &mut found)?;
    Ok(found.spots)
}
