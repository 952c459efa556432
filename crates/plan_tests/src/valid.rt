use crate::cores::{body, counter, meet, memory, no_ports, op, stage};
use smallvec::SmallVec;
use sp_affine::Form;
use sp_bank::Scheme;
use sp_core::{AccessForms, Core, CoreError, Node, OpKind, Stage};
use sp_plan::{MemPlan, NodePlan, Plan};
use sp_valid::valid;
use sp_words::{BinOp, Kind, Style};
use std::alloc::{AllocError, Global};
use std::test::Fail;

/// `s = t(i) + t(i + 1)`, by accesses 6, 9 and 11.
fn reads(alloc: Global) -> Result<Stage, AllocError> {
    let ops = vec![in alloc;
        op(alloc, OpKind::Count(0, 0), &[], None)?,
        op(alloc, OpKind::Read, &[0], Some(0))?,
        op(alloc, OpKind::Word(1), &[], None)?,
        op(alloc, OpKind::Two(BinOp::Add), &[0, 2], None)?,
        op(alloc, OpKind::Read, &[3], Some(0))?,
        op(alloc, OpKind::Two(BinOp::Add), &[1, 4], None)?,
        op(alloc, OpKind::Write, &[5], Some(1))?,
    ]?;
    Ok(stage(body(alloc, ops)))
}

/// A loop over i from 0 to 3 that owns the SRAM t. Its first stage does `t(i) = i` by access 3, its second one names nothing,
/// and its third one reads two neighbours; s is the block's.
fn written_and_read(alloc: Global) -> Result<Result<Core, CoreError>, AllocError> {
    let writes = vec![in alloc;
        op(alloc, OpKind::Count(0, 0), &[], None)?,
        op(alloc, OpKind::Write, &[0, 0], Some(0))?,
    ]?;
    let waits = vec![in alloc; op(alloc, OpKind::Word(1), &[], None)?]?;
    let inside = Node::Outer {
        counters: vec![in alloc; counter(alloc, 0, 4)?]?,
        style: Style::Pipe,
        owned: vec![in alloc; 0]?,
        stages: vec![in alloc;
            stage(body(alloc, writes)),
            stage(body(alloc, waits)),
            reads(alloc)?,
        ]?,
    };
    let root = Node::Outer {
        counters: Vec::new(alloc),
        style: Style::Pipe,
        owned: vec![in alloc; 1]?,
        stages: vec![in alloc; stage(inside)]?,
    };
    let mems = vec![in alloc;
        memory(alloc, "t", Kind::Sram, &[5])?,
        memory(alloc, "s", Kind::Reg, &[])?,
    ]?;
    Ok(Core::new(alloc, mems, no_ports(alloc), root))
}

/// The forms of an access at i and so much more.
fn at_counter(alloc: Global, constant: i64) -> Result<Option<Vec<Form>>, AllocError> {
    let form = Form {
        coefs: vec![in alloc; 1]?,
        constant,
        symbol: None,
    };
    Ok(Some(vec![in alloc; form]?))
}

fn forms(alloc: Global) -> Result<AccessForms, AllocError> {
    Ok(AccessForms {
        forms: vec![in alloc;
            at_counter(alloc, 0)?,
            at_counter(alloc, 0)?,
            at_counter(alloc, 1)?,
            Some(Vec::new(alloc)),
        ]?,
        lengths: Vec::new(alloc),
    })
}

/// Of t with so many banks, copies and duplicates; and of s.
fn mems(
    alloc: Global,
    banks: u32,
    weight: u32,
    depth: u32,
    duplicates: u32,
) -> Result<Vec<MemPlan>, AllocError> {
    let alpha = SmallVec::from_slice(alloc, &[weight])?;
    Ok(vec![in alloc;
        MemPlan {
            scheme: Scheme::new(banks, 1, alpha, 0),
            depth,
            duplicates,
        },
        MemPlan {
            scheme: None,
            depth: 1,
            duplicates: 1,
        },
    ]?)
}

fn timed(alloc: Global, times: &[u32], ii: u32, latency: u32) -> Result<NodePlan, AllocError> {
    Ok(NodePlan::Inner {
        times: times.to_vec(alloc)?,
        ii,
        latency,
        serial: false,
    })
}

fn divided(alloc: Global, slots: &[u32], chains: &[u32]) -> Result<NodePlan, AllocError> {
    Ok(NodePlan::Outer {
        slots: slots.to_vec(alloc)?,
        chains: chains.to_vec(alloc)?,
    })
}

/// Of the block, of the loop with these slots and chains, and of its stages, of which the last one has these times.
fn nodes(
    alloc: Global,
    slots: &[u32],
    chains: &[u32],
    waits: NodePlan,
    times: &[u32],
    latency: u32,
) -> Result<Vec<NodePlan>, AllocError> {
    Ok(vec![in alloc;
        divided(alloc, &[0], &[0])?,
        divided(alloc, slots, chains)?,
        timed(alloc, &[0, 0], 1, 1)?,
        waits,
        timed(alloc, times, 1, latency)?,
    ]?)
}

/// Whether a plan of the loop is valid.
fn is_valid(alloc: Global, mems: Vec<MemPlan>, nodes: Vec<NodePlan>) -> Result<bool, Fail> {
    let core = written_and_read(alloc)??;
    let forms = forms(alloc)?;
    let meets = vec![in alloc; meet(3, 6, 0), meet(3, 9, 0), meet(11, 11, 1)]?;
    Ok(valid(&core, &forms, &meets, &Plan { mems, nodes }))
}

/// The nodes of the loop with a slot for each stage, and times as early as they may be.
fn least(alloc: Global) -> Result<Vec<NodePlan>, AllocError> {
    nodes(
        alloc,
        &[0, 1, 2],
        &[0, 0, 0],
        timed(alloc, &[0], 1, 0)?,
        &[0, 1, 0, 0, 1, 3, 4],
        5,
    )
}

#[test]
fn plans_in_three_slots_and_in_two_are_valid(rt: HostRuntime) -> Result<(), Fail> {
    let alloc = rt.alloc();
    assert!(rt; is_valid(alloc, mems(alloc, 2, 1, 3, 1)?, least(alloc)?)?);
    let waits = timed(alloc, &[0], 1, 0)?;
    let joined = nodes(
        alloc,
        &[0, 1, 1],
        &[0, 0, 0],
        waits,
        &[0, 1, 0, 0, 1, 3, 4],
        5,
    )?;
    assert!(rt; is_valid(alloc, mems(alloc, 2, 1, 2, 1)?, joined)?);
    Ok(())
}

#[test]
fn a_plan_whose_memories_are_wrong_is_not_valid(rt: HostRuntime) -> Result<(), Fail> {
    let alloc = rt.alloc();
    // a copy too few, a duplicate too many, and one bank for neighbours that are read at once
    assert!(rt; !is_valid(alloc, mems(alloc, 2, 1, 2, 1)?, least(alloc)?)?);
    assert!(rt; !is_valid(alloc, mems(alloc, 2, 1, 3, 2)?, least(alloc)?)?);
    assert!(rt; !is_valid(alloc, mems(alloc, 1, 0, 3, 1)?, least(alloc)?)?);
    // no entry for the last memory
    let mut few = mems(alloc, 2, 1, 3, 1)?;
    few.truncate(1);
    assert!(rt; !is_valid(alloc, few, least(alloc)?)?);
    Ok(())
}

#[test]
fn a_plan_whose_slots_or_chains_are_wrong_is_not_valid(rt: HostRuntime) -> Result<(), Fail> {
    let alloc = rt.alloc();
    let times = [0, 1, 0, 0, 1, 3, 4];
    // slots with a gap, stages that go back, and two chains of one lane in a slot
    let waits = timed(alloc, &[0], 1, 0)?;
    let gap = nodes(alloc, &[0, 2, 3], &[0, 0, 0], waits, &times, 5)?;
    assert!(rt; !is_valid(alloc, mems(alloc, 2, 1, 4, 1)?, gap)?);
    let waits = timed(alloc, &[0], 1, 0)?;
    let back = nodes(alloc, &[0, 1, 0], &[0, 0, 0], waits, &times, 5)?;
    assert!(rt; !is_valid(alloc, mems(alloc, 2, 1, 1, 1)?, back)?);
    let waits = timed(alloc, &[0], 1, 0)?;
    let parted = nodes(alloc, &[0, 1, 1], &[0, 0, 1], waits, &times, 5)?;
    assert!(rt; !is_valid(alloc, mems(alloc, 2, 1, 2, 1)?, parted)?);
    Ok(())
}

#[test]
fn a_plan_whose_times_or_kinds_are_wrong_is_not_valid(rt: HostRuntime) -> Result<(), Fail> {
    let alloc = rt.alloc();
    // a sum before its words are there, and two reads by one port at two times
    let waits = timed(alloc, &[0], 1, 0)?;
    let early = nodes(
        alloc,
        &[0, 1, 2],
        &[0, 0, 0],
        waits,
        &[0, 1, 0, 0, 1, 2, 4],
        5,
    )?;
    assert!(rt; !is_valid(alloc, mems(alloc, 2, 1, 3, 1)?, early)?);
    let waits = timed(alloc, &[0], 1, 0)?;
    let apart = nodes(
        alloc,
        &[0, 1, 2],
        &[0, 0, 0],
        waits,
        &[0, 0, 0, 0, 1, 3, 4],
        5,
    )?;
    assert!(rt; !is_valid(alloc, mems(alloc, 2, 1, 3, 1)?, apart)?);
    // a body without times, and no entry for the last node
    let other = nodes(
        alloc,
        &[0, 1, 2],
        &[0, 0, 0],
        NodePlan::Other,
        &[0, 1, 0, 0, 1, 3, 4],
        5,
    )?;
    assert!(rt; !is_valid(alloc, mems(alloc, 2, 1, 3, 1)?, other)?);
    let mut few = least(alloc)?;
    few.truncate(4);
    assert!(rt; !is_valid(alloc, mems(alloc, 2, 1, 3, 1)?, few)?);
    Ok(())
}
