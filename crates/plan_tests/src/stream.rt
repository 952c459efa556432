use crate::cores::{counter, memory, no_ports, op, stage};
use sp_core::{Core, CoreError, Node, Op, OpKind, Stage};
use sp_stream::proper;
use sp_words::{Kind, Style};
use std::alloc::{AllocError, Global};
use std::test::Fail;

/// Counter `id` from 0 to 7 into each of these FIFOs.
fn puts(alloc: Global, id: u32, fifos: &[u32]) -> Result<Stage, AllocError> {
    let mut ops = vec![in alloc; op(alloc, OpKind::Count(id, 0), &[], None)?]?;
    for m in fifos {
        ops.push(op(alloc, OpKind::Enq, &[0], Some(*m))?)?;
    }
    looped(alloc, id, ops)
}

/// A word from each of these FIFOs, eight times.
fn takes(alloc: Global, id: u32, fifos: &[u32]) -> Result<Stage, AllocError> {
    let mut ops = Vec::new(alloc);
    for m in fifos {
        ops.push(op(alloc, OpKind::Deq, &[], Some(*m))?)?;
    }
    looped(alloc, id, ops)
}

fn looped(alloc: Global, id: u32, ops: Vec<Op>) -> Result<Stage, AllocError> {
    Ok(stage(Node::Inner {
        counters: vec![in alloc; counter(alloc, id, 8)?]?,
        owned: Vec::new(alloc),
        ops,
        comb: None,
    }))
}

/// A block with two FIFOs and these stages, in a block around it.
fn block(alloc: Global, stages: Vec<Stage>) -> Result<Result<Core, CoreError>, AllocError> {
    let inside = Node::Outer {
        counters: Vec::new(alloc),
        style: Style::Stream,
        owned: vec![in alloc; 0, 1]?,
        stages,
    };
    let root = Node::Outer {
        counters: Vec::new(alloc),
        style: Style::Pipe,
        owned: Vec::new(alloc),
        stages: vec![in alloc; stage(inside)]?,
    };
    let mems = vec![in alloc;
        memory(alloc, "f", Kind::Fifo, &[2])?,
        memory(alloc, "g", Kind::Fifo, &[2])?,
    ]?;
    Ok(Core::new(alloc, mems, no_ports(alloc), root))
}

#[test]
fn a_stage_feeds_two_others(rt: HostRuntime) -> Result<(), Fail> {
    let alloc = rt.alloc();
    let stages = vec![in alloc;
        puts(alloc, 0, &[0, 1])?,
        takes(alloc, 1, &[0])?,
        takes(alloc, 2, &[1])?,
    ]?;
    let core = block(alloc, stages)??;
    assert!(rt; proper(&core, 1));
    assert!(rt; !proper(&core, 0));
    assert!(rt; !proper(&core, 2));
    assert!(rt; !proper(&core, 5));
    Ok(())
}

#[test]
fn two_fifos_between_two_stages_are_a_circle(rt: HostRuntime) -> Result<(), Fail> {
    let alloc = rt.alloc();
    let stages = vec![in alloc; puts(alloc, 0, &[0, 1])?, takes(alloc, 1, &[0, 1])?]?;
    let core = block(alloc, stages)??;
    assert!(rt; !proper(&core, 1));
    Ok(())
}
