use crate::cores::{body, counter, meet, memory, no_ports, op, stage};
use sp_affine::Form;
use sp_core::{AccessForms, Core, CoreError, Meets, Node, OpKind};
use sp_plan::{MemPlan, NodePlan};
use sp_plans::planned;
use sp_words::{Kind, Style};
use std::alloc::{AllocError, Global};
use std::test::Fail;

/// A loop over i from 0 to 3 that owns the SRAM t. Its first stage does `t(i) = i` by access 3, its second one names nothing,
/// and its third one does `s = t(i)` by accesses 6 and 7; s is the block's.
fn written_and_read(alloc: Global) -> Result<Result<Core, CoreError>, AllocError> {
    let writes = vec![in alloc;
        op(alloc, OpKind::Count(0, 0), &[], None)?,
        op(alloc, OpKind::Write, &[0, 0], Some(0))?,
    ]?;
    let waits = vec![in alloc; op(alloc, OpKind::Word(1), &[], None)?]?;
    let reads = vec![in alloc;
        op(alloc, OpKind::Count(0, 0), &[], None)?,
        op(alloc, OpKind::Read, &[0], Some(0))?,
        op(alloc, OpKind::Write, &[1], Some(1))?,
    ]?;
    let inside = Node::Outer {
        counters: vec![in alloc; counter(alloc, 0, 4)?]?,
        style: Style::Pipe,
        owned: vec![in alloc; 0]?,
        stages: vec![in alloc;
            stage(body(alloc, writes)),
            stage(body(alloc, waits)),
            stage(body(alloc, reads)),
        ]?,
    };
    let root = Node::Outer {
        counters: Vec::new(alloc),
        style: Style::Pipe,
        owned: vec![in alloc; 1]?,
        stages: vec![in alloc; stage(inside)]?,
    };
    let mems = vec![in alloc;
        memory(alloc, "t", Kind::Sram, &[4])?,
        memory(alloc, "s", Kind::Reg, &[])?,
    ]?;
    Ok(Core::new(alloc, mems, no_ports(alloc), root))
}

/// The forms of an access at i.
fn at_counter(alloc: Global) -> Result<Option<Vec<Form>>, AllocError> {
    let form = Form {
        coefs: vec![in alloc; 1]?,
        constant: 0,
        symbol: None,
    };
    Ok(Some(vec![in alloc; form]?))
}

/// Whether it is the plan of an inner body that begins a group in each cycle.
fn is_timed(plan: &NodePlan, wanted: &[u32], last: u32) -> bool {
    match plan {
        NodePlan::Inner {
            times,
            ii,
            latency,
            serial,
        } => times.as_slice() == wanted && *ii == 1 && *latency == last && !*serial,
        _ => false,
    }
}

fn is_divided(plan: &NodePlan, wanted: &[u32], joined: &[u32]) -> bool {
    match plan {
        NodePlan::Outer { slots, chains } => {
            slots.as_slice() == wanted && chains.as_slice() == joined
        }
        _ => false,
    }
}

/// How many banks a memory has by its scheme; 0 without one.
fn banks(mem: &MemPlan) -> u32 {
    match &mem.scheme {
        Some(scheme) => scheme.banks,
        None => 0,
    }
}

#[test]
fn a_loop_is_divided_and_its_memory_has_a_copy_for_each_slot(rt: HostRuntime) -> Result<(), Fail> {
    let alloc = rt.alloc();
    let core = written_and_read(alloc)??;
    let forms = AccessForms {
        forms: vec![in alloc;
            at_counter(alloc)?,
            at_counter(alloc)?,
            Some(Vec::new(alloc)),
        ]?,
        lengths: Vec::new(alloc),
    };
    let meets = Meets {
        pairs: vec![in alloc; meet(3, 6, 0), meet(7, 7, 1)]?,
    };
    let plan = planned(alloc, &core, &forms, &meets)?;
    assert_eq!(rt; plan.mems.len(), 2);
    let read = plan.mems.first().expect(&rt, "t");
    assert_eq!(rt; banks(read), 1);
    assert_eq!(rt; read.depth, 3);
    assert_eq!(rt; read.duplicates, 1);
    let last = plan.mems.last().expect(&rt, "s");
    assert_eq!(rt; banks(last), 0);
    assert_eq!(rt; last.depth, 1);
    assert_eq!(rt; last.duplicates, 1);
    assert_eq!(rt; plan.nodes.len(), 5);
    assert!(rt; is_divided(plan.nodes.first().expect(&rt, "the block"), &[0], &[0]));
    assert!(rt;
        is_divided(
            plan.nodes.get(1).expect(&rt, "the loop"),
            &[0, 1, 2],
            &[0, 0, 0]
        )
    );
    assert!(rt; is_timed(plan.nodes.get(2).expect(&rt, "a stage"), &[0, 0], 1));
    assert!(rt; is_timed(plan.nodes.get(3).expect(&rt, "a stage"), &[0], 0));
    assert!(rt; is_timed(plan.nodes.last().expect(&rt, "a stage"), &[0, 0, 2], 3));
    Ok(())
}
