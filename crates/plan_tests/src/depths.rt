use crate::cores::{body, counter, memory, no_ports, op, stage};
use sp_core::{Core, CoreError, Node, OpKind};
use sp_depths::depth;
use sp_plan::NodePlan;
use sp_words::{Kind, Style};
use std::alloc::{AllocError, Global};
use std::test::Fail;

/// A loop that owns register 0, which its first stage writes and its third one reads; the second one names nothing.
/// Register 1 is the block's.
fn written_and_read(alloc: Global) -> Result<Result<Core, CoreError>, AllocError> {
    let writes = vec![in alloc;
        op(alloc, OpKind::Count(0, 0), &[], None)?,
        op(alloc, OpKind::Write, &[0], Some(0))?,
    ]?;
    let waits = vec![in alloc; op(alloc, OpKind::Word(1), &[], None)?]?;
    let reads = vec![in alloc;
        op(alloc, OpKind::Read, &[], Some(0))?,
        op(alloc, OpKind::Write, &[0], Some(1))?,
    ]?;
    let inside = Node::Outer {
        counters: vec![in alloc; counter(alloc, 0, 4)?]?,
        style: Style::Pipe,
        owned: vec![in alloc; 0]?,
        stages: vec![in alloc;
            stage(body(alloc, writes)),
            stage(body(alloc, waits)),
            stage(body(alloc, reads)),
        ]?,
    };
    let root = Node::Outer {
        counters: Vec::new(alloc),
        style: Style::Pipe,
        owned: vec![in alloc; 1]?,
        stages: vec![in alloc; stage(inside)]?,
    };
    let mems = vec![in alloc;
        memory(alloc, "r", Kind::Reg, &[])?,
        memory(alloc, "s", Kind::Reg, &[])?,
    ]?;
    Ok(Core::new(alloc, mems, no_ports(alloc), root))
}

fn outer(alloc: Global, slots: &[u32]) -> Result<NodePlan, AllocError> {
    Ok(NodePlan::Outer {
        slots: slots.to_vec(alloc)?,
        chains: slots.to_vec(alloc)?,
    })
}

#[test]
fn a_loop_has_a_copy_for_each_slot_from_the_first_use_to_the_last(
    rt: HostRuntime,
) -> Result<(), Fail> {
    let alloc = rt.alloc();
    let core = written_and_read(alloc)??;
    let apart = vec![in alloc; outer(alloc, &[0])?, outer(alloc, &[0, 1, 2])?]?;
    assert_eq!(rt; depth(&core, &apart, 0), 3);
    assert_eq!(rt; depth(&core, &apart, 1), 1);
    let together = vec![in alloc; outer(alloc, &[0])?, outer(alloc, &[0, 0, 0])?]?;
    assert_eq!(rt; depth(&core, &together, 0), 1);
    Ok(())
}
