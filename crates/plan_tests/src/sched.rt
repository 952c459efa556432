use crate::cores::{counter, meet, memory, no_ports, op};
use sp_bank::Scheme;
use sp_core::{Core, CoreError, Meets, Node, OpKind};
use sp_plan::NodePlan;
use sp_sched::schedule;
use sp_words::{BinOp, Kind};
use std::alloc::{AllocError, Global};
use std::test::Fail;

/// `h(s(i)) = h(s(i)) + 1` for i from 0 to 7, by accesses 3 to s, and 4 and 7 to h.
fn histogram(alloc: Global) -> Result<Result<Core, CoreError>, AllocError> {
    let ops = vec![in alloc;
        op(alloc, OpKind::Count(0, 0), &[], None)?,
        op(alloc, OpKind::Read, &[0], Some(0))?,
        op(alloc, OpKind::Read, &[1], Some(1))?,
        op(alloc, OpKind::Word(1), &[], None)?,
        op(alloc, OpKind::Two(BinOp::Add), &[2, 3], None)?,
        op(alloc, OpKind::Write, &[1, 4], Some(1))?,
    ]?;
    let root = Node::Inner {
        counters: vec![in alloc; counter(alloc, 0, 8)?]?,
        owned: vec![in alloc; 0, 1]?,
        ops,
        comb: None,
    };
    let mems = vec![in alloc;
        memory(alloc, "s", Kind::Sram, &[8])?,
        memory(alloc, "h", Kind::Sram, &[4])?,
    ]?;
    Ok(Core::new(alloc, mems, no_ports(alloc), root))
}

#[test]
fn a_histogram_begins_a_group_each_four_cycles(rt: HostRuntime) -> Result<(), Fail> {
    let alloc = rt.alloc();
    let core = histogram(alloc)??;
    let meets = Meets {
        pairs: vec![in alloc; meet(4, 7, 0), meet(7, 4, 1), meet(7, 7, 1)]?,
    };
    let schemes: [Option<Scheme>; 2] = [None, None];
    match schedule(alloc, &core, 0, &meets, &schemes)? {
        NodePlan::Inner {
            times,
            ii,
            latency,
            serial,
        } => {
            assert_eq!(rt; times.as_slice(), [0, 0, 2, 0, 4, 5].as_slice());
            assert_eq!(rt; ii, 4);
            assert_eq!(rt; latency, 6);
            assert!(rt; !serial);
        }
        _ => assert!(rt; false),
    }
    match schedule(alloc, &core, 1, &meets, &schemes)? {
        NodePlan::Other => {}
        _ => assert!(rt; false),
    }
    Ok(())
}
