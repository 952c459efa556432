use crate::cores::{body, counter, meet, memory, no_ports, op, stage};
use sp_core::{Core, CoreCounter, CoreError, Meet, Meets, Node, OpKind, Stage};
use sp_plan::NodePlan;
use sp_stages::{NoMemory, chains, slots, stages};
use sp_words::{BinOp, Kind, Style};
use std::alloc::{AllocError, Global};
use std::test::Fail;

/// `r := i` and then `s(i) = r + 10`, for i from 0 to 3: access 3 writes r, and 5 reads it.
fn register_between(alloc: Global) -> Result<Result<Core, CoreError>, AllocError> {
    let writes = vec![in alloc;
        op(alloc, OpKind::Count(0, 0), &[], None)?,
        op(alloc, OpKind::Write, &[0], Some(0))?,
    ]?;
    let reads = vec![in alloc;
        op(alloc, OpKind::Count(0, 0), &[], None)?,
        op(alloc, OpKind::Read, &[], Some(0))?,
        op(alloc, OpKind::Word(10), &[], None)?,
        op(alloc, OpKind::Two(BinOp::Add), &[1, 2], None)?,
        op(alloc, OpKind::Write, &[0, 3], Some(1))?,
    ]?;
    let inside = Node::Outer {
        counters: vec![in alloc; counter(alloc, 0, 4)?]?,
        style: Style::Pipe,
        owned: Vec::new(alloc),
        stages: vec![in alloc; stage(body(alloc, writes)), stage(body(alloc, reads))]?,
    };
    let root = Node::Outer {
        counters: Vec::new(alloc),
        style: Style::Pipe,
        owned: vec![in alloc; 0, 1]?,
        stages: vec![in alloc; stage(inside)]?,
    };
    let mems = vec![in alloc;
        memory(alloc, "r", Kind::Reg, &[])?,
        memory(alloc, "s", Kind::Sram, &[4])?,
    ]?;
    Ok(Core::new(alloc, mems, no_ports(alloc), root))
}

#[test]
fn a_register_joins_two_stages(rt: HostRuntime) -> Result<(), Fail> {
    let alloc = rt.alloc();
    let core = register_between(alloc)??;
    let near = Meets {
        pairs: vec![in alloc; meet(3, 5, 0), meet(5, 3, 1)]?,
    };
    assert_eq!(rt;
        slots(alloc, &core, 1, &near)?.as_slice(),
        [0, 0].as_slice()
    );
    assert_eq!(rt; slots(alloc, &core, 0, &near)?.as_slice(), [0].as_slice());
    assert_eq!(rt; slots(alloc, &core, 2, &near)?.len(), 0);
    let far = Meets {
        pairs: vec![in alloc; meet(3, 5, 0), meet(5, 3, 2)]?,
    };
    assert_eq!(rt; slots(alloc, &core, 1, &far)?.as_slice(), [0, 1].as_slice());
    Ok(())
}

#[test]
fn stages_of_one_slot_and_lane_are_in_one_chain(rt: HostRuntime) -> Result<(), Fail> {
    let alloc = rt.alloc();
    let core = register_between(alloc)??;
    let meets = Meets {
        pairs: Vec::new(alloc),
    };
    assert_eq!(rt;
        chains(alloc, &core, 1, &meets, &[0, 0])?.as_slice(),
        [0, 0].as_slice()
    );
    assert_eq!(rt;
        chains(alloc, &core, 0, &meets, &[0])?.as_slice(),
        [0].as_slice()
    );
    assert_eq!(rt; chains(alloc, &core, 2, &meets, &[0])?.len(), 0);
    Ok(())
}

/// A stage of these lanes.
fn in_lanes(first: u32, last: u32, node: Node) -> Stage {
    Stage {
        first,
        last,
        comb: first != last,
        node,
    }
}

/// `s(i) = i` in a lane.
fn fills(alloc: Global, lane: u32) -> Result<Node, AllocError> {
    let ops = vec![in alloc;
        op(alloc, OpKind::Count(0, lane), &[], None)?,
        op(alloc, OpKind::Write, &[0, 0], Some(0))?,
    ]?;
    Ok(body(alloc, ops))
}

/// `t(i) = s(i)` in a lane.
fn copies(alloc: Global, lane: u32) -> Result<Node, AllocError> {
    let ops = vec![in alloc;
        op(alloc, OpKind::Count(0, lane), &[], None)?,
        op(alloc, OpKind::Read, &[0], Some(0))?,
        op(alloc, OpKind::Write, &[0, 1], Some(1))?,
    ]?;
    Ok(body(alloc, ops))
}

/// `s(0) = 1`.
fn sets(alloc: Global) -> Result<Node, AllocError> {
    let ops = vec![in alloc;
        op(alloc, OpKind::Word(0), &[], None)?,
        op(alloc, OpKind::Word(1), &[], None)?,
        op(alloc, OpKind::Write, &[0, 1], Some(0))?,
    ]?;
    Ok(body(alloc, ops))
}

/// In two lanes `s(i) = i` and then `t(i) = s(i)`, for i from 0 to 3; after both lanes `s(0) = 1`. Accesses 3 and 8 write
/// s in the lanes, 5 and 10 read it, 6 and 11 write t, and 14 writes s for both.
fn two_lanes(alloc: Global, style: Style) -> Result<Result<Core, CoreError>, AllocError> {
    let counter = CoreCounter {
        id: 0,
        from: vec![in alloc; op(alloc, OpKind::Word(0), &[], None)?]?,
        until: vec![in alloc; op(alloc, OpKind::Word(4), &[], None)?]?,
        by: 1,
        par: 2,
    };
    let inside = Node::Outer {
        counters: vec![in alloc; counter]?,
        style,
        owned: Vec::new(alloc),
        stages: vec![in alloc;
            in_lanes(0, 0, fills(alloc, 0)?),
            in_lanes(0, 0, copies(alloc, 0)?),
            in_lanes(1, 1, fills(alloc, 1)?),
            in_lanes(1, 1, copies(alloc, 1)?),
            in_lanes(0, 1, sets(alloc)?),
        ]?,
    };
    let root = Node::Outer {
        counters: Vec::new(alloc),
        style: Style::Pipe,
        owned: vec![in alloc; 0, 1]?,
        stages: vec![in alloc; stage(inside)]?,
    };
    let mems = vec![in alloc;
        memory(alloc, "s", Kind::Sram, &[4])?,
        memory(alloc, "t", Kind::Sram, &[4])?,
    ]?;
    Ok(Core::new(alloc, mems, no_ports(alloc), root))
}

/// The slots, and then the chains, of a node's plan for one meet.
fn planned(alloc: Global, core: &Core, node: u32, meet: Meet) -> Result<Vec<u32>, NoMemory> {
    let meets = Meets {
        pairs: vec![in alloc; meet]?,
    };
    let mut numbers = Vec::new(alloc);
    if let NodePlan::Outer { slots, chains } = stages(alloc, core, node, &meets)? {
        numbers.extend_from_slice(&slots)?;
        numbers.extend_from_slice(&chains)?;
    }
    Ok(numbers)
}

#[test]
fn lanes_share_slots_and_a_stage_of_both_stands_last(rt: HostRuntime) -> Result<(), Fail> {
    let alloc = rt.alloc();
    let core = two_lanes(alloc, Style::Pipe)??;
    let lanes_meet = planned(alloc, &core, 1, meet(5, 8, 0))?;
    assert_eq!(rt;
        lanes_meet.as_slice(),
        [0, 0, 0, 0, 1, 0, 0, 0, 0, 0].as_slice()
    );
    let one_stage_meets = planned(alloc, &core, 1, meet(3, 8, 0))?;
    assert_eq!(rt;
        one_stage_meets.as_slice(),
        [0, 1, 0, 1, 2, 0, 0, 0, 1, 0].as_slice()
    );
    let last_meets_first = planned(alloc, &core, 1, meet(14, 3, 2))?;
    assert_eq!(rt;
        last_meets_first.as_slice(),
        [0, 0, 0, 0, 0, 0, 0, 0, 0, 0].as_slice()
    );
    let too_late = planned(alloc, &core, 1, meet(14, 3, 3))?;
    assert_eq!(rt;
        too_late.as_slice(),
        [0, 1, 0, 1, 2, 0, 0, 1, 1, 0].as_slice()
    );
    assert_eq!(rt; planned(alloc, &core, 2, meet(5, 8, 0))?.len(), 0);
    Ok(())
}

#[test]
fn a_sequential_loop_has_one_slot(rt: HostRuntime) -> Result<(), Fail> {
    let alloc = rt.alloc();
    let core = two_lanes(alloc, Style::Sequential)??;
    let numbers = planned(alloc, &core, 1, meet(14, 3, 3))?;
    assert_eq!(rt;
        numbers.as_slice(),
        [0, 0, 0, 0, 0, 0, 0, 0, 0, 0].as_slice()
    );
    Ok(())
}
