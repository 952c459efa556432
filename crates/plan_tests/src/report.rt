use crate::cores::{body, counter, memory, op, stage};
use smallvec::SmallVec;
use sp_bank::Scheme;
use sp_core::{Core, CoreError, CoreSpan, Node, Op, OpKind};
use sp_plan::{MemPlan, NodePlan, Plan};
use sp_report::report;
use sp_words::{BinOp, Kind, PortDecl, Ports, Style, Ty};
use std::alloc::{AllocError, Global};
use std::test::Fail;

fn word(alloc: Global, word: u64) -> Result<Op, AllocError> {
    op(alloc, OpKind::Word(word), &[], None)
}

/// A body without a loop that writes 1 to memory 0.
fn writes_one(alloc: Global) -> Result<Node, AllocError> {
    let ops = vec![in alloc; word(alloc, 1)?, op(alloc, OpKind::Write, &[0], Some(0))?]?;
    Ok(body(alloc, ops))
}

/// A machine that counts its state, memory 3, down from 2.
fn counts_down(alloc: Global) -> Result<Node, AllocError> {
    Ok(Node::Fsm {
        start: vec![in alloc; word(alloc, 2)?]?,
        state: 3,
        test: vec![in alloc;
            op(alloc, OpKind::Read, &[], Some(3))?,
            word(alloc, 0)?,
            op(alloc, OpKind::Two(BinOp::Gt), &[0, 1], None)?,
        ]?,
        body: Box::new(alloc, writes_one(alloc)?)?,
        next: vec![in alloc;
            op(alloc, OpKind::Read, &[], Some(3))?,
            word(alloc, 1)?,
            op(alloc, OpKind::Two(BinOp::Sub), &[0, 1], None)?,
        ]?,
    })
}

/// A loop of two stages, a slice of a DRAM into s, and the machine.
fn loop_load_machine(alloc: Global) -> Result<Result<Core, CoreError>, AllocError> {
    let inside = Node::Outer {
        counters: vec![in alloc; counter(alloc, 0, 4)?]?,
        style: Style::Pipe,
        owned: Vec::new(alloc),
        stages: vec![in alloc; stage(writes_one(alloc)?), stage(writes_one(alloc)?)]?,
    };
    let slice = Node::Load {
        dram: 0,
        mem: 1,
        span: vec![in alloc;
            CoreSpan::Range(
                vec![in alloc; word(alloc, 0)?]?,
                vec![in alloc; word(alloc, 8)?]?
            ),
        ]?,
    };
    let root = Node::Outer {
        counters: Vec::new(alloc),
        style: Style::Pipe,
        owned: vec![in alloc; 0, 1, 2, 4]?,
        stages: vec![in alloc; stage(inside), stage(slice), stage(counts_down(alloc)?)]?,
    };
    let mut state = memory(alloc, "state", Kind::Reg, &[])?;
    state.written = false;
    let mems = vec![in alloc;
        memory(alloc, "r", Kind::Reg, &[])?,
        memory(alloc, "s", Kind::Sram, &[8])?,
        memory(alloc, "f", Kind::Fifo, &[4])?,
        state,
        memory(alloc, "t", Kind::Sram, &[8])?,
    ]?;
    let dram = PortDecl {
        name: String::from_str(alloc, "a")?,
        ty: Ty::int(),
        dims: vec![in alloc; 8]?,
    };
    let ports = Ports {
        args: Vec::new(alloc),
        outs: Vec::new(alloc),
        drams: vec![in alloc; dram]?,
    };
    Ok(Core::new(alloc, mems, ports, root))
}

fn mem_plan(scheme: Option<Scheme>, depth: u32) -> MemPlan {
    MemPlan {
        scheme,
        depth,
        duplicates: 1,
    }
}

fn body_plan(alloc: Global, ii: u32, latency: u32, serial: bool) -> Result<NodePlan, AllocError> {
    Ok(NodePlan::Inner {
        times: vec![in alloc; 0, 0]?,
        ii,
        latency,
        serial,
    })
}

fn outer_plan(alloc: Global, slots: &[u32]) -> Result<NodePlan, AllocError> {
    Ok(NodePlan::Outer {
        slots: slots.to_vec(alloc)?,
        chains: slots.to_vec(alloc)?,
    })
}

#[test]
fn each_memory_and_each_node_has_its_line(rt: HostRuntime) -> Result<(), Fail> {
    let alloc = rt.alloc();
    let core = loop_load_machine(alloc)??;
    let scheme = Scheme::new(4, 1, SmallVec::from_slice(alloc, &[1])?, 0);
    let plan = Plan {
        mems: vec![in alloc;
            mem_plan(None, 1),
            mem_plan(scheme, 3),
            mem_plan(None, 2),
            mem_plan(None, 1),
            mem_plan(None, 1),
        ]?,
        nodes: vec![in alloc;
            outer_plan(alloc, &[0, 1, 2])?,
            outer_plan(alloc, &[0, 1])?,
            body_plan(alloc, 3, 5, false)?,
            body_plan(alloc, 4, 4, true)?,
            NodePlan::Other,
            NodePlan::Other,
            body_plan(alloc, 1, 1, false)?,
        ]?,
    };
    let text = report(alloc, &core, &plan)?;
    assert_eq!(rt;
        text.as_str(),
        "mem 0 r depth 1\nmem 1 s banks 4 block 1 alpha 1 hinge 0 depth 3 duplicates 1\nmem 2 f depth 2\nmem 3 t serial depth 1 duplicates 1\nctl 0 outer slots 0 1 2\nctl 1 outer slots 0 1\nctl 2 inner ii 3 latency 5\nctl 3 inner serial latency 4\nctl 4 load\nctl 5 fsm\nctl 6 inner ii 1 latency 1\n"
    );
    Ok(())
}
