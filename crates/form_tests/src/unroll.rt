use sp_core::{Core, CoreCounter, CoreError, CoreMem, Node, Op, OpKind, Stage};
use sp_unroll::{in_lanes, memories_in_lanes, unroll};
use sp_words::{BinOp, Kind, Ports, Style, Ty};
use std::alloc::{AllocError, Global};
use std::test::Fail;

/// An operation on `Int`, without a mask.
fn op(alloc: Global, kind: OpKind, args: &[u32], mem: Option<u32>) -> Result<Op, AllocError> {
    Ok(Op {
        kind,
        ty: Ty::int(),
        args: args.to_vec(alloc)?,
        mem,
        mask: None,
    })
}

fn register(alloc: Global, name: &str) -> Result<CoreMem, AllocError> {
    Ok(CoreMem {
        name: String::from_str(alloc, name)?,
        kind: Kind::Reg,
        ty: Ty::int(),
        dims: Vec::new(alloc),
        start: None,
        written: true,
    })
}

/// An accumulator takes its word and the counter's by an operator, in two lanes. The loop owns a register of its own.
fn accumulated(alloc: Global, operator: BinOp) -> Result<Result<Core, CoreError>, AllocError> {
    let counter = CoreCounter {
        id: 0,
        from: vec![in alloc; op(alloc, OpKind::Word(0), &[], None)?]?,
        until: vec![in alloc; op(alloc, OpKind::Word(4), &[], None)?]?,
        by: 1,
        par: 2,
    };
    let ops = vec![in alloc;
        op(alloc, OpKind::Count(0, 0), &[], None)?,
        op(alloc, OpKind::Read, &[], Some(0))?,
        op(alloc, OpKind::Two(operator), &[1, 0], None)?,
        op(alloc, OpKind::Write, &[2], Some(0))?,
    ]?;
    let body = Node::Inner {
        counters: vec![in alloc; counter]?,
        owned: vec![in alloc; 1]?,
        ops,
        comb: Some(1),
    };
    let root = Node::Outer {
        counters: Vec::new(alloc),
        style: Style::Pipe,
        owned: vec![in alloc; 0]?,
        stages: vec![in alloc;
            Stage {
                first: 0,
                last: 0,
                comb: false,
                node: body,
            },
        ]?,
    };
    let mems = vec![in alloc; register(alloc, "acc")?, register(alloc, "own")?]?;
    let ports = Ports {
        args: Vec::new(alloc),
        outs: Vec::new(alloc),
        drams: Vec::new(alloc),
    };
    Ok(Core::new(alloc, mems, ports, root))
}

/// The operations of the first stage, each with the places of its operands.
fn shown(alloc: Global, core: &Core) -> Result<String, AllocError> {
    let mut text = String::new(alloc);
    if let Node::Outer { stages, .. } = core.root() {
        if let Some(stage) = stages.first() {
            if let Node::Inner { ops, .. } = &stage.node {
                for op in ops {
                    text.push_str(&format!(in alloc; "{:?}{:?} ", op.kind, op.args)?)?;
                }
            }
        }
    }
    Ok(text)
}

fn names(alloc: Global, mems: &[CoreMem]) -> Result<String, AllocError> {
    let mut text = String::new(alloc);
    for mem in mems {
        text.push_str(&format!(in alloc; "{} ", mem.name)?)?;
    }
    Ok(text)
}

#[test]
fn words_are_joined_or_meet_in_order(rt: HostRuntime) -> Result<(), Fail> {
    let alloc = rt.alloc();
    let sum = unroll(alloc, &accumulated(alloc, BinOp::Add)??)?;
    assert_eq!(rt;
        shown(alloc, &sum)?.as_str(),
        "Live(0, 0, 0)[] Count(0, 0)[] Live(0, 1, 1)[] Count(0, 1)[] Two(Add)[1, 3] Mux[2, 4, 1] Read[] Two(Add)[6, 5] Write[7] "
    );
    let difference = unroll(alloc, &accumulated(alloc, BinOp::Sub)??)?;
    assert_eq!(rt;
        shown(alloc, &difference)?.as_str(),
        "Live(0, 0, 0)[] Count(0, 0)[] Live(0, 1, 1)[] Count(0, 1)[] Read[] Two(Sub)[4, 1] Mux[0, 5, 4] Two(Sub)[6, 3] Mux[2, 7, 6] Write[8] "
    );
    Ok(())
}

#[test]
fn each_lane_has_memories_of_its_own(rt: HostRuntime) -> Result<(), Fail> {
    let alloc = rt.alloc();
    let core = accumulated(alloc, BinOp::Add)??;
    let mems = memories_in_lanes(alloc, &core)?;
    assert_eq!(rt; names(alloc, &mems)?.as_str(), "acc own own ");
    let laned = in_lanes(alloc, &core)?;
    assert_eq!(rt; names(alloc, &laned.mems)?.as_str(), "acc own own ");
    Ok(())
}
