use sp_core::{Core, CoreError, CoreMem, Node, Op, OpKind};
use sp_words::{BinOp, Kind, PortDecl, Ports, Ty};
use std::alloc::Global;
use std::test::Fail;

/// An operation on `Int`, without a mask.
fn op(
    alloc: Global,
    kind: OpKind,
    args: &[u32],
    mem: Option<u32>,
) -> Result<Op, std::alloc::AllocError> {
    Ok(Op {
        kind,
        ty: Ty::int(),
        args: args.to_vec(alloc)?,
        mem,
        mask: None,
    })
}

/// What `Core::new` answers to `y := 1 + WORD`, where the word is the operation of this place.
fn answer(alloc: Global, place: u32) -> Result<Result<Core, CoreError>, std::alloc::AllocError> {
    let ops = vec![in alloc;
        op(alloc, OpKind::Word(1), &[], None)?,
        op(alloc, OpKind::Two(BinOp::Add), &[0, place], None)?,
        op(alloc, OpKind::Write, &[1], Some(0))?,
    ]?;
    let root = Node::Inner {
        counters: Vec::new(alloc),
        owned: Vec::new(alloc),
        ops,
        comb: None,
    };
    let mems = vec![in alloc;
        CoreMem {
            name: String::from_str(alloc, "y")?,
            kind: Kind::ArgOut,
            ty: Ty::int(),
            dims: Vec::new(alloc),
            start: None,
            written: true,
        },
    ]?;
    let outs = vec![in alloc;
        PortDecl {
            name: String::from_str(alloc, "y")?,
            ty: Ty::int(),
            dims: Vec::new(alloc),
        },
    ]?;
    let ports = Ports {
        args: Vec::new(alloc),
        outs,
        drams: Vec::new(alloc),
    };
    Ok(Core::new(alloc, mems, ports, root))
}

#[test]
fn an_operation_takes_earlier_ones(rt: HostRuntime) -> Result<(), Fail> {
    let core = answer(rt.alloc(), 0)??;
    assert_eq!(rt; core.mems().len(), 1);
    assert_eq!(rt; core.ports().outs.len(), 1);
    match core.root() {
        Node::Inner { ops, .. } => assert_eq!(rt; ops.len(), 3),
        _ => assert!(rt; false),
    }
    Ok(())
}

#[test]
fn a_later_operation_is_none(rt: HostRuntime) -> Result<(), Fail> {
    match answer(rt.alloc(), 5)? {
        Err(CoreError::Shape { node }) => assert_eq!(rt; node, 0),
        _ => assert!(rt; false),
    }
    Ok(())
}
