//! Parts of the cores that are tested.
use sp_core::{CoreCounter, CoreMem, Meet, Node, Op, OpKind, Stage};
use sp_words::{Kind, Ports, Ty};
use std::alloc::{AllocError, Global};

/// An operation on `Int`, without a mask.
pub fn op(alloc: Global, kind: OpKind, args: &[u32], mem: Option<u32>) -> Result<Op, AllocError> {
    Ok(Op {
        kind,
        ty: Ty::int(),
        args: args.to_vec(alloc)?,
        mem,
        mask: None,
    })
}

/// An inner body without a loop.
pub fn body(alloc: Global, ops: Vec<Op>) -> Node {
    Node::Inner {
        counters: Vec::new(alloc),
        owned: Vec::new(alloc),
        ops,
        comb: None,
    }
}

/// A stage of lane 0.
pub fn stage(node: Node) -> Stage {
    Stage {
        first: 0,
        last: 0,
        comb: false,
        node,
    }
}

/// A counter from 0 up to a number, in one lane.
pub fn counter(alloc: Global, id: u32, until: u64) -> Result<CoreCounter, AllocError> {
    Ok(CoreCounter {
        id,
        from: vec![in alloc; op(alloc, OpKind::Word(0), &[], None)?]?,
        until: vec![in alloc; op(alloc, OpKind::Word(until), &[], None)?]?,
        by: 1,
        par: 1,
    })
}

/// A memory of `Int` words that is written.
pub fn memory(alloc: Global, name: &str, kind: Kind, dims: &[u32]) -> Result<CoreMem, AllocError> {
    Ok(CoreMem {
        name: String::from_str(alloc, name)?,
        kind,
        ty: Ty::int(),
        dims: dims.to_vec(alloc)?,
        start: None,
        written: true,
    })
}

pub fn no_ports(alloc: Global) -> Ports {
    Ports {
        args: Vec::new(alloc),
        outs: Vec::new(alloc),
        drams: Vec::new(alloc),
    }
}

pub fn meet(first: u32, second: u32, least: u64) -> Meet {
    Meet {
        first,
        second,
        least,
    }
}
