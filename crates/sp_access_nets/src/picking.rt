//! The accesses to a memory.
ghost use Rattle.std.specs.Prelude.{◌≡◌, IfOk};
ghost use Rattle.std.specs.List.{filter};
ghost use Rattle.sp_access_nets.specs.Picking.{is_same_access, is_to, lent};

use crate::access::AccessNets;
use sp_core::OpKind;
use sp_netlist::NoMemory;
use std::alloc::Global;

fn is_same_access(kind: OpKind, other: OpKind) -> bool
    ensures { result ≡ is_same_access kind other }
{
    match kind {
        OpKind::Read => matches!(other, OpKind::Read),
        OpKind::Write => matches!(other, OpKind::Write),
        OpKind::Enq => matches!(other, OpKind::Enq),
        OpKind::Deq => matches!(other, OpKind::Deq),
        OpKind::Reset => matches!(other, OpKind::Reset),
        _ => false,
    }
}

/// Whether an access is one of this kind to this memory.
pub fn is_to(access: &AccessNets, mem: u32, kind: OpKind) -> bool
    ensures { result ≡ is_to mem kind access.now }
{
    access.mem == mem && is_same_access(kind, access.kind)
}

/// The accesses of one kind to a memory, in order.
pub fn accesses_to(
    alloc: Global,
    accesses: &[AccessNets],
    mem: u32,
    kind: OpKind,
) -> Result<Vec<&AccessNets>, NoMemory>
    ensures { IfOk result (λ picked. lent picked.items ≡ filter (is_to mem kind) accesses.now) }
{
    accesses
        .iter()
        .filter(|access| is_to(access, mem, kind))
        .collect(alloc)
}
