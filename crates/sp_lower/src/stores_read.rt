//! The read of a store as an access of its memory.
ghost use Rattle.std.specs.Prelude.{◌≡◌, ◌<◌, true, length, Some};
ghost use Rattle.sp_core.specs.declared.operation.OpKind.TheVariants.{Read};
ghost use Rattle.sp_core.specs.CoreParts.{plain_core};
ghost use Rattle.sp_core.specs.Declarations.{dims};
ghost use Rattle.sp_access_nets.specs.Accesses.{copy_in};
ghost use Rattle.sp_lower.specs.StoresParts.{two_later};

use crate::loads_write::{copy_net, memory_dims};
use sp_access_nets::AccessNets;
use sp_circuit_ops::WordNet;
use sp_core::{Core, OpKind};
use sp_load_units::TransferUnit;
use sp_netlist::NetId;
use sp_xfer::Stored;

/// Whether there is an index for each dimension of the memory.
pub(crate) fn has_each_index(core: &Core, m: u32, stored: &Stored) -> bool
    requires { m < length (plain_core core.now).mems }
    ensures { result ≡ true → length stored.now.indices.items ≡ length (dims (plain_core core.now) m) }
{
    stored.indices.len() == memory_dims(core, m).len()
}

/// The read of a store, which is answered on a net two cycles later.
pub(crate) fn read_of(
    unit: &TransferUnit,
    stored: Stored,
    found: NetId,
    names: &[Option<NetId>],
) -> AccessNets
    ensures number { result.number ≡ unit.now.transfer.number }
    ensures mem { result.mem ≡ unit.now.transfer.mem }
    ensures kind { result.kind ≡ Read }
    ensures enable { result.enable ≡ stored.read }
    ensures operands { result.operands.items ≡ stored.indices.items }
    ensures copy { result.copy ≡ copy_in names.now unit.now.transfer.number }
    ensures answer { result.answer ≡ Some (two_later found) }
{
    let copy = copy_net(names, unit.transfer.number);
    let enable = stored.read;
    let answer = WordNet {
        net: found,
        after: 2,
    };
    AccessNets {
        number: unit.transfer.number,
        kind: OpKind::Read,
        mem: unit.transfer.mem,
        enable,
        operands: stored.indices,
        copy,
        answer: Some(answer),
    }
}
