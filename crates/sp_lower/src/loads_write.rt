//! The write of a load as an access of its memory.
ghost use Rattle.std.specs.Prelude.{◌≡◌, ◌<◌, true, ◌∷◌, [], ◌++◌, length, None, IfOk};
ghost use Rattle.sp_core.specs.declared.operation.OpKind.TheVariants.{Write};
ghost use Rattle.sp_core.specs.CoreParts.{plain_core};
ghost use Rattle.sp_core.specs.Declarations.{dims};
ghost use Rattle.sp_access_nets.specs.Accesses.{copy_in};

use sp_access_nets::AccessNets;
use sp_core::{Core, OpKind};
use sp_load_units::TransferUnit;
use sp_netlist::{NetId, NoMemory};
use sp_xfer::{Load, Loaded};

/// The dimensions of the memory of a number.
pub fn memory_dims(core: &Core, m: u32) -> &[u32]
    requires { m < length (plain_core core.now).mems }
    ensures { result.now ≡ dims (plain_core core.now) m }
{
    &core.mems()[m as usize].dims
}

/// Whether there is an index for each dimension of the memory.
pub(crate) fn has_each_index(core: &Core, m: u32, loaded: &Loaded) -> bool
    requires { m < length (plain_core core.now).mems }
    ensures { result ≡ true → length loaded.now.indices.items ≡ length (dims (plain_core core.now) m) }
{
    loaded.indices.len() == memory_dims(core, m).len()
}

/// The net of the number of the copy on which the operation of a number acts.
pub fn copy_net(names: &[Option<NetId>], number: u32) -> Option<NetId>
    ensures { result ≡ copy_in names.now number }
{
    match names.get(number as usize) {
        Some(net) => *net,
        None => None,
    }
}

/// The write of a load, of the word of its part.
pub(crate) fn write_of(
    unit: &TransferUnit,
    part: &Load,
    loaded: Loaded,
    names: &[Option<NetId>],
) -> Result<AccessNets, NoMemory>
    ensures number { IfOk result (λ a. a.number ≡ unit.now.transfer.number) }
    ensures mem { IfOk result (λ a. a.mem ≡ unit.now.transfer.mem) }
    ensures kind { IfOk result (λ a. a.kind ≡ Write) }
    ensures enable { IfOk result (λ a. a.enable ≡ loaded.write) }
    ensures operands { IfOk result (λ a. a.operands.items ≡ loaded.indices.items ++ part.now.port.word ∷ []) }
    ensures copy { IfOk result (λ a. a.copy ≡ copy_in names.now unit.now.transfer.number) }
    ensures answer { IfOk result (λ a. a.answer ≡ None) }
{
    let copy = copy_net(names, unit.transfer.number);
    let enable = loaded.write;
    let mut operands = loaded.indices;
    operands.push(part.port.word)?;
    Ok(AccessNets {
        number: unit.transfer.number,
        kind: OpKind::Write,
        mem: unit.transfer.mem,
        enable,
        operands,
        copy,
        answer: None,
    })
}
