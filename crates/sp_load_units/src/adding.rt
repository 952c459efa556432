//! What the unit of one transfer needs.
ghost use Rattle.std.specs.Prelude.{◌≡◌, ◌<◌, ◌≤◌, length, IfOk, OnOk};
ghost use Rattle.sp_words.specs.Types.{width_of};
ghost use Rattle.sp_gates.specs.Grows.{Opens};
ghost use Rattle.sp_gates.specs.Nets.{HasNet, Awaits};
ghost use Rattle.sp_core.specs.CoreParts.{plain_core};
ghost use Rattle.sp_core.specs.Declarations.{dram};

use sp_core::Core;
use sp_netlist::{Builder, NetId, NoMemory};

/// How many bits the words of a DRAM have.
pub(crate) fn word_width(core: &Core, r: u32) -> u8
    requires { r < length (plain_core core.now).ports.drams }
    ensures value { result ≡ width_of (dram (plain_core core.now) r).ty }
    ensures has_bits { 1 ≤ result }
    ensures in_a_word { result ≤ 64 }
{
    core.ports().drams[r as usize].ty.width()
}

/// A net by which a transfer is to be done.
pub(crate) fn await_end(builder: &mut Builder) -> Result<NetId, NoMemory>
    ensures same_cells { OnOk result (builder.new.cells ≡ builder.old.cells) }
    ensures opens { IfOk result (λ net. Opens builder.old builder.new net) }
    ensures net { IfOk result (λ net. HasNet builder.new net 1) }
    ensures awaits { IfOk result (λ net. Awaits builder.new net 1) }
{
    builder.promise(1, true)
}
