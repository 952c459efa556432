//! The size of a FIFO.
ghost use Rattle.std.specs.Prelude.{◌≡◌, ◌<◌, length};
ghost use Rattle.sp_words.specs.declared.kind.Kind.TheVariants.{Fifo};
ghost use Rattle.sp_netlist.specs.Rules.{IsLength};
ghost use Rattle.sp_core.specs.CoreParts.{plain_core};
ghost use Rattle.sp_core.specs.Declarations.{kind_of, depth};

use crate::scalar_scalars::memory;
use sp_core::Core;

/// How many words a FIFO holds: its one dimension.
pub(crate) fn depth_of(core: &Core, m: u32) -> u32
    requires within { m < length (plain_core core.now).mems }
    requires fifo { kind_of (plain_core core.now) m ≡ Fifo }
    ensures depth { result ≡ depth (plain_core core.now) m }
    ensures length { IsLength result }
{
    memory(core, m).dims[0]
}
