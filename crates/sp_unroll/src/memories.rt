//! The memories of a core whose lanes stand one after the other.

ghost use Rattle.std.specs.Prelude.{◌≡◌, map, slice_index_or, IfOk};
ghost use Rattle.sp_core.specs.CoreParts.{plain_core};
ghost use Rattle.sp_core.specs.Plain.{plain_mem};
ghost use Rattle.sp_core.specs.PlainCore.{no_mem};
ghost use Rattle.sp_lanes.specs.Unrolled.{unrolled};

use crate::NoMemory;
use crate::order::memory_order;
use sp_core::{Core, CoreMem};
use sp_words::{Kind, Ty};
use std::alloc::Global;

fn copied_mem(alloc: Global, mem: &CoreMem) -> Result<CoreMem, NoMemory>
    ensures { IfOk result (λ made. plain_mem made ≡ plain_mem mem.now) }
{
    Ok(CoreMem {
        name: String::from_str(alloc, &mem.name)?,
        kind: mem.kind,
        ty: mem.ty,
        dims: Vec::from_slice(alloc, &mem.dims)?,
        start: mem.start,
        written: mem.written,
    })
}

/// A memory that has no declaration.
fn no_mem(alloc: Global) -> CoreMem
    ensures { plain_mem result ≡ no_mem }
{
    CoreMem {
        name: String::new(alloc),
        kind: Kind::Reg,
        ty: Ty::Bit,
        dims: Vec::new(alloc),
        start: None,
        written: false,
    }
}

/// A copy of the memory of a number.
fn mem_at(alloc: Global, mems: &[CoreMem], m: u32) -> Result<CoreMem, NoMemory>
    ensures { IfOk result (λ made. plain_mem made ≡ slice_index_or (map plain_mem mems.now) m no_mem) }
{
    match mems.get(m as usize) {
        Some(mem) => {
            let made = copied_mem(alloc, mem)?;
            Ok(made)
        }
        None => Ok(no_mem(alloc)),
    }
}

/// Copies of the memories of these numbers.
pub(crate) fn mems_at(
    alloc: Global,
    mems: &[CoreMem],
    order: &[u32],
) -> Result<Vec<CoreMem>, NoMemory>
    ensures { IfOk result (λ made. map plain_mem made.items ≡ map (λ m. slice_index_or (map plain_mem mems.now) m no_mem) order.now) }
{
    let mut made = Vec::new(alloc);
    for m in order {
        made.push(mem_at(alloc, mems, *m)?)?;
    }
    Ok(made)
}

/// The memories of a core whose lanes stand one after the other, by number: those of its text in the order of the text,
/// and then those that were added, where the memories of a body of several lanes stand once for each lane.
pub fn memories_in_lanes(alloc: Global, core: &Core) -> Result<Vec<CoreMem>, NoMemory>
    ensures lanes { IfOk result (λ mems. map plain_mem mems.items ≡ (unrolled (plain_core core.now)).mems) }
{
    let all = core.mems();
    let order = memory_order(alloc, all, core.root())?;
    let mems = mems_at(alloc, all, &order)?;
    Ok(mems)
}
