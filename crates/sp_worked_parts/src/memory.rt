//! A memory of four elements in two banks, with a reader in each of two duplicates.
ghost use Rattle.std.specs.Prelude.{◌≡◌, ◌≢◌, ◌∷◌, [], count_by, IfOk, OnOk};
ghost use Rattle.sp_netlist.specs.Rules.{is_bank};
ghost use Rattle.sp_netlist.specs.Draft.{IsDraft};
ghost use Rattle.sp_gates.specs.Grows.{Builds, Fills};
ghost use Rattle.sp_gates.specs.Nets.{Awaits, HasNet};
ghost use Rattle.sp_worked_parts.specs.Memory.{AskedFits, IsMemory};

use crate::count::{below, cycle, minus, plus, without};
use crate::outputs::{output, second_output};
use crate::touches::{index, one_touch, two_touches};
use sp_banked::{Banked, emit_banked};
use sp_gates::{equals, on_not, one};
use sp_netlist::{Builder, Cell, NetId, Netlist, NoMemory};
use sp_places::Layout;
use sp_taps::add_stores;
use sp_words::Ty;
use std::alloc::Global;

/// What is asked of the memory: element c is written with 10 + c in cycle c, up to cycle 3; after that one reader goes up from
/// element 0, and one down from element 3.
#[derive(Clone, Copy)]
struct Asked {
    write: NetId,
    element: NetId,
    word: NetId,
    read: NetId,
    up: NetId,
    down: NetId,
    done: NetId,
}

fn ask(builder: &mut Builder, last: u32) -> Result<Asked, NoMemory>
    ensures fills { OnOk result (Fills builder.old builder.new []) }
    ensures asked { IfOk result (AskedFits builder.new) }
{
    let always = one(builder)?;
    let element = cycle(builder, always)?;
    let write = below(builder, element, 4)?;
    let word = plus(builder, element, 10)?;
    let read = on_not(builder, write)?;
    let up = minus(builder, element, 4)?;
    let down = without(builder, 7, element)?;
    let done = equals(builder, Ty::int(), element, u64::from(last))?;
    Ok(Asked {
        write,
        element,
        word,
        read,
        up,
        down,
        done,
    })
}

/// Four elements in two banks.
pub(crate) fn layout(alloc: Global) -> Result<Layout, NoMemory>
    ensures dims { IfOk result (λ l. l.dims.items ≡ 4 ∷ []) }
    ensures alpha { IfOk result (λ l. l.alpha.items ≡ 1 ∷ []) }
    ensures banks { IfOk result (λ l. l.banks ≡ 2) }
    ensures block { IfOk result (λ l. l.block ≡ 1) }
    ensures hinge { IfOk result (λ l. l.hinge ≡ 0) }
{
    let mut dims = Vec::new(alloc);
    dims.push(4)?;
    let mut alpha = Vec::new(alloc);
    alpha.push(1)?;
    Ok(Layout {
        dims,
        banks: 2,
        block: 1,
        alpha,
        hinge: 0,
    })
}

fn memory(alloc: Global, asked: &Asked, y: NetId, z: NetId) -> Result<Banked, NoMemory>
    ensures { IfOk result (IsMemory asked.now y z) }
{
    let layout = layout(alloc)?;
    let element = index(alloc, asked.element)?;
    let up = index(alloc, asked.up)?;
    let down = index(alloc, asked.down)?;
    let writes = one_touch(alloc, asked.write, element, asked.word)?;
    let reads = two_touches(alloc, asked.read, up, y, down, z)?;
    Ok(Banked {
        start: asked.write,
        bank: 0,
        ty: Ty::int(),
        layout,
        copies: 1,
        duplicates: 2,
        writes,
        reads,
    })
}

/// The memory with what asks it, behind its outputs.
fn emit(
    alloc: Global,
    builder: &mut Builder,
    y: NetId,
    z: NetId,
    last: u32,
) -> Result<NetId, NoMemory>
    requires draft { IsDraft builder.old }
    requires banks { count_by is_bank builder.old.cells ≡ 0 }
    requires y { Awaits builder.old y 32 }
    requires z { Awaits builder.old z 32 }
    requires apart { y ≢ z }
    ensures fills { OnOk result (Builds builder.old builder.new (y ∷ z ∷ [])) }
    ensures done { IfOk result (λ done. HasNet builder.new done 1) }
{
    let stores = add_stores(alloc, builder, 0, 4, 32, 2)?;
    let asked = ask(builder, last)?;
    let part = memory(alloc, &asked, y, z)?;
    emit_banked(alloc, builder, &part, &stores)?;
    Ok(asked.done)
}

/// The memory as a netlist that is done in a cycle, with the words of both readers as its outputs `y` and `z`.
pub fn worked_memory(alloc: Global, last: u32) -> Result<Netlist, NoMemory> {
    let mut builder = Builder::new(alloc);
    let y = output(alloc, &mut builder)?;
    let z = second_output(alloc, &mut builder)?;
    let done = emit(alloc, &mut builder, y, z, last)?;
    builder.add(Cell::Done(done))?;
    builder.finish(alloc)
}
