//! A line buffer of three rows, into which each cycle puts a row.
ghost use Rattle.std.specs.Prelude.{◌≡◌, ◌≢◌, ◌∷◌, [], count_by, IfOk, OnOk};
ghost use Rattle.sp_netlist.specs.Rules.{is_bank};
ghost use Rattle.sp_netlist.specs.Draft.{IsDraft};
ghost use Rattle.sp_gates.specs.Grows.{Builds, Fills};
ghost use Rattle.sp_gates.specs.Nets.{Awaits, HasNet};
ghost use Rattle.sp_worked_parts.specs.Rows.{InputFits, IsLines, IsTurn};

use crate::count::{cycle, plus};
use crate::outputs::{output, second_output};
use crate::touches::{index, indices, one_touch, two_touches};
use sp_gates::{constant, equals, one};
use sp_lines::{Lines, emit_lines};
use sp_mem::Fresh;
use sp_netlist::{Builder, Cell, NetId, Netlist, NoMemory};
use sp_places::Layout;
use sp_taps::add_stores;
use sp_words::Ty;
use std::alloc::Global;

/// In each cycle 10 and its number is loaded at column 1, and then rows turn; the two oldest rows are read there.
#[derive(Clone, Copy)]
struct RowInput {
    always: NetId,
    word: NetId,
    zero: NetId,
    one: NetId,
    done: NetId,
}

fn ask(builder: &mut Builder, last: u32) -> Result<RowInput, NoMemory>
    ensures fills { OnOk result (Fills builder.old builder.new []) }
    ensures fits { IfOk result (InputFits builder.new) }
{
    let always = one(builder)?;
    let count = cycle(builder, always)?;
    let word = plus(builder, count, 10)?;
    let zero = constant(builder, 32, 0)?;
    let first = constant(builder, 32, 1)?;
    let done = equals(builder, Ty::int(), count, u64::from(last))?;
    Ok(RowInput {
        always,
        word,
        zero,
        one: first,
        done,
    })
}

/// Two columns in two banks.
fn layout(alloc: Global) -> Result<Layout, NoMemory>
    ensures dims { IfOk result (λ l. l.dims.items ≡ 2 ∷ []) }
    ensures alpha { IfOk result (λ l. l.alpha.items ≡ 1 ∷ []) }
    ensures banks { IfOk result (λ l. l.banks ≡ 2) }
    ensures block { IfOk result (λ l. l.block ≡ 1) }
    ensures hinge { IfOk result (λ l. l.hinge ≡ 0) }
{
    let mut dims = Vec::new(alloc);
    dims.push(2)?;
    let mut alpha = Vec::new(alloc);
    alpha.push(1)?;
    Ok(Layout {
        dims,
        banks: 2,
        block: 1,
        alpha,
        hinge: 0,
    })
}

fn turns(alloc: Global, enable: NetId) -> Result<Vec<Fresh>, NoMemory>
    ensures { IfOk result (λ list. IsTurn enable list.items) }
{
    let mut list = Vec::new(alloc);
    list.push(Fresh { enable, copy: None })?;
    Ok(list)
}

fn lines(alloc: Global, input: &RowInput, y: NetId, z: NetId) -> Result<Lines, NoMemory>
    ensures { IfOk result (IsLines input.now y z) }
{
    let layout = layout(alloc)?;
    let turns = turns(alloc, input.always)?;
    let column = index(alloc, input.one)?;
    let oldest = indices(alloc, input.zero, input.one)?;
    let second = indices(alloc, input.one, input.one)?;
    let loads = one_touch(alloc, input.always, column, input.word)?;
    let reads = two_touches(alloc, input.always, oldest, y, second, z)?;
    Ok(Lines {
        start: input.always,
        bank: 0,
        ty: Ty::int(),
        rows: 3,
        layout,
        copies: 1,
        duplicates: 2,
        turns,
        loads,
        reads,
    })
}

/// The line buffer with what asks it, behind its outputs.
fn emit(
    alloc: Global,
    builder: &mut Builder,
    y: NetId,
    z: NetId,
    last: u32,
) -> Result<NetId, NoMemory>
    requires draft { IsDraft builder.old }
    requires banks { count_by is_bank builder.old.cells ≡ 0 }
    requires y { Awaits builder.old y 32 }
    requires z { Awaits builder.old z 32 }
    requires apart { y ≢ z }
    ensures fills { OnOk result (Builds builder.old builder.new (y ∷ z ∷ [])) }
    ensures done { IfOk result (λ done. HasNet builder.new done 1) }
{
    let stores = add_stores(alloc, builder, 0, 12, 32, 1)?;
    let asked = ask(builder, last)?;
    let part = lines(alloc, &asked, y, z)?;
    emit_lines(alloc, builder, &part, &stores)?;
    Ok(asked.done)
}

/// The line buffer as a netlist that is done in a cycle, with the words of the two oldest rows as its outputs `y` and `z`.
pub fn worked_rows(alloc: Global, last: u32) -> Result<Netlist, NoMemory> {
    let mut builder = Builder::new(alloc);
    let y = output(alloc, &mut builder)?;
    let z = second_output(alloc, &mut builder)?;
    let done = emit(alloc, &mut builder, y, z, last)?;
    builder.add(Cell::Done(done))?;
    builder.finish(alloc)
}
