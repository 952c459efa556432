//! A queue of one copy, into which three words are put, and from which they are taken.
ghost use Rattle.std.specs.Prelude.{◌≡◌, ◌∷◌, [], count_by, IfOk, OnOk};
ghost use Rattle.sp_netlist.specs.Rules.{is_bank};
ghost use Rattle.sp_netlist.specs.Draft.{IsDraft};
ghost use Rattle.sp_gates.specs.Grows.{Builds, Fills};
ghost use Rattle.sp_gates.specs.Nets.{Awaits, HasNet};
ghost use Rattle.sp_worked_parts.specs.Queue.{AskedFits, IsQueue};

use crate::count::{below, cycle, plus};
use crate::outputs::output;
use crate::touches::one_touch;
use sp_gates::{equals, on_not, one};
use sp_netlist::{Builder, Cell, NetId, Netlist, NoMemory};
use sp_queue::{Queue, emit_queue};
use sp_taps::add_stores;
use sp_words::Ty;
use std::alloc::Global;

/// What is asked of the queue: a word is put in the cycles 0, 1 and 2, which is 10 and the number of the cycle, and one is taken
/// in each cycle from 2 on.
#[derive(Clone, Copy)]
struct Asked {
    put: NetId,
    word: NetId,
    take: NetId,
    done: NetId,
}

fn ask(builder: &mut Builder, last: u32) -> Result<Asked, NoMemory>
    ensures fills { OnOk result (Fills builder.old builder.new []) }
    ensures asked { IfOk result (AskedFits builder.new) }
{
    let always = one(builder)?;
    let count = cycle(builder, always)?;
    let put = below(builder, count, 3)?;
    let word = plus(builder, count, 10)?;
    let early = below(builder, count, 2)?;
    let take = on_not(builder, early)?;
    let done = equals(builder, Ty::int(), count, u64::from(last))?;
    Ok(Asked {
        put,
        word,
        take,
        done,
    })
}

fn queue(alloc: Global, asked: &Asked, y: NetId) -> Result<Queue, NoMemory>
    ensures { IfOk result (IsQueue asked.now y) }
{
    let put_index = Vec::new(alloc);
    let take_index = Vec::new(alloc);
    let fresh = Vec::new(alloc);
    let puts = one_touch(alloc, asked.put, put_index, asked.word)?;
    let takes = one_touch(alloc, asked.take, take_index, y)?;
    Ok(Queue {
        start: asked.put,
        bank: 0,
        ty: Ty::int(),
        depth: 4,
        copies: 1,
        fresh,
        puts,
        takes,
    })
}

/// The queue with what asks it, behind its output.
fn emit(alloc: Global, builder: &mut Builder, y: NetId, last: u32) -> Result<NetId, NoMemory>
    requires draft { IsDraft builder.old }
    requires banks { count_by is_bank builder.old.cells ≡ 0 }
    requires y { Awaits builder.old y 32 }
    ensures fills { OnOk result (Builds builder.old builder.new (y ∷ [])) }
    ensures done { IfOk result (λ done. HasNet builder.new done 1) }
{
    let stores = add_stores(alloc, builder, 0, 1, 32, 4)?;
    let asked = ask(builder, last)?;
    let part = queue(alloc, &asked, y)?;
    emit_queue(alloc, builder, &part, &stores)?;
    Ok(asked.done)
}

/// The queue as a netlist that is done in a cycle, with the word that was taken as its output `y`.
pub fn worked_queue(alloc: Global, last: u32) -> Result<Netlist, NoMemory> {
    let mut builder = Builder::new(alloc);
    let y = output(alloc, &mut builder)?;
    let done = emit(alloc, &mut builder, y, last)?;
    builder.add(Cell::Done(done))?;
    builder.finish(alloc)
}
