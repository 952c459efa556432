//! The copies of a register.
ghost use Rattle.std.specs.Prelude.{◌≡◌, ℕ, ◌+◌, ◌<◌, ◌≤◌, ◌^◌, [], ◌∷◌, length, slice_index, All, IfOk, OnOk};
ghost use Rattle.sp_words.specs.Types.{width_of};
ghost use Rattle.sp_netlist.specs.Rules.{IsWidth};
ghost use Rattle.sp_netlist.specs.Signals.{Signals};
ghost use Rattle.sp_gates.specs.Bits.{IsOne};
ghost use Rattle.sp_gates.specs.Grows.{Fills};
ghost use Rattle.sp_gates.specs.Nets.{HasNet};
ghost use Rattle.sp_gates.specs.Runs.{RunsOn};
ghost use Rattle.sp_gates.specs.Tested.{is_on};
ghost use Rattle.sp_mem.specs.Copies.{is_at, freshened, written, first_word};
ghost use Rattle.sp_mem.specs.Fits.{CopyFits, FreshFits, WriteFits, RegisterFits};
ghost use Rattle.sp_mem.specs.Runs.{RunsCopy};

use crate::part::{Fresh, Register, Touch};
use sp_gates::{choose, constant, drive, equals, on_both, reserve};
use sp_netlist::{Builder, NetId, NoMemory};
use sp_words::Ty;
use std::alloc::Global;

/// A net that is 1 where something is done to the copy of this number.
pub(crate) fn done_to(
    builder: &mut Builder,
    enable: NetId,
    copy: Option<NetId>,
    number: u32,
) -> Result<NetId, NoMemory>
    requires enable { HasNet builder.old enable 1 }
    requires copy { CopyFits builder.old copy }
    ensures fills { OnOk result (Fills builder.old builder.new []) }
    ensures net { IfOk result (λ net. HasNet builder.new net 1) }
    ensures on { IfOk result (λ net. (s : Signals) → RunsOn s builder.new.cells → (t : ℕ) → is_on s net t ≡ is_at s t enable copy number) }
{
    match copy {
        None => {
            let same = constant(builder, 1, u64::from(number == 0))?;
            let net = on_both(builder, enable, same)?;
            Ok(net)
        }
        Some(copy) => {
            let same = equals(builder, Ty::int(), copy, u64::from(number))?;
            let net = on_both(builder, enable, same)?;
            Ok(net)
        }
    }
}

/// The word of a copy, where it is made fresh or not.
fn made_fresh(
    builder: &mut Builder,
    fresh: &[Fresh],
    number: u32,
    width: u8,
    first: NetId,
    old: NetId,
) -> Result<NetId, NoMemory>
    requires width { IsWidth width }
    requires fresh { All (FreshFits builder.old) fresh.now }
    requires first { HasNet builder.old first width }
    requires old { HasNet builder.old old width }
    ensures fills { OnOk result (Fills builder.old builder.new []) }
    ensures net { IfOk result (λ net. HasNet builder.new net width) }
    ensures word { IfOk result (λ net. (s : Signals) → RunsOn s builder.new.cells → (t : ℕ) → s.net t net ≡ freshened s t number (s.net t first) fresh.now (s.net t old)) }
{
    let mut net = old;
    for f in fresh {
        let on = done_to(builder, f.enable, f.copy, number)?;
        net = choose(builder, width, on, first, net)?;
    }
    Ok(net)
}

/// The word of a copy after the writes.
fn after_writes(
    builder: &mut Builder,
    writes: &[Touch],
    number: u32,
    width: u8,
    old: NetId,
) -> Result<NetId, NoMemory>
    requires width { IsWidth width }
    requires writes { All (WriteFits builder.old width) writes.now }
    requires old { HasNet builder.old old width }
    ensures fills { OnOk result (Fills builder.old builder.new []) }
    ensures net { IfOk result (λ net. HasNet builder.new net width) }
    ensures word { IfOk result (λ net. (s : Signals) → RunsOn s builder.new.cells → (t : ℕ) → s.net t net ≡ written s t number writes.now (s.net t old)) }
{
    let mut net = old;
    for w in writes {
        let on = done_to(builder, w.enable, w.copy, number)?;
        net = choose(builder, width, on, w.word, net)?;
    }
    Ok(net)
}

/// The register of a copy. `first` always has the first word, and `one` is always 1.
fn emit_copy(
    builder: &mut Builder,
    part: &Register,
    number: u32,
    first: NetId,
    one: NetId,
) -> Result<NetId, NoMemory>
    requires fits { RegisterFits builder.old part.now }
    requires first { HasNet builder.old first (width_of part.now.ty) }
    requires first_word { (s : Signals) → RunsOn s builder.old.cells → (t : ℕ) → s.net t first ≡ first_word part.now.first }
    requires one { IsOne builder.old one }
    ensures fills { OnOk result (Fills builder.old builder.new []) }
    ensures net { IfOk result (λ net. HasNet builder.new net (width_of part.now.ty)) }
    ensures runs { IfOk result (λ net. (s : Signals) → RunsOn s builder.new.cells → RunsCopy s part.now number net) }
{
    let width = part.ty.width();
    let net = reserve(builder, width)?;
    let begun = made_fresh(builder, &part.fresh, number, width, first, net)?;
    let next = after_writes(builder, &part.writes, number, width, begun)?;
    drive(builder, net, width, first_of(part.first), next, one)?;
    Ok(net)
}

/// The word with which a register begins.
pub(crate) fn first_of(first: Option<u64>) -> u64
    ensures { result ≡ first_word first }
{
    first.unwrap_or(0)
}

/// The registers of all copies.
pub(crate) fn emit_copies(
    alloc: Global,
    builder: &mut Builder,
    part: &Register,
    one: NetId,
) -> Result<Vec<NetId>, NoMemory>
    requires fits { RegisterFits builder.old part.now }
    requires one { IsOne builder.old one }
    ensures fills { OnOk result (Fills builder.old builder.new []) }
    ensures each { IfOk result (λ nets. length nets.items ≡ part.now.copies) }
    ensures nets { IfOk result (λ nets. All (λ net. HasNet builder.new net (width_of part.now.ty)) nets.items) }
    ensures runs { IfOk result (λ nets. (s : Signals) → RunsOn s builder.new.cells → (copy : ℕ) → copy < part.now.copies → RunsCopy s part.now copy (slice_index nets.items copy)) }
{
    let first = constant(builder, part.ty.width(), first_of(part.first))?;
    let mut nets = Vec::new(alloc);
    for number in 0..part.copies {
        let net = emit_copy(builder, part, number, first, one)?;
        nets.push(net)?;
    }
    Ok(nets)
}
