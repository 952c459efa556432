//! The readers of a register.
ghost use Rattle.std.specs.Prelude.{◌≡◌, ℕ, suc, ◌<◌, ◌≤◌, [], ◌∷◌, length, slice_index, All, IfOk, OnOk};
ghost use Rattle.sp_netlist.specs.Rules.{IsWidth};
ghost use Rattle.sp_netlist.specs.Signals.{Signals};
ghost use Rattle.sp_gates.specs.Bits.{IsOne};
ghost use Rattle.sp_gates.specs.Grows.{Fills};
ghost use Rattle.sp_gates.specs.Nets.{HasNet};
ghost use Rattle.sp_gates.specs.Runs.{RunsOn};
ghost use Rattle.sp_mem.specs.Copies.{copy_at};
ghost use Rattle.sp_mem.specs.Fits.{CopyFits, ReadFits, AreApart, words_of};
ghost use Rattle.sp_mem.specs.Runs.{RunsReader};

use crate::part::Touch;
use sp_gates::{choose, drive, equals};
use sp_netlist::{Builder, NetId, NoMemory};
use sp_words::Ty;

/// The word of the copy whose number stands on a net, where it is the number of one.
fn of_number(
    builder: &mut Builder,
    width: u8,
    number: NetId,
    nets: &[NetId],
    copies: u32,
) -> Result<NetId, NoMemory>
    requires width { IsWidth width }
    requires number { HasNet builder.old number 32 }
    requires some { 1 ≤ copies }
    requires each { length nets.now ≡ copies }
    requires nets { All (λ net. HasNet builder.old net width) nets.now }
    ensures fills { OnOk result (Fills builder.old builder.new []) }
    ensures net { IfOk result (λ net. HasNet builder.new net width) }
    ensures word { IfOk result (λ net. (s : Signals) → RunsOn s builder.new.cells → (t copy : ℕ) → copy < copies → s.net t number ≡ copy → s.net t net ≡ s.net t (slice_index nets.now copy)) }
{
    let mut word = nets[0];
    for copy in 0..copies {
        let same = equals(builder, Ty::int(), number, u64::from(copy))?;
        word = choose(builder, width, same, nets[copy as usize], word)?;
    }
    Ok(word)
}

/// The word of the copy that a reader reads.
fn read_word(
    builder: &mut Builder,
    width: u8,
    copy: Option<NetId>,
    nets: &[NetId],
    copies: u32,
) -> Result<NetId, NoMemory>
    requires width { IsWidth width }
    requires copy { CopyFits builder.old copy }
    requires some { 1 ≤ copies }
    requires each { length nets.now ≡ copies }
    requires nets { All (λ net. HasNet builder.old net width) nets.now }
    ensures fills { OnOk result (Fills builder.old builder.new []) }
    ensures net { IfOk result (λ net. HasNet builder.new net width) }
    ensures word { IfOk result (λ net. (s : Signals) → RunsOn s builder.new.cells → (t number : ℕ) → number < copies → copy_at s t copy ≡ number → s.net t net ≡ s.net t (slice_index nets.now number)) }
{
    match copy {
        None => Ok(nets[0]),
        Some(number) => {
            let word = of_number(builder, width, number, nets, copies)?;
            Ok(word)
        }
    }
}

/// Drives the nets of readers: each has the word that the copy had a cycle before. `one` is always 1.
pub(crate) fn emit_readers(
    builder: &mut Builder,
    width: u8,
    reads: &[Touch],
    nets: &[NetId],
    copies: u32,
    one: NetId,
) -> Result<(), NoMemory>
    requires width { IsWidth width }
    requires reads { All (ReadFits builder.old width) reads.now }
    requires apart { AreApart reads.now }
    requires some { 1 ≤ copies }
    requires each { length nets.now ≡ copies }
    requires nets { All (λ net. HasNet builder.old net width) nets.now }
    requires one { IsOne builder.old one }
    ensures fills { OnOk result (Fills builder.old builder.new (words_of reads.now)) }
    ensures runs { OnOk result ((s : Signals) → RunsOn s builder.new.cells → All (RunsReader s copies nets.now) reads.now) }
{
    for r in reads {
        let word = read_word(builder, width, r.copy, nets, copies)?;
        drive(builder, r.word, width, 0, word, one)?;
    }
    Ok(())
}
