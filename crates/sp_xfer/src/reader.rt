//! Words that were read ahead, until they move.
ghost use Rattle.std.specs.Prelude.{[], IfOk, OnOk};
ghost use Rattle.sp_netlist.specs.Rules.{IsWidth};
ghost use Rattle.sp_netlist.specs.Signals.{Signals};
ghost use Rattle.sp_gates.specs.Bits.{IsOne};
ghost use Rattle.sp_gates.specs.Grows.{Fills};
ghost use Rattle.sp_gates.specs.Nets.{HasNet};
ghost use Rattle.sp_gates.specs.Runs.{RunsOn};
ghost use Rattle.sp_gates.specs.Tested.{is_on};
ghost use Rattle.sp_xfer.specs.Ahead.{KeepsNewest, ReadsAhead};

use crate::moving::after;
use sp_gates::{choose, drive, reserve};
use sp_netlist::{Builder, NetId, NoMemory};

/// The word that a reader gave last, and a register that keeps it.
#[derive(Clone, Copy, Debug)]
struct Newest {
    word: NetId,
    kept: NetId,
}

/// Keeps the word that a reader gave last: where `comes` is 1 it is the one that stands on `found`. `one` is always 1.
fn keep(
    builder: &mut Builder,
    width: u8,
    comes: NetId,
    found: NetId,
    one: NetId,
) -> Result<Newest, NoMemory>
    requires width { IsWidth width }
    requires comes { HasNet builder.old comes 1 }
    requires found { HasNet builder.old found width }
    requires one { IsOne builder.old one }
    ensures fills { OnOk result (Fills builder.old builder.new []) }
    ensures word { IfOk result (λ newest. HasNet builder.new newest.word width) }
    ensures kept { IfOk result (λ newest. HasNet builder.new newest.kept width) }
    ensures keeps { IfOk result (λ newest. (s : Signals) → RunsOn s builder.new.cells → KeepsNewest s comes found newest.word newest.kept) }
{
    let kept = reserve(builder, width)?;
    let word = choose(builder, width, comes, found, kept)?;
    drive(builder, kept, width, 0, word, one)?;
    Ok(Newest { word, kept })
}

/// A net with the word that was read when the walk went on before it last did: of the words that a reader gives two cycles after they are
/// read, the last two are kept. `goes` is 1 where the walk goes on. `one` is always 1.
pub(crate) fn read_ahead(
    builder: &mut Builder,
    width: u8,
    goes: NetId,
    found: NetId,
    one: NetId,
) -> Result<NetId, NoMemory>
    requires width { IsWidth width }
    requires goes { HasNet builder.old goes 1 }
    requires found { HasNet builder.old found width }
    requires one { IsOne builder.old one }
    ensures fills { OnOk result (Fills builder.old builder.new []) }
    ensures net { IfOk result (λ net. HasNet builder.new net width) }
    ensures reads { IfOk result (λ net. (s : Signals) → RunsOn s builder.new.cells → ReadsAhead s (is_on s goes) found net) }
{
    let went = after(builder, goes, one)?;
    let comes = after(builder, went, one)?;
    let newest = keep(builder, width, comes, found, one)?;
    let before = keep(builder, width, comes, newest.kept, one)?;
    let word = choose(builder, width, went, newest.word, before.word)?;
    Ok(word)
}
