//! Nets that follow another one.
ghost use Rattle.std.specs.Prelude.{◌≡◌, ℕ, suc, All, OnOk};
ghost use Rattle.sp_netlist.specs.Rules.{IsWidth};
ghost use Rattle.sp_netlist.specs.Signals.{Signals};
ghost use Rattle.sp_gates.specs.Bits.{IsOne};
ghost use Rattle.sp_gates.specs.Grows.{Fills};
ghost use Rattle.sp_gates.specs.Nets.{HasNet};
ghost use Rattle.sp_gates.specs.Runs.{RunsOn};
ghost use Rattle.sp_mem.specs.Fits.{ReadFits, AreApart, words_of};
ghost use Rattle.sp_memory_nets.specs.ScalarRuns.{Follows};

use sp_gates::drive;
use sp_mem::Touch;
use sp_netlist::{Builder, NetId, NoMemory};

/// Drives the nets of readers: each has the word that the port had a cycle before. `one` is always 1.
pub(crate) fn emit_followers(
    builder: &mut Builder,
    width: u8,
    reads: &[Touch],
    port: NetId,
    one: NetId,
) -> Result<(), NoMemory>
    requires width { IsWidth width }
    requires reads { All (ReadFits builder.old width) reads.now }
    requires apart { AreApart reads.now }
    requires port { HasNet builder.old port width }
    requires one { IsOne builder.old one }
    ensures fills { OnOk result (Fills builder.old builder.new (words_of reads.now)) }
    ensures runs { OnOk result ((s : Signals) → RunsOn s builder.new.cells → All (Follows s port) reads.now) }
{
    for r in reads {
        drive(builder, r.word, width, 0, port, one)?;
    }
    Ok(())
}
