//! A port that several accesses share.
ghost use Rattle.std.specs.Prelude.{◌≡◌, ℕ, [], length, All, IfOk, OnOk};
ghost use Rattle.sp_netlist.specs.Rules.{IsWidth};
ghost use Rattle.sp_netlist.specs.Signals.{Signals};
ghost use Rattle.sp_gates.specs.Grows.{Fills};
ghost use Rattle.sp_gates.specs.Nets.{HasNet};
ghost use Rattle.sp_gates.specs.Runs.{RunsOn};
ghost use Rattle.sp_access.specs.Asking.{AccessFits, last_word};
ghost use Rattle.sp_bank_ports.specs.Ports.{WriteFits, IsLast, IsLastWrite};

use crate::port::WritePort;
use sp_access::{Access, asked, place_asked};
use sp_gates::{choose, constant};
use sp_netlist::{Builder, NetId, NoMemory};

/// The word of the last access that asks.
pub fn word_asked(
    builder: &mut Builder,
    width: u8,
    accesses: &[Access],
    words: &[NetId],
) -> Result<NetId, NoMemory>
    requires width { IsWidth width }
    requires accesses { All (AccessFits builder.old) accesses.now }
    requires each { length words.now ≡ length accesses.now }
    requires words { All (λ net. HasNet builder.old net width) words.now }
    ensures fills { OnOk result (Fills builder.old builder.new []) }
    ensures net { IfOk result (λ net. HasNet builder.new net width) }
    ensures word { IfOk result (λ net. (s : Signals) → RunsOn s builder.new.cells → (t : ℕ) → s.net t net ≡ last_word s t accesses.now words.now 0) }
{
    let mut net = constant(builder, width, 0)?;
    for (i, a) in accesses.iter().enumerate() {
        net = choose(builder, width, a.on, words[i], net)?;
    }
    Ok(net)
}

/// An access that is on where one of these is, at the place of the last one that is.
pub fn read_port(builder: &mut Builder, accesses: &[Access]) -> Result<Access, NoMemory>
    requires { All (AccessFits builder.old) accesses.now }
    ensures fills { OnOk result (Fills builder.old builder.new []) }
    ensures fits { IfOk result (AccessFits builder.new) }
    ensures last { IfOk result (λ port. (s : Signals) → RunsOn s builder.new.cells → (t : ℕ) → IsLast s t accesses.now port) }
{
    let on = asked(builder, accesses)?;
    let place = place_asked(builder, accesses)?;
    Ok(Access { on, place })
}

/// The same with the word of the last one.
pub fn write_port(
    builder: &mut Builder,
    width: u8,
    accesses: &[Access],
    words: &[NetId],
) -> Result<WritePort, NoMemory>
    requires width { IsWidth width }
    requires accesses { All (AccessFits builder.old) accesses.now }
    requires each { length words.now ≡ length accesses.now }
    requires words { All (λ net. HasNet builder.old net width) words.now }
    ensures fills { OnOk result (Fills builder.old builder.new []) }
    ensures fits { IfOk result (WriteFits builder.new width) }
    ensures last { IfOk result (λ port. (s : Signals) → RunsOn s builder.new.cells → (t : ℕ) → IsLastWrite s t accesses.now words.now port) }
{
    let access = read_port(builder, accesses)?;
    let word = word_asked(builder, width, accesses, words)?;
    Ok(WritePort { access, word })
}
