//! What is asked of one copy of a queue.
ghost use Rattle.std.specs.Prelude.{◌≡◌, ℕ, [], All, IfOk, OnOk};
ghost use Rattle.sp_netlist.specs.Rules.{IsWidth};
ghost use Rattle.sp_netlist.specs.Signals.{Signals};
ghost use Rattle.sp_gates.specs.Grows.{Fills};
ghost use Rattle.sp_gates.specs.Nets.{HasNet};
ghost use Rattle.sp_gates.specs.Runs.{RunsOn};
ghost use Rattle.sp_gates.specs.Tested.{is_on};
ghost use Rattle.sp_mem.specs.Copies.{is_at, written};
ghost use Rattle.sp_mem.specs.Fits.{CopyFits, FreshFits, WriteFits};
ghost use Rattle.sp_queue_copies.specs.Events.{TouchFits, is_freshened, is_touched};

use sp_gates::{choose, constant, equals, on_both, on_either};
use sp_mem::{Fresh, Touch};
use sp_netlist::{Builder, NetId, NoMemory};
use sp_words::Ty;

/// A net that is 1 where something is done to the copy of this number.
fn done_to(
    builder: &mut Builder,
    enable: NetId,
    copy: Option<NetId>,
    number: u32,
) -> Result<NetId, NoMemory>
    requires enable { HasNet builder.old enable 1 }
    requires copy { CopyFits builder.old copy }
    ensures fills { OnOk result (Fills builder.old builder.new []) }
    ensures net { IfOk result (λ net. HasNet builder.new net 1) }
    ensures on { IfOk result (λ net. (s : Signals) → RunsOn s builder.new.cells → (t : ℕ) → is_on s net t ≡ is_at s t enable copy number) }
{
    match copy {
        None => {
            let same = constant(builder, 1, u64::from(number == 0))?;
            let net = on_both(builder, enable, same)?;
            Ok(net)
        }
        Some(copy) => {
            let same = equals(builder, Ty::int(), copy, u64::from(number))?;
            let net = on_both(builder, enable, same)?;
            Ok(net)
        }
    }
}

/// A net that is 1 where the copy is made fresh.
pub(crate) fn freshened(
    builder: &mut Builder,
    fresh: &[Fresh],
    number: u32,
) -> Result<NetId, NoMemory>
    requires { All (FreshFits builder.old) fresh.now }
    ensures fills { OnOk result (Fills builder.old builder.new []) }
    ensures net { IfOk result (λ net. HasNet builder.new net 1) }
    ensures on { IfOk result (λ net. (s : Signals) → RunsOn s builder.new.cells → (t : ℕ) → is_on s net t ≡ is_freshened s t number fresh.now) }
{
    let mut net = constant(builder, 1, 0)?;
    for f in fresh {
        let on = done_to(builder, f.enable, f.copy, number)?;
        net = on_either(builder, net, on)?;
    }
    Ok(net)
}

/// A net that is 1 where one of these accesses is enabled at the copy.
pub(crate) fn touched(
    builder: &mut Builder,
    touches: &[Touch],
    number: u32,
) -> Result<NetId, NoMemory>
    requires { All (TouchFits builder.old) touches.now }
    ensures fills { OnOk result (Fills builder.old builder.new []) }
    ensures net { IfOk result (λ net. HasNet builder.new net 1) }
    ensures on { IfOk result (λ net. (s : Signals) → RunsOn s builder.new.cells → (t : ℕ) → is_on s net t ≡ is_touched s t number touches.now) }
{
    let mut net = constant(builder, 1, 0)?;
    for touch in touches {
        let on = done_to(builder, touch.enable, touch.copy, number)?;
        net = on_either(builder, net, on)?;
    }
    Ok(net)
}

/// The word of the last put that is enabled at the copy.
pub(crate) fn word_put(
    builder: &mut Builder,
    puts: &[Touch],
    number: u32,
    width: u8,
) -> Result<NetId, NoMemory>
    requires width { IsWidth width }
    requires puts { All (WriteFits builder.old width) puts.now }
    ensures fills { OnOk result (Fills builder.old builder.new []) }
    ensures net { IfOk result (λ net. HasNet builder.new net width) }
    ensures word { IfOk result (λ net. (s : Signals) → RunsOn s builder.new.cells → (t : ℕ) → s.net t net ≡ written s t number puts.now 0) }
{
    let mut net = constant(builder, width, 0)?;
    for p in puts {
        let on = done_to(builder, p.enable, p.copy, number)?;
        net = choose(builder, width, on, p.word, net)?;
    }
    Ok(net)
}
