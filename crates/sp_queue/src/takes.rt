//! The takes of a queue as requests of banks, of which each copy has one.
ghost use Rattle.std.specs.Prelude.{◌≡◌, ℕ, [], All, IfOk, OnOk};
ghost use Rattle.std.specs.List.{AllZip};
ghost use Rattle.sp_netlist.specs.Signals.{Signals};
ghost use Rattle.sp_gates.specs.Grows.{Fills};
ghost use Rattle.sp_gates.specs.Nets.{HasNet};
ghost use Rattle.sp_gates.specs.Runs.{RunsOn};
ghost use Rattle.sp_mem.specs.Copies.{copy_at};
ghost use Rattle.sp_mem.specs.Fits.{CopyFits};
ghost use Rattle.sp_queue_copies.specs.Events.{TouchFits};
ghost use Rattle.sp_queue.specs.Takes.{IsTake};

use sp_gates::constant;
use sp_mem::Touch;
use sp_netlist::{Builder, NetId, NoMemory};
use sp_requests::Request;
use std::alloc::Global;

/// A net with the number of a copy: 0 where none was given.
fn copy_number(builder: &mut Builder, copy: Option<NetId>) -> Result<NetId, NoMemory>
    requires { CopyFits builder.old copy }
    ensures fills { OnOk result (Fills builder.old builder.new []) }
    ensures net { IfOk result (λ net. HasNet builder.new net 32) }
    ensures word { IfOk result (λ net. (s : Signals) → RunsOn s builder.new.cells → (t : ℕ) → s.net t net ≡ copy_at s t copy) }
{
    match copy {
        None => {
            let net = constant(builder, 32, 0)?;
            Ok(net)
        }
        Some(net) => Ok(net),
    }
}

/// The request of one take. `zero` is always 0.
fn take_request(builder: &mut Builder, touch: &Touch, zero: NetId) -> Result<Request, NoMemory>
    requires touch { TouchFits builder.old touch.now }
    requires zero { HasNet builder.old zero 32 }
    ensures fills { OnOk result (Fills builder.old builder.new []) }
    ensures take { IfOk result (IsTake builder.new zero touch.now) }
{
    let copy = copy_number(builder, touch.copy)?;
    Ok(Request {
        enable: touch.enable,
        copy,
        bank: zero,
        place: zero,
        word: touch.word,
        duplicate: 0,
    })
}

/// The requests of all takes.
pub(crate) fn take_requests(
    alloc: Global,
    builder: &mut Builder,
    takes: &[Touch],
    zero: NetId,
) -> Result<Vec<Request>, NoMemory>
    requires takes { All (TouchFits builder.old) takes.now }
    requires zero { HasNet builder.old zero 32 }
    ensures fills { OnOk result (Fills builder.old builder.new []) }
    ensures takes { IfOk result (λ list. AllZip (IsTake builder.new zero) takes.now list.items) }
{
    let mut list = Vec::new(alloc);
    for touch in takes {
        let next = take_request(builder, touch, zero)?;
        list.push(next)?;
    }
    Ok(list)
}
