//! Registers that go round the places of a bank.
ghost use Rattle.std.specs.Prelude.{◌≡◌, ℕ, ◌+◌, ◌<◌, false, [], if◌then◌else◌, IfOk, OnOk};
ghost use Rattle.sp_words.specs.Types.{signed_of, frac_of, width_of};
ghost use Rattle.sp_netlist.specs.Rules.{IsLength};
ghost use Rattle.sp_netlist.specs.Signals.{Signals};
ghost use Rattle.sp_gates.specs.Bits.{IsOne};
ghost use Rattle.sp_gates.specs.Grows.{Fills};
ghost use Rattle.sp_gates.specs.Nets.{HasNet};
ghost use Rattle.sp_gates.specs.Runs.{RunsOn};
ghost use Rattle.sp_gates.specs.Tested.{is_on};
ghost use Rattle.sp_ring.specs.Places.{wrapped, moved_place, CountsPlaces};

use sp_gates::{choose, constant, drive, equals, operate, reserve};
use sp_netlist::{Builder, CellOp, NetId, NoMemory};
use sp_words::{FixTy, Ty};

/// The type of whole numbers without a sign, of 32 bits.
fn unsigned() -> Ty
    ensures sign { signed_of result ≡ false }
    ensures frac { frac_of result ≡ 0 }
    ensures width { width_of result ≡ 32 }
{
    match FixTy::new(false, 32, 0) {
        Some(ty) => Ty::Fix(ty),
        None => Ty::Bit,
    }
}

/// The place behind another one, of so many; behind the last one is the first.
fn next_place(builder: &mut Builder, place: NetId, len: u32) -> Result<NetId, NoMemory>
    requires length { IsLength len }
    requires place { HasNet builder.old place 32 }
    ensures fills { OnOk result (Fills builder.old builder.new []) }
    ensures net { IfOk result (λ net. HasNet builder.new net 32) }
    ensures word { IfOk result (λ net. (s : Signals) → RunsOn s builder.new.cells → (t : ℕ) → s.net t place < len → s.net t net ≡ wrapped len (s.net t place + 1)) }
{
    let one = constant(builder, 32, 1)?;
    let more = operate(builder, unsigned(), CellOp::Add, place, one)?;
    let last = equals(builder, Ty::int(), place, u64::from(len - 1))?;
    let zero = constant(builder, 32, 0)?;
    let net = choose(builder, 32, last, zero, more)?;
    Ok(net)
}

/// A place that goes on where `on` is 1, and to the first one where `fresh` is.
fn moved(
    builder: &mut Builder,
    place: NetId,
    len: u32,
    on: NetId,
    fresh: NetId,
) -> Result<NetId, NoMemory>
    requires length { IsLength len }
    requires place { HasNet builder.old place 32 }
    requires on { HasNet builder.old on 1 }
    requires fresh { HasNet builder.old fresh 1 }
    ensures fills { OnOk result (Fills builder.old builder.new []) }
    ensures net { IfOk result (λ net. HasNet builder.new net 32) }
    ensures word { IfOk result (λ net. (s : Signals) → RunsOn s builder.new.cells → (t : ℕ) → s.net t place < len → s.net t net ≡ moved_place len (is_on s fresh t) (is_on s on t) (s.net t place)) }
{
    let next = next_place(builder, place, len)?;
    let going = choose(builder, 32, on, next, place)?;
    let zero = constant(builder, 32, 0)?;
    let net = choose(builder, 32, fresh, zero, going)?;
    Ok(net)
}

/// A register that goes round the places. `one` is always 1.
pub(crate) fn counted(
    builder: &mut Builder,
    len: u32,
    on: NetId,
    fresh: NetId,
    one: NetId,
) -> Result<NetId, NoMemory>
    requires length { IsLength len }
    requires on { HasNet builder.old on 1 }
    requires fresh { HasNet builder.old fresh 1 }
    requires one { IsOne builder.old one }
    ensures fills { OnOk result (Fills builder.old builder.new []) }
    ensures net { IfOk result (λ net. HasNet builder.new net 32) }
    ensures counts { IfOk result (λ net. (s : Signals) → RunsOn s builder.new.cells → CountsPlaces s len on fresh net) }
{
    let place = reserve(builder, 32)?;
    let next = moved(builder, place, len, on, fresh)?;
    drive(builder, place, 32, 0, next, one)?;
    Ok(place)
}
