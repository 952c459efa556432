//! Gates on nets of one bit.
ghost use Rattle.std.specs.Prelude.{◌≡◌, ℕ, suc, ◌-◌, ◌*◌, ◌<◌, ◌≤◌, ◌^◌, ◌==◌, [], max, if◌then◌else◌, IfOk, OnOk};
ghost use Rattle.sp_words.specs.Types.{width_of};
ghost use Rattle.sp_netlist.specs.Signals.{Signals};
ghost use Rattle.sp_gates.specs.Nets.{HasNet};
ghost use Rattle.sp_gates.specs.Runs.{RunsOn};
ghost use Rattle.sp_gates.specs.Grows.{Fills};
ghost use Rattle.sp_gates.specs.Bits.{HasBit, IsOne};

use crate::gates::{constant, hold, invert, operate};
use sp_netlist::{Builder, CellOp, NetId, NoMemory};
use sp_words::Ty;

/// A net that is always 1.
pub fn one(builder: &mut Builder) -> Result<NetId, NoMemory>
    ensures fills { OnOk result (Fills builder.old builder.new []) }
    ensures one { IfOk result (λ net. IsOne builder.new net) }
{
    let net = constant(builder, 1, 1)?;
    Ok(net)
}

/// A net that is 1 where both are.
pub fn both(builder: &mut Builder, a: NetId, b: NetId) -> Result<NetId, NoMemory>
    requires left { HasBit builder.old a }
    requires right { HasBit builder.old b }
    ensures fills { OnOk result (Fills builder.old builder.new []) }
    ensures bit { IfOk result (λ net. HasBit builder.new net) }
    ensures word { IfOk result (λ net. (s : Signals) → RunsOn s builder.new.cells → (t : ℕ) → s.net t net ≡ s.net t a * s.net t b) }
{
    let net = operate(builder, Ty::Bit, CellOp::And, a, b)?;
    Ok(net)
}

/// A net that is 1 where one of the two is.
pub fn either(builder: &mut Builder, a: NetId, b: NetId) -> Result<NetId, NoMemory>
    requires left { HasBit builder.old a }
    requires right { HasBit builder.old b }
    ensures fills { OnOk result (Fills builder.old builder.new []) }
    ensures bit { IfOk result (λ net. HasBit builder.new net) }
    ensures word { IfOk result (λ net. (s : Signals) → RunsOn s builder.new.cells → (t : ℕ) → s.net t net ≡ max (s.net t a) (s.net t b)) }
{
    let net = operate(builder, Ty::Bit, CellOp::Or, a, b)?;
    Ok(net)
}

/// A net that is 1 where the other is 0.
pub fn negate(builder: &mut Builder, a: NetId) -> Result<NetId, NoMemory>
    requires { HasBit builder.old a }
    ensures fills { OnOk result (Fills builder.old builder.new []) }
    ensures bit { IfOk result (λ net. HasBit builder.new net) }
    ensures word { IfOk result (λ net. (s : Signals) → RunsOn s builder.new.cells → (t : ℕ) → s.net t net ≡ 1 - s.net t a) }
{
    let net = invert(builder, Ty::Bit, a)?;
    Ok(net)
}

/// A net that is 1 where the word is this number.
pub fn equals(builder: &mut Builder, ty: Ty, a: NetId, number: u64) -> Result<NetId, NoMemory>
    requires operand { HasNet builder.old a (width_of ty) }
    requires number { number < 2 ^ width_of ty }
    ensures fills { OnOk result (Fills builder.old builder.new []) }
    ensures bit { IfOk result (λ net. HasBit builder.new net) }
    ensures word { IfOk result (λ net. (s : Signals) → RunsOn s builder.new.cells → (t : ℕ) → s.net t net ≡ (if s.net t a == number then 1 else 0)) }
{
    let wanted = constant(builder, ty.width(), number)?;
    let net = operate(builder, ty, CellOp::Eq, a, wanted)?;
    Ok(net)
}

/// A net with the bit that `next` had one cycle before, and with `first` in cycle 0. `one` is always 1.
pub fn register(
    builder: &mut Builder,
    first: bool,
    next: NetId,
    one: NetId,
) -> Result<NetId, NoMemory>
    requires next { HasBit builder.old next }
    requires one { IsOne builder.old one }
    ensures fills { OnOk result (Fills builder.old builder.new []) }
    ensures bit { IfOk result (λ net. HasBit builder.new net) }
    ensures first { IfOk result (λ net. (s : Signals) → RunsOn s builder.new.cells → s.net 0 net ≡ (if first then 1 else 0)) }
    ensures later { IfOk result (λ net. (s : Signals) → RunsOn s builder.new.cells → (t : ℕ) → s.net (suc t) net ≡ s.net t next) }
{
    let net = hold(builder, 1, u64::from(first), next, one)?;
    Ok(net)
}
