//! Gates on numbers without a sign, of 64 bits.
ghost use Rattle.std.specs.Prelude.{◌≡◌, ℕ, ◌+◌, ◌*◌, ◌/◌, ◌%◌, ◌^◌, ◌<◌, ◌≤◌, false, [], IfOk, OnOk};
ghost use Rattle.sp_words.specs.Types.{signed_of, frac_of, width_of};
ghost use Rattle.sp_netlist.specs.Signals.{Signals};
ghost use Rattle.sp_gates.specs.Grows.{Fills};
ghost use Rattle.sp_gates.specs.Nets.{HasNet};
ghost use Rattle.sp_gates.specs.Runs.{RunsOn};

use sp_gates::{cast, constant, operate};
use sp_netlist::{Builder, CellOp, NetId, NoMemory};
use sp_words::{FixTy, Ty};

/// The type of whole numbers without a sign, of so many bits.
fn unsigned(width: u8) -> Ty
    requires some { 1 ≤ width }
    requires in_a_word { width ≤ 64 }
    ensures sign { signed_of result ≡ false }
    ensures frac { frac_of result ≡ 0 }
    ensures width { width_of result ≡ width }
{
    match FixTy::new(false, width, 0) {
        Some(ty) => Ty::Fix(ty),
        None => Ty::Bit,
    }
}

/// The sum of two numbers.
pub(crate) fn sum(builder: &mut Builder, a: NetId, b: NetId) -> Result<NetId, NoMemory>
    requires left { HasNet builder.old a 64 }
    requires right { HasNet builder.old b 64 }
    ensures fills { OnOk result (Fills builder.old builder.new []) }
    ensures net { IfOk result (λ net. HasNet builder.new net 64) }
    ensures word { IfOk result (λ net. (s : Signals) → RunsOn s builder.new.cells → (t : ℕ) → s.net t net ≡ (s.net t a + s.net t b) % 2 ^ 64) }
{
    let net = operate(builder, unsigned(64), CellOp::Add, a, b)?;
    Ok(net)
}

/// A number so many times.
pub(crate) fn times(builder: &mut Builder, a: NetId, by: u64) -> Result<NetId, NoMemory>
    requires { HasNet builder.old a 64 }
    ensures fills { OnOk result (Fills builder.old builder.new []) }
    ensures net { IfOk result (λ net. HasNet builder.new net 64) }
    ensures word { IfOk result (λ net. (s : Signals) → RunsOn s builder.new.cells → (t : ℕ) → s.net t net ≡ s.net t a * by % 2 ^ 64) }
{
    let factor = constant(builder, 64, by)?;
    let net = operate(builder, unsigned(64), CellOp::Mul, a, factor)?;
    Ok(net)
}

/// A number over another, rounded down.
pub(crate) fn over(builder: &mut Builder, a: NetId, by: u64) -> Result<NetId, NoMemory>
    requires left { HasNet builder.old a 64 }
    requires some { 0 < by }
    ensures fills { OnOk result (Fills builder.old builder.new []) }
    ensures net { IfOk result (λ net. HasNet builder.new net 64) }
    ensures word { IfOk result (λ net. (s : Signals) → RunsOn s builder.new.cells → (t : ℕ) → s.net t net ≡ s.net t a / by % 2 ^ 64) }
{
    let divisor = constant(builder, 64, by)?;
    let net = operate(builder, unsigned(64), CellOp::Div, a, divisor)?;
    Ok(net)
}

/// What a division leaves.
pub(crate) fn rest(builder: &mut Builder, a: NetId, by: u64) -> Result<NetId, NoMemory>
    requires left { HasNet builder.old a 64 }
    requires some { 0 < by }
    ensures fills { OnOk result (Fills builder.old builder.new []) }
    ensures net { IfOk result (λ net. HasNet builder.new net 64) }
    ensures word { IfOk result (λ net. (s : Signals) → RunsOn s builder.new.cells → (t : ℕ) → s.net t net ≡ s.net t a % by % 2 ^ 64) }
{
    let divisor = constant(builder, 64, by)?;
    let net = operate(builder, unsigned(64), CellOp::Rem, a, divisor)?;
    Ok(net)
}

/// A number of 32 bits as one of 64.
pub(crate) fn widen(builder: &mut Builder, a: NetId) -> Result<NetId, NoMemory>
    requires { HasNet builder.old a 32 }
    ensures fills { OnOk result (Fills builder.old builder.new []) }
    ensures net { IfOk result (λ net. HasNet builder.new net 64) }
    ensures word { IfOk result (λ net. (s : Signals) → RunsOn s builder.new.cells → (t : ℕ) → s.net t net ≡ s.net t a % 2 ^ 64) }
{
    let net = cast(builder, unsigned(32), unsigned(64), a)?;
    Ok(net)
}

/// The last 32 bits of a number.
pub(crate) fn narrow(builder: &mut Builder, a: NetId) -> Result<NetId, NoMemory>
    requires { HasNet builder.old a 64 }
    ensures fills { OnOk result (Fills builder.old builder.new []) }
    ensures net { IfOk result (λ net. HasNet builder.new net 32) }
    ensures word { IfOk result (λ net. (s : Signals) → RunsOn s builder.new.cells → (t : ℕ) → s.net t net ≡ s.net t a % 2 ^ 32) }
{
    let net = cast(builder, unsigned(64), unsigned(32), a)?;
    Ok(net)
}
