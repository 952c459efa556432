//! Where a word of a slice stands in its memory.
ghost use Rattle.std.specs.Prelude.{◌≡◌, ℕ, ◌+◌, ◌*◌, ◌%◌, ◌^◌, ◌<◌, false, [], length, All, IfOk, OnOk};
ghost use Rattle.sp_words.specs.Interface.{word_count};
ghost use Rattle.sp_words.specs.Types.{signed_of, frac_of, width_of};
ghost use Rattle.sp_netlist.specs.Signals.{Signals};
ghost use Rattle.sp_gates.specs.Grows.{Fills};
ghost use Rattle.sp_gates.specs.Nets.{HasNet};
ghost use Rattle.sp_gates.specs.Runs.{RunsOn};
ghost use Rattle.sp_core.specs.Elements.{row_major};
ghost use Rattle.sp_counters.specs.Fits.{IsCounter};
ghost use Rattle.sp_counters.specs.Pieces.{HasInt};
ghost use Rattle.sp_slices.specs.Slices.{values_at};

use sp_counters::Counter;
use sp_gates::{constant, operate};
use sp_netlist::{Builder, CellOp, NetId, NoMemory};
use sp_words::{FixTy, Ty};

/// The type of numbers without a sign, of 32 bits.
fn unsigned() -> Ty
    ensures sign { signed_of result ≡ false }
    ensures frac { frac_of result ≡ 0 }
    ensures width { width_of result ≡ 32 }
{
    match FixTy::new(false, 32, 0) {
        Some(ty) => Ty::Fix(ty),
        None => Ty::Bit,
    }
}

/// The sum of two numbers.
fn sum(builder: &mut Builder, a: NetId, b: NetId) -> Result<NetId, NoMemory>
    requires left { HasNet builder.old a 32 }
    requires right { HasNet builder.old b 32 }
    ensures fills { OnOk result (Fills builder.old builder.new []) }
    ensures net { IfOk result (λ net. HasNet builder.new net 32) }
    ensures word { IfOk result (λ net. (s : Signals) → RunsOn s builder.new.cells → (t : ℕ) → s.net t net ≡ (s.net t a + s.net t b) % 2 ^ 32) }
{
    let net = operate(builder, unsigned(), CellOp::Add, a, b)?;
    Ok(net)
}

/// A number so many times.
fn times(builder: &mut Builder, a: NetId, by: u32) -> Result<NetId, NoMemory>
    requires { HasNet builder.old a 32 }
    ensures fills { OnOk result (Fills builder.old builder.new []) }
    ensures net { IfOk result (λ net. HasNet builder.new net 32) }
    ensures word { IfOk result (λ net. (s : Signals) → RunsOn s builder.new.cells → (t : ℕ) → s.net t net ≡ s.net t a * by % 2 ^ 32) }
{
    let factor = constant(builder, 32, u64::from(by))?;
    let net = operate(builder, unsigned(), CellOp::Mul, a, factor)?;
    Ok(net)
}

/// The row-major number of an element, behind so many memories of this size.
fn row(
    builder: &mut Builder,
    before: NetId,
    dims: &[u32],
    counters: &[Counter],
) -> Result<NetId, NoMemory>
    requires before { HasInt builder.old before }
    requires values { All (IsCounter builder.old) counters.now }
    ensures fills { OnOk result (Fills builder.old builder.new []) }
    ensures net { IfOk result (HasInt builder.new) }
    ensures word { IfOk result (λ net. (s : Signals) → RunsOn s builder.new.cells → length counters.now ≡ length dims.now → (t : ℕ) → s.net t net % 2 ^ 32 ≡ (s.net t before * word_count dims.now + row_major dims.now (values_at s counters.now t)) % 2 ^ 32) }
{
    let [size, dims @ ..] = dims else {
        return Ok(before);
    };
    let [counter, counters @ ..] = counters else {
        return Ok(before);
    };
    let rows = times(builder, before, *size)?;
    let number = sum(builder, rows, counter.value)?;
    let net = row(builder, number, dims, counters)?;
    Ok(net)
}

/// The row-major number of the element at the values of counters, modulo 2^32.
pub fn address(builder: &mut Builder, dims: &[u32], counters: &[Counter]) -> Result<NetId, NoMemory>
    requires values { All (IsCounter builder.old) counters.now }
    ensures fills { OnOk result (Fills builder.old builder.new []) }
    ensures net { IfOk result (λ net. HasNet builder.new net 32) }
    ensures word { IfOk result (λ net. (s : Signals) → RunsOn s builder.new.cells → length counters.now ≡ length dims.now → (t : ℕ) → s.net t net ≡ row_major dims.now (values_at s counters.now t) % 2 ^ 32) }
{
    let zero = constant(builder, 32, 0)?;
    let net = row(builder, zero, dims, counters)?;
    Ok(net)
}
