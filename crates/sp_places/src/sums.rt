//! Sums over the indices of an element.
ghost use Rattle.std.specs.Prelude.{◌≡◌, ℕ, ◌+◌, ◌*◌, ◌%◌, ◌^◌, ◌<◌, [], length, map, All, IfOk, OnOk};
ghost use Rattle.sp_bank.specs.Places.{weighted, product_of, IsInside, row_major};
ghost use Rattle.sp_netlist.specs.Signals.{Signals};
ghost use Rattle.sp_gates.specs.Grows.{Fills};
ghost use Rattle.sp_gates.specs.Nets.{HasNet};
ghost use Rattle.sp_gates.specs.Runs.{RunsOn};
ghost use Rattle.sp_places.specs.Layouts.{words_at};

use crate::numbers::{sum, times, widen};
use sp_gates::constant;
use sp_netlist::{Builder, NetId, NoMemory};
use std::alloc::Global;

/// Nets of 32 bits as nets of 64.
pub(crate) fn widen_all(
    alloc: Global,
    builder: &mut Builder,
    nets: &[NetId],
) -> Result<Vec<NetId>, NoMemory>
    requires { All (λ net. HasNet builder.old net 32) nets.now }
    ensures fills { OnOk result (Fills builder.old builder.new []) }
    ensures each { IfOk result (λ wide. length wide.items ≡ length nets.now) }
    ensures nets { IfOk result (λ wide. All (λ net. HasNet builder.new net 64) wide.items) }
    ensures words { IfOk result (λ wide. (s : Signals) → RunsOn s builder.new.cells → (t : ℕ) → words_at s t wide.items ≡ map (λ w. w % 2 ^ 64) (words_at s t nets.now)) }
{
    let mut wide = Vec::new(alloc);
    for net in nets {
        let number = widen(builder, *net)?;
        wide.push(number)?;
    }
    Ok(wide)
}

/// Each number times its weight, summed.
pub(crate) fn weighted_sum(
    builder: &mut Builder,
    weights: &[u32],
    nets: &[NetId],
) -> Result<NetId, NoMemory>
    requires each { length nets.now ≡ length weights.now }
    requires nets { All (λ net. HasNet builder.old net 64) nets.now }
    ensures fills { OnOk result (Fills builder.old builder.new []) }
    ensures net { IfOk result (λ net. HasNet builder.new net 64) }
    ensures word { IfOk result (λ net. (s : Signals) → RunsOn s builder.new.cells → (t : ℕ) → s.net t net ≡ weighted weights.now (words_at s t nets.now) % 2 ^ 64) }
{
    let mut total = constant(builder, 64, 0)?;
    for (i, weight) in weights.iter().enumerate() {
        let part = times(builder, nets[i], u64::from(*weight))?;
        total = sum(builder, total, part)?;
    }
    Ok(total)
}

/// The row-major number of an element, behind so many memories of this size.
pub(crate) fn row_number(
    builder: &mut Builder,
    start: NetId,
    dims: &[u32],
    nets: &[NetId],
) -> Result<NetId, NoMemory>
    requires each { length nets.now ≡ length dims.now }
    requires start { HasNet builder.old start 64 }
    requires nets { All (λ net. HasNet builder.old net 64) nets.now }
    ensures fills { OnOk result (Fills builder.old builder.new []) }
    ensures net { IfOk result (λ net. HasNet builder.new net 64) }
    ensures word { IfOk result (λ net. (s : Signals) → RunsOn s builder.new.cells → (t : ℕ) → IsInside dims.now (words_at s t nets.now) → s.net t net % 2 ^ 64 ≡ (s.net t start * product_of dims.now + row_major dims.now (words_at s t nets.now)) % 2 ^ 64) }
{
    let mut number = start;
    for (i, size) in dims.iter().enumerate() {
        let rows = times(builder, number, u64::from(*size))?;
        number = sum(builder, rows, nets[i])?;
    }
    Ok(number)
}
