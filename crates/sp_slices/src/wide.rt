//! Sums and comparisons of words of `Int` that don't wrap.
ghost use Rattle.std.specs.Prelude.{◌≡◌, ℕ, ◌<◌, ◌^◌, ℤ, pos, ◌+ℤ◌, int_lt, [], IfOk, OnOk};
ghost use Rattle.sp_words.specs.Types.{int_type};
ghost use Rattle.sp_words.specs.Words.{value_of, wrap};
ghost use Rattle.sp_netlist.specs.Signals.{Signals};
ghost use Rattle.sp_gates.specs.Grows.{Fills};
ghost use Rattle.sp_gates.specs.Nets.{HasNet};
ghost use Rattle.sp_gates.specs.Runs.{RunsOn};
ghost use Rattle.sp_gates.specs.Tested.{is_on};
ghost use Rattle.sp_counters.specs.Counting.{number};
ghost use Rattle.sp_counters.specs.Fits.{wide_type};

use sp_gates::{cast, constant, operate};
use sp_netlist::{Builder, CellOp, NetId, NoMemory};
use sp_words::{FixTy, Ty};

/// The type in which counters are compared.
fn wide() -> Ty
    ensures { result ≡ wide_type }
{
    match FixTy::new(true, 64, 0) {
        Some(fix) => Ty::Fix(fix),
        None => Ty::int(),
    }
}

/// The low 32 bits of a word.
pub(crate) fn low(builder: &mut Builder, net: NetId) -> Result<NetId, NoMemory>
    requires { HasNet builder.old net 32 }
    ensures fills { OnOk result (Fills builder.old builder.new []) }
    ensures net { IfOk result (λ low. HasNet builder.new low 32) }
    ensures word { IfOk result (λ low. (s : Signals) → RunsOn s builder.new.cells → (t : ℕ) → s.net t low ≡ wrap int_type (number s net t)) }
{
    let low = cast(builder, Ty::int(), Ty::int(), net)?;
    Ok(low)
}

/// The same number in the wide type.
fn widened(builder: &mut Builder, net: NetId) -> Result<NetId, NoMemory>
    requires { HasNet builder.old net 32 }
    ensures fills { OnOk result (Fills builder.old builder.new []) }
    ensures net { IfOk result (λ wide. HasNet builder.new wide 64) }
    ensures value { IfOk result (λ wide. (s : Signals) → RunsOn s builder.new.cells → (t : ℕ) → s.net t net < 2 ^ 32 → value_of wide_type (s.net t wide) ≡ number s net t) }
{
    let wide = cast(builder, Ty::int(), wide(), net)?;
    Ok(wide)
}

/// A word and so much more, in the wide type.
pub(crate) fn moved(builder: &mut Builder, net: NetId, more: u64) -> Result<NetId, NoMemory>
    requires net { HasNet builder.old net 32 }
    requires small { more < 2 ^ 62 }
    ensures fills { OnOk result (Fills builder.old builder.new []) }
    ensures net { IfOk result (λ sum. HasNet builder.new sum 64) }
    ensures value { IfOk result (λ sum. (s : Signals) → RunsOn s builder.new.cells → (t : ℕ) → s.net t net < 2 ^ 32 → value_of wide_type (s.net t sum) ≡ number s net t +ℤ pos more) }
{
    let wide_net = widened(builder, net)?;
    let step = constant(builder, 64, more)?;
    let sum = operate(builder, wide(), CellOp::Add, wide_net, step)?;
    Ok(sum)
}

/// A net that is 1 where a word of the wide type is below one of `Int`.
pub(crate) fn below(builder: &mut Builder, sum: NetId, bound: NetId) -> Result<NetId, NoMemory>
    requires sum { HasNet builder.old sum 64 }
    requires bound { HasNet builder.old bound 32 }
    ensures fills { OnOk result (Fills builder.old builder.new []) }
    ensures net { IfOk result (λ below. HasNet builder.new below 1) }
    ensures on { IfOk result (λ below. (s : Signals) → RunsOn s builder.new.cells → (t : ℕ) → s.net t bound < 2 ^ 32 → is_on s below t ≡ int_lt (value_of wide_type (s.net t sum)) (number s bound t)) }
{
    let wide_bound = widened(builder, bound)?;
    let below = operate(builder, wide(), CellOp::Lt, sum, wide_bound)?;
    Ok(below)
}
