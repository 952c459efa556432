//! Whether a slice has a word, in the cycle of its start.
ghost use Rattle.std.specs.Prelude.{◌≡◌, ℕ, int_lt, [], All, IfOk, OnOk};
ghost use Rattle.sp_netlist.specs.Signals.{Signals};
ghost use Rattle.sp_gates.specs.Bits.{IsOne};
ghost use Rattle.sp_gates.specs.Grows.{Fills};
ghost use Rattle.sp_gates.specs.Nets.{HasNet};
ghost use Rattle.sp_gates.specs.Runs.{RunsOn};
ghost use Rattle.sp_gates.specs.Tested.{is_on};
ghost use Rattle.sp_counters.specs.Counting.{low_number, have_values};
ghost use Rattle.sp_counters.specs.Fits.{CountFits};
ghost use Rattle.sp_slices.specs.Fits.{IsWalk};

use crate::part::Walk;
use crate::wide::low;
use sp_counters::Count;
use sp_gates::{on_both, one, operate};
use sp_netlist::{Builder, CellOp, NetId, NoMemory};
use sp_words::Ty;

/// A net that is 1 where a counter has a value, by the bounds that it is given.
fn has_value(builder: &mut Builder, count: &Count) -> Result<NetId, NoMemory>
    requires { CountFits builder.old count.now }
    ensures fills { OnOk result (Fills builder.old builder.new []) }
    ensures net { IfOk result (λ net. HasNet builder.new net 1) }
    ensures on { IfOk result (λ net. (s : Signals) → RunsOn s builder.new.cells → (t : ℕ) → is_on s net t ≡ int_lt (low_number s count.now.from t) (low_number s count.now.until t)) }
{
    let from = low(builder, count.from)?;
    let until = low(builder, count.until)?;
    let some = operate(builder, Ty::int(), CellOp::Lt, from, until)?;
    Ok(some)
}

/// A net that is 1 where each counter has a value. `one` is always 1.
fn all_have_values(builder: &mut Builder, counts: &[Count], one: NetId) -> Result<NetId, NoMemory>
    requires counts { All (CountFits builder.old) counts.now }
    requires one { IsOne builder.old one }
    ensures fills { OnOk result (Fills builder.old builder.new []) }
    ensures net { IfOk result (λ net. HasNet builder.new net 1) }
    ensures on { IfOk result (λ net. (s : Signals) → RunsOn s builder.new.cells → (t : ℕ) → is_on s net t ≡ have_values s counts.now t) }
{
    let [count, counts @ ..] = counts else {
        return Ok(one);
    };
    let own = has_value(builder, count)?;
    let others = all_have_values(builder, counts, one)?;
    let all = on_both(builder, own, others)?;
    Ok(all)
}

/// A net that is 1 in a cycle in which a slice that is taken there has a word.
pub fn has_word(builder: &mut Builder, walk: &Walk) -> Result<NetId, NoMemory>
    requires { IsWalk builder.old walk.now }
    ensures fills { OnOk result (Fills builder.old builder.new []) }
    ensures net { IfOk result (λ net. HasNet builder.new net 1) }
    ensures on { IfOk result (λ net. (s : Signals) → RunsOn s builder.new.cells → (t : ℕ) → is_on s net t ≡ have_values s walk.now.counters.counters.items t) }
{
    let always = one(builder)?;
    let word = all_have_values(builder, &walk.counters.counters, always)?;
    Ok(word)
}
