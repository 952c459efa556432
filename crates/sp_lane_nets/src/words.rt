//! The words of a counter in the lanes of its loop.
ghost use Rattle.std.specs.Prelude.{◌≡◌, ℕ, ◌%◌, ◌^◌, [], IfOk, OnOk};
ghost use Rattle.sp_words.specs.Types.{int_type};
ghost use Rattle.sp_words.specs.Words.{word_add};
ghost use Rattle.sp_netlist.specs.Signals.{Signals};
ghost use Rattle.sp_gates.specs.Grows.{Fills};
ghost use Rattle.sp_gates.specs.Nets.{HasNet};
ghost use Rattle.sp_gates.specs.Runs.{RunsOn};

use sp_gates::{constant, operate};
use sp_netlist::{Builder, CellOp, NetId, NoMemory};
use sp_words::Ty;

/// A net with the word of a counter in a lane, which is so much more than its word in lane 0, as words of `Int`.
pub fn lane_word(builder: &mut Builder, value: NetId, more: u64) -> Result<NetId, NoMemory>
    requires { HasNet builder.old value 32 }
    ensures fills { OnOk result (Fills builder.old builder.new []) }
    ensures net { IfOk result (λ net. HasNet builder.new net 32) }
    ensures word { IfOk result (λ net. (s : Signals) → RunsOn s builder.new.cells → (t : ℕ) → s.net t net ≡ word_add int_type (s.net t value) (more % 2 ^ 32)) }
{
    let word = constant(builder, 32, more % 0x1_0000_0000)?;
    let net = operate(builder, Ty::int(), CellOp::Add, value, word)?;
    Ok(net)
}
