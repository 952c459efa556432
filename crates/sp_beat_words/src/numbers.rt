//! The numbers of copies.
ghost use Rattle.std.specs.Prelude.{◌≡◌, ℕ, ◌-◌, ◌≤◌, [], ◌∷◌, IfOk, OnOk};
ghost use Rattle.sp_netlist.specs.Signals.{Signals};
ghost use Rattle.sp_gates.specs.Bits.{IsOne};
ghost use Rattle.sp_gates.specs.Grows.{Fills};
ghost use Rattle.sp_gates.specs.Nets.{HasNet};
ghost use Rattle.sp_gates.specs.Runs.{RunsOn};
ghost use Rattle.sp_gates.specs.Tested.{is_on};
ghost use Rattle.sp_beat_words.specs.Fits.{TurnFits};
ghost use Rattle.sp_beat_words.specs.Numbers.{coming_number, copy_number, next_copy};

use crate::part::Turn;
use sp_gates::{choose, constant, drive, equals, one, operate};
use sp_netlist::{Builder, CellOp, NetId, NoMemory};
use sp_words::Ty;

/// A net with the number of the copy after that on another net, which is below their count in each cycle.
fn number_after(builder: &mut Builder, number: NetId, copies: u32) -> Result<NetId, NoMemory>
    requires number { HasNet builder.old number 32 }
    requires copies { 1 ≤ copies }
    ensures fills { OnOk result (Fills builder.old builder.new []) }
    ensures net { IfOk result (λ net. HasNet builder.new net 32) }
    ensures word { IfOk result (λ net. (s : Signals) → RunsOn s builder.new.cells → (t : ℕ) → s.net t number ≤ copies - 1 → s.net t net ≡ next_copy copies (s.net t number)) }
{
    let zero = constant(builder, 32, 0)?;
    let step = constant(builder, 32, 1)?;
    let sum = operate(builder, Ty::int(), CellOp::Add, number, step)?;
    let last = equals(builder, Ty::int(), number, u64::from(copies - 1))?;
    let net = choose(builder, 32, last, zero, sum)?;
    Ok(net)
}

/// Drives the number of the copy of the group that a slot has, from the cycle after its first one on. The net that it gives has
/// that number in the first cycle already.
pub fn emit_number(builder: &mut Builder, start: NetId, turn: &Turn) -> Result<NetId, NoMemory>
    requires start { HasNet builder.old start 1 }
    requires turn { TurnFits builder.old turn.now }
    ensures fills { OnOk result (Fills builder.old builder.new (turn.now.net ∷ [])) }
    ensures net { IfOk result (λ coming. HasNet builder.new coming 32) }
    ensures number { OnOk result ((s : Signals) → RunsOn s builder.new.cells → (t : ℕ) → s.net t turn.now.net ≡ copy_number (is_on s start) (is_on s turn.now.first) turn.now.copies t) }
    ensures coming { IfOk result (λ coming. (s : Signals) → RunsOn s builder.new.cells → (t : ℕ) → s.net t coming ≡ coming_number (is_on s start) (is_on s turn.now.first) turn.now.copies t) }
{
    let always = one(builder)?;
    let last = constant(builder, 32, u64::from(turn.copies - 1))?;
    let after = number_after(builder, turn.net, turn.copies)?;
    let coming = choose(builder, 32, turn.first, after, turn.net)?;
    let next = choose(builder, 32, start, last, coming)?;
    drive(
        builder,
        turn.net,
        32,
        u64::from(turn.copies - 1),
        next,
        always,
    )?;
    Ok(coming)
}
