//! The number of the cycle, and what follows from it.
ghost use Rattle.std.specs.Prelude.{◌<◌, ◌^◌, [], ◌∷◌, IfOk, OnOk};
ghost use Rattle.sp_gates.specs.Bits.{IsOne};
ghost use Rattle.sp_gates.specs.Grows.{Fills};
ghost use Rattle.sp_gates.specs.Nets.{Awaits, HasNet};

use sp_gates::{constant, drive, operate, reserve};
use sp_netlist::{Builder, CellOp, NetId, NoMemory};
use sp_words::Ty;

/// A register with the number of the cycle.
pub(crate) fn cycle(builder: &mut Builder, one: NetId) -> Result<NetId, NoMemory>
    requires { IsOne builder.old one }
    ensures fills { OnOk result (Fills builder.old builder.new []) }
    ensures net { IfOk result (λ net. HasNet builder.new net 32) }
{
    let count = reserve(builder, 32)?;
    let step = constant(builder, 32, 1)?;
    let next = operate(builder, Ty::int(), CellOp::Add, count, step)?;
    drive(builder, count, 32, 0, next, one)?;
    Ok(count)
}

/// A net that is 1 where the word is below a number.
pub(crate) fn below(builder: &mut Builder, net: NetId, number: u32) -> Result<NetId, NoMemory>
    requires { HasNet builder.old net 32 }
    ensures fills { OnOk result (Fills builder.old builder.new []) }
    ensures net { IfOk result (λ net. HasNet builder.new net 1) }
{
    let bound = constant(builder, 32, u64::from(number))?;
    let test = operate(builder, Ty::int(), CellOp::Lt, net, bound)?;
    Ok(test)
}

/// The word and a number.
pub(crate) fn plus(builder: &mut Builder, net: NetId, number: u32) -> Result<NetId, NoMemory>
    requires { HasNet builder.old net 32 }
    ensures fills { OnOk result (Fills builder.old builder.new []) }
    ensures net { IfOk result (λ net. HasNet builder.new net 32) }
{
    let more = constant(builder, 32, u64::from(number))?;
    let sum = operate(builder, Ty::int(), CellOp::Add, net, more)?;
    Ok(sum)
}

/// The word without a number.
pub(crate) fn minus(builder: &mut Builder, net: NetId, number: u32) -> Result<NetId, NoMemory>
    requires { HasNet builder.old net 32 }
    ensures fills { OnOk result (Fills builder.old builder.new []) }
    ensures net { IfOk result (λ net. HasNet builder.new net 32) }
{
    let less = constant(builder, 32, u64::from(number))?;
    let rest = operate(builder, Ty::int(), CellOp::Sub, net, less)?;
    Ok(rest)
}

/// A number without the word.
pub(crate) fn without(builder: &mut Builder, number: u32, net: NetId) -> Result<NetId, NoMemory>
    requires { HasNet builder.old net 32 }
    ensures fills { OnOk result (Fills builder.old builder.new []) }
    ensures net { IfOk result (λ net. HasNet builder.new net 32) }
{
    let whole = constant(builder, 32, u64::from(number))?;
    let rest = operate(builder, Ty::int(), CellOp::Sub, whole, net)?;
    Ok(rest)
}

/// Drives a net by a register that takes ten times its word and another word where `enable` is 1: its digits are these words.
pub(crate) fn collect(
    builder: &mut Builder,
    y: NetId,
    word: NetId,
    enable: NetId,
) -> Result<(), NoMemory>
    requires y { Awaits builder.old y 32 }
    requires word { HasNet builder.old word 32 }
    requires enable { HasNet builder.old enable 1 }
    ensures fills { OnOk result (Fills builder.old builder.new (y ∷ [])) }
{
    let ten = constant(builder, 32, 10)?;
    let moved = operate(builder, Ty::int(), CellOp::Mul, y, ten)?;
    let next = operate(builder, Ty::int(), CellOp::Add, moved, word)?;
    drive(builder, y, 32, 0, next, enable)?;
    Ok(())
}
