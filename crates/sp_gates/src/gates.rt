//! Gates on words.
ghost use Rattle.std.specs.Prelude.{◌≡◌, ℕ, suc, ◌+◌, ◌<◌, ◌^◌, ◌==◌, [], ◌∷◌, if◌then◌else◌, IfOk, OnOk};
ghost use Rattle.sp_words.specs.Types.{width_of};
ghost use Rattle.sp_words.specs.Words.{word_not, word_cast};
ghost use Rattle.sp_netlist.specs.Rules.{IsWidth, op_width};
ghost use Rattle.sp_netlist.specs.Signals.{Signals, op_word, shift_word, Holds};
ghost use Rattle.sp_gates.specs.Nets.{HasNet, Awaits};
ghost use Rattle.sp_gates.specs.Runs.{RunsOn};
ghost use Rattle.sp_gates.specs.Grows.{Fills, Opens};
ghost use Rattle.sp_gates.specs.Bits.{IsOne};

use sp_netlist::{Builder, Cell, CellOp, CellShift, NetId, NoMemory};
use sp_words::Ty;

/// A net with that word in every cycle.
pub fn constant(builder: &mut Builder, width: u8, word: u64) -> Result<NetId, NoMemory>
    requires width { IsWidth width }
    requires word { word < 2 ^ width }
    ensures fills { OnOk result (Fills builder.old builder.new []) }
    ensures net { IfOk result (λ net. HasNet builder.new net width) }
    ensures word { IfOk result (λ net. (s : Signals) → RunsOn s builder.new.cells → (t : ℕ) → s.net t net ≡ word) }
{
    let net = builder.promise(width, true)?;
    builder.add(Cell::Const(net, width, word))?;
    Ok(net)
}

/// A net with what the operator gives of two words of the type: a bit of a comparison, else a word of the type.
pub fn operate(
    builder: &mut Builder,
    ty: Ty,
    op: CellOp,
    a: NetId,
    b: NetId,
) -> Result<NetId, NoMemory>
    requires left { HasNet builder.old a (width_of ty) }
    requires right { HasNet builder.old b (width_of ty) }
    ensures fills { OnOk result (Fills builder.old builder.new []) }
    ensures net { IfOk result (λ net. HasNet builder.new net (op_width ty op)) }
    ensures word { IfOk result (λ net. (s : Signals) → RunsOn s builder.new.cells → (t : ℕ) → s.net t net ≡ op_word op ty (s.net t a) (s.net t b)) }
{
    let width = match op {
        CellOp::Lt | CellOp::Eq => 1,
        _ => ty.width(),
    };
    let net = builder.promise(width, false)?;
    builder.add(Cell::Op(net, ty, op, a, b))?;
    Ok(net)
}

/// A net with the word's bits turned.
pub fn invert(builder: &mut Builder, ty: Ty, a: NetId) -> Result<NetId, NoMemory>
    requires operand { HasNet builder.old a (width_of ty) }
    ensures fills { OnOk result (Fills builder.old builder.new []) }
    ensures net { IfOk result (λ net. HasNet builder.new net (width_of ty)) }
    ensures word { IfOk result (λ net. (s : Signals) → RunsOn s builder.new.cells → (t : ℕ) → s.net t net ≡ word_not ty (s.net t a)) }
{
    let net = builder.promise(ty.width(), false)?;
    builder.add(Cell::Not(net, ty, a))?;
    Ok(net)
}

/// A net with the word shifted by so many places, below 64.
pub fn shift(
    builder: &mut Builder,
    ty: Ty,
    side: CellShift,
    a: NetId,
    places: u8,
) -> Result<NetId, NoMemory>
    requires operand { HasNet builder.old a (width_of ty) }
    requires places { places < 64 }
    ensures fills { OnOk result (Fills builder.old builder.new []) }
    ensures net { IfOk result (λ net. HasNet builder.new net (width_of ty)) }
    ensures word { IfOk result (λ net. (s : Signals) → RunsOn s builder.new.cells → (t : ℕ) → s.net t net ≡ shift_word side ty (s.net t a) places) }
{
    let net = builder.promise(ty.width(), false)?;
    builder.add(Cell::Shift(net, ty, side, a, places))?;
    Ok(net)
}

/// A net with the word at another type.
pub fn cast(builder: &mut Builder, from: Ty, to: Ty, a: NetId) -> Result<NetId, NoMemory>
    requires operand { HasNet builder.old a (width_of from) }
    ensures fills { OnOk result (Fills builder.old builder.new []) }
    ensures net { IfOk result (λ net. HasNet builder.new net (width_of to)) }
    ensures word { IfOk result (λ net. (s : Signals) → RunsOn s builder.new.cells → (t : ℕ) → s.net t net ≡ word_cast from to (s.net t a)) }
{
    let net = builder.promise(to.width(), false)?;
    builder.add(Cell::Cast(net, from, to, a))?;
    Ok(net)
}

/// A net with `a` where the choice is 1, and else `b`.
pub fn choose(
    builder: &mut Builder,
    width: u8,
    choice: NetId,
    a: NetId,
    b: NetId,
) -> Result<NetId, NoMemory>
    requires width { IsWidth width }
    requires choice { HasNet builder.old choice 1 }
    requires left { HasNet builder.old a width }
    requires right { HasNet builder.old b width }
    ensures fills { OnOk result (Fills builder.old builder.new []) }
    ensures net { IfOk result (λ net. HasNet builder.new net width) }
    ensures word { IfOk result (λ net. (s : Signals) → RunsOn s builder.new.cells → (t : ℕ) → s.net t net ≡ (if s.net t choice == 1 then s.net t a else s.net t b)) }
{
    let net = builder.promise(width, false)?;
    builder.add(Cell::Mux(net, width, choice, a, b))?;
    Ok(net)
}

/// A register: `first` in cycle 0, and from each cycle in which the enable is 1 to the next one the word of `next`.
pub fn hold(
    builder: &mut Builder,
    width: u8,
    first: u64,
    next: NetId,
    enable: NetId,
) -> Result<NetId, NoMemory>
    requires width { IsWidth width }
    requires first { first < 2 ^ width }
    requires next { HasNet builder.old next width }
    requires enable { HasNet builder.old enable 1 }
    ensures fills { OnOk result (Fills builder.old builder.new []) }
    ensures net { IfOk result (λ net. HasNet builder.new net width) }
    ensures word { IfOk result (λ net. (s : Signals) → RunsOn s builder.new.cells → Holds (λ t. s.net t net) first (λ t. s.net t enable) (λ t. s.net t next)) }
{
    let net = builder.promise(width, true)?;
    builder.add(Cell::Hold(net, width, first, next, enable))?;
    Ok(net)
}

/// Promises a net that `drive` is to drive, so that cells before that may read it.
pub fn reserve(builder: &mut Builder, width: u8) -> Result<NetId, NoMemory>
    requires { IsWidth width }
    ensures opens { IfOk result (λ net. Opens builder.old builder.new net) }
    ensures net { IfOk result (λ net. HasNet builder.new net width) }
    ensures awaits { IfOk result (λ net. Awaits builder.new net width) }
{
    builder.promise(width, true)
}

/// Drives a reserved net by a register.
pub fn drive(
    builder: &mut Builder,
    net: NetId,
    width: u8,
    first: u64,
    next: NetId,
    enable: NetId,
) -> Result<(), NoMemory>
    requires width { IsWidth width }
    requires first { first < 2 ^ width }
    requires net { Awaits builder.old net width }
    requires next { HasNet builder.old next width }
    requires enable { HasNet builder.old enable 1 }
    ensures fills { OnOk result (Fills builder.old builder.new (net ∷ [])) }
    ensures word { OnOk result ((s : Signals) → RunsOn s builder.new.cells → Holds (λ t. s.net t net) first (λ t. s.net t enable) (λ t. s.net t next)) }
{
    builder.add(Cell::Hold(net, width, first, next, enable))?;
    Ok(())
}

/// A net with the word that `net` had so many cycles before, and 0 until then. `one` is always 1.
pub fn delay(
    builder: &mut Builder,
    width: u8,
    net: NetId,
    cycles: u32,
    one: NetId,
) -> Result<NetId, NoMemory>
    requires width { IsWidth width }
    requires net { HasNet builder.old net width }
    requires one { IsOne builder.old one }
    ensures fills { OnOk result (Fills builder.old builder.new []) }
    ensures net { IfOk result (λ late. HasNet builder.new late width) }
    ensures later { IfOk result (λ late. (s : Signals) → RunsOn s builder.new.cells → (t : ℕ) → s.net (t + cycles) late ≡ s.net t net) }
    ensures before { IfOk result (λ late. (s : Signals) → RunsOn s builder.new.cells → (t : ℕ) → t < cycles → s.net t late ≡ 0) }
{
    let mut late = net;
    for _step in 0..cycles {
        late = hold(builder, width, 0, late, one)?;
    }
    Ok(late)
}
