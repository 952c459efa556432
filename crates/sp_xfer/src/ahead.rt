//! How far into each range the next word of a slice is.
ghost use Rattle.std.specs.Prelude.{◌≡◌, ℕ, [], All, IfOk, OnOk};
ghost use Rattle.sp_netlist.specs.Signals.{Signals};
ghost use Rattle.sp_gates.specs.Bits.{IsOne};
ghost use Rattle.sp_gates.specs.Grows.{Fills};
ghost use Rattle.sp_gates.specs.Nets.{HasNet};
ghost use Rattle.sp_gates.specs.Runs.{RunsOn};
ghost use Rattle.sp_gates.specs.Tested.{is_on};
ghost use Rattle.sp_slices.specs.Fits.{IsAxis};
ghost use Rattle.sp_xfer.specs.Ahead.{are_over, look_offset, look_offsets, more_index};
ghost use Rattle.sp_xfer.specs.Moving.{words_at};

use sp_gates::{choose, constant, on_both, operate};
use sp_netlist::{Builder, CellOp, NetId, NoMemory};
use sp_slices::{Axis, Move};
use sp_words::Ty;
use std::alloc::Global;

/// The nets with how far into each range the next word is, and one that is 1 where all dimensions are over.
#[derive(Debug, Drop)]
pub(crate) struct Ahead {
    pub(crate) indices: Vec<NetId>,
    pub(crate) over: NetId,
}

/// How far into a dimension the next word is.
fn look_one(
    builder: &mut Builder,
    start: NetId,
    goes: NetId,
    axis: &Axis,
) -> Result<NetId, NoMemory>
    requires start { HasNet builder.old start 1 }
    requires goes { HasNet builder.old goes 1 }
    requires axis { IsAxis builder.old axis.now }
    ensures fills { OnOk result (Fills builder.old builder.new []) }
    ensures net { IfOk result (λ net. HasNet builder.new net 32) }
    ensures word { IfOk result (λ net. (s : Signals) → RunsOn s builder.new.cells → (t : ℕ) → s.net t net ≡ look_offset s start (is_on s goes t) axis.now t) }
{
    let zero = constant(builder, 32, 0)?;
    let one = constant(builder, 32, 1)?;
    let sum = operate(builder, Ty::int(), CellOp::Add, axis.offset, one)?;
    let moved = choose(builder, 32, axis.ended, zero, sum)?;
    let next = choose(builder, 32, goes, moved, axis.offset)?;
    let index = choose(builder, 32, start, zero, next)?;
    Ok(index)
}

/// One index more, before others, where it is that of a range.
fn with_index(part: &Move, index: NetId, nets: Vec<NetId>) -> Result<Vec<NetId>, NoMemory>
    ensures { IfOk result (λ more. more.items ≡ more_index part.now index nets.items) }
{
    match *part {
        Move::One(_) => Ok(nets),
        Move::Range(_, _) => {
            let mut more = nets;
            more.insert(0, index)?;
            Ok(more)
        }
    }
}

/// How far into each range the next word is; where `start` is 1, the first word. `one` is always 1.
pub(crate) fn look_all(
    alloc: Global,
    builder: &mut Builder,
    start: NetId,
    moves: &[Move],
    axes: &[Axis],
    one: NetId,
) -> Result<Ahead, NoMemory>
    requires start { HasNet builder.old start 1 }
    requires axes { All (IsAxis builder.old) axes.now }
    requires one { IsOne builder.old one }
    ensures fills { OnOk result (Fills builder.old builder.new []) }
    ensures over_net { IfOk result (λ ahead. HasNet builder.new ahead.over 1) }
    ensures nets { IfOk result (λ ahead. All (λ net. HasNet builder.new net 32) ahead.indices.items) }
    ensures over { IfOk result (λ ahead. (s : Signals) → RunsOn s builder.new.cells → (t : ℕ) → is_on s ahead.over t ≡ are_over s moves.now axes.now t) }
    ensures words { IfOk result (λ ahead. (s : Signals) → RunsOn s builder.new.cells → (t : ℕ) → words_at s t ahead.indices.items ≡ look_offsets s start moves.now axes.now t) }
{
    let [part, moves @ ..] = moves else {
        return Ok(Ahead {
            indices: Vec::new(alloc),
            over: one,
        });
    };
    let [axis, axes @ ..] = axes else {
        return Ok(Ahead {
            indices: Vec::new(alloc),
            over: one,
        });
    };
    let others = look_all(alloc, builder, start, moves, axes, one)?;
    let index = look_one(builder, start, others.over, axis)?;
    let over = on_both(builder, axis.ended, others.over)?;
    let indices = with_index(part, index, others.indices)?;
    Ok(Ahead { indices, over })
}
