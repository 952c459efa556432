//! The counters of a slice.
ghost use Rattle.std.specs.Prelude.{◌≡◌, ℕ, [], length, All, IfOk, OnOk};
ghost use Rattle.sp_netlist.specs.Signals.{Signals};
ghost use Rattle.sp_gates.specs.Grows.{Fills};
ghost use Rattle.sp_gates.specs.Runs.{RunsOn};
ghost use Rattle.sp_counters.specs.Fits.{CountFits};
ghost use Rattle.sp_slices.specs.Fits.{MoveFits};
ghost use Rattle.sp_slices.specs.Slices.{CountsMove, CountMoves};

use crate::part::Move;
use sp_counters::Count;
use sp_gates::{constant, operate};
use sp_netlist::{Builder, CellOp, NoMemory};
use sp_words::Ty;
use std::alloc::Global;

/// The counter of a dimension: from its first index up to the one past its last.
fn count_move(builder: &mut Builder, part: &Move) -> Result<Count, NoMemory>
    requires { MoveFits builder.old part.now }
    ensures fills { OnOk result (Fills builder.old builder.new []) }
    ensures fits { IfOk result (CountFits builder.new) }
    ensures counts { IfOk result (λ count. (s : Signals) → RunsOn s builder.new.cells → CountsMove s part.now count) }
{
    match *part {
        Move::One(index) => {
            let one = constant(builder, 32, 1)?;
            let until = operate(builder, Ty::int(), CellOp::Add, index, one)?;
            Ok(Count {
                from: index,
                until,
                by: 1,
                par: 1,
            })
        }
        Move::Range(from, until) => Ok(Count {
            from,
            until,
            by: 1,
            par: 1,
        }),
    }
}

/// A counter for each dimension.
pub(crate) fn count_moves(
    alloc: Global,
    builder: &mut Builder,
    moves: &[Move],
) -> Result<Vec<Count>, NoMemory>
    requires { All (MoveFits builder.old) moves.now }
    ensures fills { OnOk result (Fills builder.old builder.new []) }
    ensures each { IfOk result (λ counts. length counts.items ≡ length moves.now) }
    ensures fit { IfOk result (λ counts. All (CountFits builder.new) counts.items) }
    ensures count { IfOk result (λ counts. (s : Signals) → RunsOn s builder.new.cells → CountMoves s moves.now counts.items) }
{
    let [first, rest @ ..] = moves else {
        return Ok(Vec::new(alloc));
    };
    let own = count_move(builder, first)?;
    let mut counts = count_moves(alloc, builder, rest)?;
    counts.insert(0, own)?;
    Ok(counts)
}
