//! The bounds of a controller, and what a transfer computes before it begins.

ghost use Rattle.std.specs.Prelude.{◌≡◌, ◌++◌, map, sum_by, IfOk};
ghost use Rattle.sp_tree.specs.PlainTree.{plain_counter, plain_ctl, plain_stmt_kind};
ghost use Rattle.sp_tree.specs.Structure.{outside};
ghost use Rattle.sp_tree.specs.Tallies.{bound_tallies};
ghost use Rattle.sp_counts.specs.Capped.{capped};
ghost use Rattle.sp_counts.specs.Tallies.{tally_of};

use crate::NoMemory;
use crate::tally::Tally;
use sp_tree::{Counter, Ctl, StmtKind};
use std::alloc::Global;

/// Of each bound, in order.
pub(crate) fn bound_tallies(alloc: Global, counters: &[Counter]) -> Result<Vec<Tally>, NoMemory>
    ensures { IfOk result (λ ts. map tally_of ts.items ≡ bound_tallies (map plain_counter counters.now)) }
{
    let mut bounds = Vec::new(alloc);
    for counter in counters {
        bounds.push(Tally::of_expr(alloc, &counter.from)?)?;
        bounds.push(Tally::of_expr(alloc, &counter.until)?)?;
    }
    Ok(bounds)
}

fn ctl_outside(alloc: Global, ctl: &Ctl) -> Result<Vec<Tally>, NoMemory>
    ensures { IfOk result (λ ts. map tally_of ts.items ≡ outside (plain_ctl ctl.now)) }
{
    match ctl {
        Ctl::Foreach { counters, .. } => bound_tallies(alloc, counters),
        Ctl::Reduce { counters, .. } => bound_tallies(alloc, counters),
        Ctl::MemReduce { counters, .. } => bound_tallies(alloc, counters),
        _ => Ok(Vec::new(alloc)),
    }
}

/// Of each bound of a controller, of the slice of a transfer, or of the number of words of a gather or scatter.
pub(crate) fn outside(alloc: Global, kind: &StmtKind) -> Result<Vec<Tally>, NoMemory>
    ensures { IfOk result (λ ts. map tally_of ts.items ≡ outside (plain_stmt_kind kind.now)) }
{
    match kind {
        StmtKind::LoadSram(_, _, spans) => Ok(vec![in alloc; Tally::of_slice(alloc, spans)?]?),
        StmtKind::LoadLine(_, _, spans) => Ok(vec![in alloc; Tally::of_slice(alloc, spans)?]?),
        StmtKind::Store(_, spans, _) => Ok(vec![in alloc; Tally::of_slice(alloc, spans)?]?),
        StmtKind::Gather(_, _, _, count) => Ok(vec![in alloc; Tally::of_expr(alloc, count)?]?),
        StmtKind::Scatter(_, _, count, _) => Ok(vec![in alloc; Tally::of_expr(alloc, count)?]?),
        StmtKind::Control(ctl) => ctl_outside(alloc, ctl),
        _ => Ok(Vec::new(alloc)),
    }
}
