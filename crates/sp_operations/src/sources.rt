//! Where the words of values are found.
ghost use Rattle.std.specs.Prelude.{◌≡◌, ◌<◌, length, OnOk};
ghost use Rattle.std.specs.Option.{option_map};
ghost use Rattle.sp_core.specs.Store.{changed};
ghost use Rattle.sp_tree.specs.Plain.{plain_expr};
ghost use Rattle.sp_sugar.specs.Values.{stands_for};
ghost use Rattle.sp_operations.specs.Sources.{plain_source, sources_of};

use crate::NoMemory;
use sp_tree::{Expr, ExprKind};

/// Where a word is found.
#[derive(Clone, Copy, Debug, Drop)]
pub enum Source {
    /// At a place of the list of operations.
    AtPlace(u32),
    InRegister(u32),
    Constant(u64),
    Count(u32),
}

/// Where the value of a number is found.
#[tactic(auto, unfolding(crate::specs::Sources::sources_of))]
pub(crate) fn source_at(sources: &[Source], v: u32) -> Source
    ensures { plain_source result ≡ sources_of sources.now v }
{
    match sources.get(v as usize) {
        Some(source) => *source,
        None => Source::Constant(0),
    }
}

/// Makes the list longer than a number.
#[tactic(auto, using(crate::proofs::SourceLemmas::more_sources))]
fn reach(sources: &mut Vec<Source>, v: u32) -> Result<(), NoMemory>
    ensures same { OnOk result (sources_of sources.new.items ≡ sources_of sources.old.items) }
    ensures reached { OnOk result (v < length sources.new.items) }
{
    while sources.len() <= v as usize {
        sources.push(Source::Constant(0))?;
    }
    Ok(())
}

/// The value of a number is found there.
#[tactic(auto, using(crate::proofs::SourceLemmas::set_sources))]
pub fn set_source(sources: &mut Vec<Source>, v: u32, source: Source) -> Result<(), NoMemory>
    ensures { OnOk result (sources_of sources.new.items ≡ changed (sources_of sources.old.items) v (plain_source source)) }
{
    reach(sources, v)?;
    sources[v as usize] = source;
    Ok(())
}

/// What an expression without an operation stands for.
pub(crate) fn stands_for(sources: &[Source], e: &Expr) -> Option<Source>
    ensures { option_map plain_source result ≡ stands_for (sources_of sources.now) (plain_expr e.now) }
{
    match &e.kind {
        ExprKind::Lit(word) => Some(Source::Constant(*word)),
        ExprKind::Count(c) => Some(Source::Count(c.number())),
        ExprKind::Val(v) => Some(source_at(sources, v.number())),
        ExprKind::GetReg(_) => None,
        ExprKind::GetArg(_) => None,
        ExprKind::GetSram(_, _) => None,
        ExprKind::GetLine(_, _, _) => None,
        ExprKind::Deq(_) => None,
        ExprKind::One(_, _) => None,
        ExprKind::Two(_, _, _) => None,
        ExprKind::Shift(_, _, _) => None,
        ExprKind::Mux(_, _, _) => None,
        ExprKind::Cast(_) => None,
    }
}
