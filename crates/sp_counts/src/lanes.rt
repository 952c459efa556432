//! How many lanes stand side by side.

ghost use Rattle.std.specs.Prelude.{◌≡◌, ◌*◌, [], ◌∷◌, map};
ghost use Rattle.sp_tree.specs.Counts.{lanes_in, kind_lanes};
ghost use Rattle.sp_tree.specs.PlainTree.{plain_counter, plain_ctl, plain_span, plain_stmt_kind, plain_stmts};
ghost use Rattle.sp_tree.specs.Structure.{lanes_of, slice_lanes};
ghost use Rattle.sp_counts.specs.Capped.{capped};

use sp_tree::{Counter, Ctl, Span, Stmt, StmtKind};

/// The lanes of a controller, or the greatest number of 64 bits where there are more.
#[tactic(auto, using(crate::proofs::CappedLemmas::capped_times_both))]
pub(crate) fn lanes_of(counters: &[Counter]) -> u64
    ensures { result ≡ capped (lanes_of (map plain_counter counters.now)) }
{
    let mut lanes: u64 = 1;
    for counter in counters {
        lanes = lanes.saturating_mul(counter.par as u64);
    }
    lanes
}

/// The lanes of a controller, times those around it.
#[tactic(auto, using(crate::proofs::CappedLemmas::times_capped))]
pub(crate) fn lanes_inside(around: u64, counters: &[Counter]) -> u64
    ensures { result ≡ capped (around * lanes_of (map plain_counter counters.now)) }
{
    around.saturating_mul(lanes_of(counters))
}

fn span_lanes(span: &Span) -> u64
    ensures { result ≡ slice_lanes (plain_span span.now ∷ []) }
{
    match span {
        Span::One(_) => 1,
        Span::Range(_, _, par) => *par as u64,
    }
}

#[tactic(auto, using(crate::proofs::CappedLemmas::capped_times_both))]
fn slice_lanes(spans: &[Span]) -> u64
    ensures { result ≡ capped (slice_lanes (map plain_span spans.now)) }
{
    let mut lanes: u64 = 1;
    for span in spans {
        lanes = lanes.saturating_mul(span_lanes(span));
    }
    lanes
}

#[tactic(auto, using(crate::proofs::CappedLemmas::times_capped))]
fn moved_lanes(around: u64, spans: &[Span]) -> u64
    ensures { result ≡ capped (around * slice_lanes (map plain_span spans.now)) }
{
    around.saturating_mul(slice_lanes(spans))
}

#[cycle(lanes_in)]
fn ctl_lanes(ctl: &Ctl, around: u64) -> u64
    ensures { result ≡ capped (kind_lanes (plain_ctl ctl.now) around) }
{
    match ctl {
        Ctl::Block { body, .. } => lanes_in(body, around),
        Ctl::Foreach { counters, body, .. } => lanes_in(body, lanes_inside(around, counters)),
        Ctl::Reduce { counters, body, .. } => lanes_in(body, lanes_inside(around, counters)),
        Ctl::MemReduce { counters, body, .. } => lanes_in(body, lanes_inside(around, counters)),
        Ctl::Fsm { body, .. } => lanes_in(body, around),
        Ctl::Branch { yes, no, .. } => lanes_in(yes, around).max(lanes_in(no, around)),
    }
}

#[cycle(lanes_in)]
fn kind_lanes(kind: &StmtKind, around: u64) -> u64
    ensures { result ≡ capped (kind_lanes (plain_stmt_kind kind.now) around) }
{
    match kind {
        StmtKind::LoadSram(_, _, spans) => moved_lanes(around, spans),
        StmtKind::LoadLine(_, _, spans) => moved_lanes(around, spans),
        StmtKind::Store(_, spans, _) => moved_lanes(around, spans),
        StmtKind::Control(ctl) => ctl_lanes(ctl, around),
        StmtKind::Declare(_)
        | StmtKind::Let(_, _)
        | StmtKind::SetReg(_, _)
        | StmtKind::SetOut(_, _)
        | StmtKind::SetSram(_, _, _)
        | StmtKind::Enq(_, _)
        | StmtKind::Gather(_, _, _, _)
        | StmtKind::Scatter(_, _, _, _) => around,
    }
}

/// The greatest product of the lanes of a controller or a slice and of the controllers around it, of which those
/// around this body have so many; or the greatest number of 64 bits where that is greater.
#[cycle(lanes_in)]
pub(crate) fn lanes_in(body: &[Stmt], around: u64) -> u64
    ensures { result ≡ capped (lanes_in (plain_stmts body.now) around) }
{
    let mut lanes = around;
    for s in body {
        lanes = lanes.max(kind_lanes(&s.kind, around));
    }
    lanes
}
