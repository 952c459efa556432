//! The refusals of counters, spans and combiners.

ghost use Rattle.std.specs.Prelude.{◌≡◌, ◌++◌, length, OnOk};
ghost use Rattle.std.specs.List.{list_any};
ghost use Rattle.sp_reader.specs.Plain.{plain_expr, plain_ident};
ghost use Rattle.sp_reader.specs.PlainProgram.{plain_span, plain_spans, plain_counters, plain_counter, plain_from, plain_comb, plain_idents, plain_names};
ghost use Rattle.sp_types.specs.First.{notes};
ghost use Rattle.sp_types.specs.Plain.{visible_of};
ghost use Rattle.sp_types.specs.Spans as spec;

use crate::expression::{at_type, check};
use crate::own::Ask;
use crate::refusal::{Finding, Rule};
use crate::scope::{Scope, Symbol};
use sp_reader::{Ident, SynComb, SynCounter, SynExpr, SynPar, SynSpan};
use sp_words::{BinOp, Ty};
use std::alloc::{AllocError, Global};

/// How a bound and a span are checked.
fn bound() -> Ask
    ensures { result ≡ spec.bound }
{
    at_type(Some(Ty::int()), true)
}

/// A bound, an index or an end of a range.
pub(crate) fn check_bound(scope: &Scope, e: &SynExpr, finding: &mut Finding)
    ensures { finding.new.first ≡ notes finding.old.first (spec.bound_refusals (visible_of scope.now) (plain_expr e.now)) }
{
    check(scope, bound(), e, finding);
}

#[tactic(auto, unfolding(crate::specs::First::notes))]
fn check_from(scope: &Scope, from: &Option<SynExpr>, finding: &mut Finding)
    ensures { finding.new.first ≡ notes finding.old.first (spec.from_refusals (visible_of scope.now) (plain_from from.now)) }
{
    match from {
        Some(e) => check_bound(scope, e, finding),
        None => {}
    }
}

/// Several lanes on a counter that isn't the last.
#[tactic(auto, unfolding(crate::specs::First::notes))]
fn check_counter_par(last: bool, par: Option<SynPar>, finding: &mut Finding)
    ensures { finding.new.first ≡ notes finding.old.first (spec.counter_par last par) }
{
    match par {
        Some(par) => finding.note_if(!last && 1 < par.lanes, par.at, Rule::ParPlace),
        None => {}
    }
}

/// Lanes on a range where there can't be any.
#[tactic(auto, unfolding(crate::specs::First::notes))]
fn check_range_par(allowed: bool, par: Option<SynPar>, finding: &mut Finding)
    ensures { finding.new.first ≡ notes finding.old.first (spec.range_par allowed par) }
{
    match par {
        Some(par) => finding.note_if(!allowed, par.at, Rule::ParPlace),
        None => {}
    }
}

/// A counter's bounds and lanes.
#[tactic(auto, using(crate::proofs::FindingLemmas::notes_append))]
fn check_counter(scope: &Scope, last: bool, counter: &SynCounter, finding: &mut Finding)
    ensures { finding.new.first ≡ notes finding.old.first (spec.counter_refusals (visible_of scope.now) last (plain_counter counter.now)) }
{
    check_from(scope, &counter.from, finding);
    check_bound(scope, &counter.until, finding);
    check_counter_par(last, counter.par, finding);
}

pub(crate) fn check_counters(scope: &Scope, counters: &[SynCounter], finding: &mut Finding)
    ensures { finding.new.first ≡ notes finding.old.first (spec.counters_refusals (visible_of scope.now) (plain_counters counters.now)) }
{
    for (i, counter) in counters.iter().enumerate() {
        let last = counters[i + 1..].is_empty();
        check_counter(scope, last, counter, finding);
    }
}

/// A name that is given where it is visible already.
pub(crate) fn check_twice(scope: &Scope, name: &Ident, finding: &mut Finding)
    ensures { finding.new.first ≡ notes finding.old.first (spec.twice (visible_of scope.now) (plain_ident name.now)) }
{
    finding.note_if(scope.find(&name.text).is_some(), name.at, Rule::Twice);
}

/// The names of the counters, which are visible from here on.
pub(crate) fn check_binds(
    alloc: Global,
    scope: &mut Scope,
    binds: &[Ident],
    finding: &mut Finding,
) -> Result<(), AllocError>
    ensures seen { OnOk result (visible_of scope.new ≡ spec.with_binds (visible_of scope.old) (plain_idents binds.now)) }
    ensures found { OnOk result (finding.new.first ≡ notes finding.old.first (spec.binds_refusals (visible_of scope.old) (plain_idents binds.now))) }
{
    for name in binds {
        check_twice(scope, name, finding);
        scope.declare(alloc, &name.text, Symbol::Counter)?;
    }
    Ok(())
}

/// Another number of names than of counters.
#[tactic(auto, unfolding(crate::specs::First::notes))]
pub(crate) fn check_names_for(want: usize, binds: &[Ident], finding: &mut Finding)
    ensures { finding.new.first ≡ notes finding.old.first (spec.names_for_counters want (plain_idents binds.now)) }
{
    match binds {
        [first, ..] => finding.note_count(first.at, want, binds.len()),
        [] => {}
    }
}

#[tactic(auto, using(crate::proofs::FindingLemmas::notes_append))]
fn check_span(scope: &Scope, span: &SynSpan, finding: &mut Finding)
    ensures { finding.new.first ≡ notes finding.old.first (spec.span_refusals (visible_of scope.now) (plain_span span.now)) }
{
    match span {
        SynSpan::One(e) => check_bound(scope, e, finding),
        SynSpan::Range(from, until, _) => {
            check_bound(scope, from, finding);
            check_bound(scope, until, finding);
        }
    }
}

fn is_range(span: &SynSpan) -> bool
    ensures { result ≡ spec.is_range (plain_span span.now) }
{
    match span {
        SynSpan::One(_) => false,
        SynSpan::Range(_, _, _) => true,
    }
}

fn has_range(spans: &[SynSpan]) -> bool
    ensures { result ≡ list_any (λ s. spec.is_range (plain_span s)) spans.now }
{
    spans.iter().any(|span| is_range(span))
}

/// Lanes on a span, which may stand where `lanes` is set and no range stands in `rest`.
#[tactic(auto, using(crate::proofs::SpanLemmas::any_shown), unfolding(crate::specs::First::notes))]
fn check_span_par(lanes: bool, span: &SynSpan, rest: &[SynSpan], finding: &mut Finding)
    ensures { finding.new.first ≡ notes finding.old.first (spec.span_par lanes (plain_span span.now) (plain_spans rest.now)) }
{
    match span {
        SynSpan::One(_) => {}
        SynSpan::Range(_, _, par) => check_range_par(lanes && !has_range(rest), *par, finding),
    }
}

pub(crate) fn check_spans(scope: &Scope, lanes: bool, spans: &[SynSpan], finding: &mut Finding)
    ensures { finding.new.first ≡ notes finding.old.first (spec.spans_refusals (visible_of scope.now) lanes (plain_spans spans.now)) }
{
    for (i, span) in spans.iter().enumerate() {
        check_span(scope, span, finding);
        check_span_par(lanes, span, &spans[i + 1..], finding);
    }
}

/// How many of the spans are ranges.
pub(crate) fn range_count(spans: &[SynSpan]) -> usize
    ensures { result ≡ spec.range_count (plain_spans spans.now) }
{
    spans.iter().filter(|span| is_range(span)).count()
}

fn ends_in_range(spans: &[SynSpan]) -> bool
    ensures { result ≡ spec.ends_in_range (plain_spans spans.now) }
{
    match spans.last() {
        Some(span) => is_range(span),
        None => false,
    }
}

/// The ranges of a line buffer's slice: 0 where the only one isn't the last span.
pub(crate) fn line_ranges(spans: &[SynSpan]) -> usize
    ensures { result ≡ spec.line_ranges (plain_spans spans.now) }
{
    let ranges = range_count(spans);
    if ranges == 1 && !ends_in_range(spans) {
        0
    } else {
        ranges
    }
}

/// Whether a combiner takes numbers alone.
fn combines_numbers(op: BinOp) -> bool
    ensures { result ≡ spec.combines_numbers op }
{
    match op {
        BinOp::And | BinOp::Or | BinOp::Xor => false,
        _ => true,
    }
}

fn is_bit_type(ty: Option<Ty>) -> bool
    ensures { result ≡ spec.is_bit_type ty }
{
    match ty {
        Some(Ty::Bit) => true,
        _ => false,
    }
}

/// A name after `=>` that isn't the one before it.
fn check_arg(param: &Ident, arg: &Ident, finding: &mut Finding)
    ensures { finding.new.first ≡ notes finding.old.first (spec.other_name (plain_ident param.now) (plain_ident arg.now)) }
{
    let same = arg.text.as_str() == param.text.as_str();
    finding.note_if(!same, arg.at, Rule::Misused);
}

#[tactic(auto, using(crate::proofs::FindingLemmas::notes_append, crate::proofs::FindingLemmas::notes_none))]
fn check_args(params: &Option<(Ident, Ident)>, args: &Option<(Ident, Ident)>, finding: &mut Finding)
    ensures { finding.new.first ≡ notes finding.old.first (spec.comb_names (plain_names params.now) (plain_names args.now)) }
{
    match (params, args) {
        (Some(params), Some(args)) => {
            check_arg(&params.0, &args.0, finding);
            check_arg(&params.1, &args.1, finding);
        }
        _ => {}
    }
}

/// A combiner, by the type of the accumulator.
#[tactic(auto, using(crate::proofs::FindingLemmas::notes_append))]
pub(crate) fn check_comb(ty: Option<Ty>, comb: &SynComb, finding: &mut Finding)
    ensures { finding.new.first ≡ notes finding.old.first (spec.comb_refusals ty (plain_comb comb.now)) }
{
    let wrong = combines_numbers(comb.op) && is_bit_type(ty);
    finding.note_if(wrong, comb.at, Rule::Misused);
    check_args(&comb.params, &comb.args, finding);
}
