//! The refusals of transfers.

ghost use Rattle.std.specs.Prelude.{◌≡◌, ◌++◌, length, map, None, Some};
ghost use Rattle.std.specs.Option.{option_map};
ghost use Rattle.sp_reader.specs.Plain.{plain_expr, plain_ident};
ghost use Rattle.sp_reader.specs.PlainProgram.{plain_spans};
ghost use Rattle.sp_reader.specs.PlainStatement as tree;
ghost use Rattle.sp_types.specs.First.{notes};
ghost use Rattle.sp_types.specs.Plain.{visible_of};
ghost use Rattle.sp_types.specs.Statements as spec;
ghost use Rattle.sp_types.specs.Visible.{symbol_of};

use crate::expression::{check_name, is_kind, may_be};
use crate::refusal::{Finding, Found, Rule};
use crate::scope::{Scope, Symbol};
use crate::simple::check_kind_use;
use crate::span::{check_bound, check_spans, line_ranges, range_count};
use crate::types::{is_type, name_type};
use sp_reader::{Ident, SynExpr, SynSpan};
use sp_words::{Kind, Ty};

/// The type of a memory of a kind.
fn type_if(scope: &Scope, kind: Kind, name: &str) -> Option<Ty>
    ensures { result ≡ spec.type_if kind (symbol_of (visible_of scope.now) name.now) }
{
    if may_be(scope, kind, name) {
        name_type(scope, name)
    } else {
        None
    }
}

/// The type of what may be loaded.
fn loaded_type(scope: &Scope, name: &str) -> Option<Ty>
    ensures { result ≡ spec.loaded_type (symbol_of (visible_of scope.now) name.now) }
{
    if may_be(scope, Kind::Sram, name) || may_be(scope, Kind::LineBuf, name) {
        name_type(scope, name)
    } else {
        None
    }
}

/// The number of dimensions of a memory of a kind.
fn rank_if(scope: &Scope, kind: Kind, name: &str) -> Option<usize>
    ensures { result ≡ spec.rank_if kind (symbol_of (visible_of scope.now) name.now) }
{
    match scope.find(name) {
        Some(
            Symbol::Memory {
                kind: other,
                dims,
                ..
            },
        ) => {
            if is_kind(kind, *other) {
                Some(dims.len())
            } else {
                None
            }
        }
        Some(Symbol::Value(_)) => None,
        Some(Symbol::Counter) => None,
        None => None,
    }
}

/// The memory on the chip and the DRAM have one type.
#[tactic(auto, using(crate::proofs::FindingLemmas::notes_none))]
fn check_types(want: Option<Ty>, got: Option<Ty>, at: u32, finding: &mut Finding)
    ensures { finding.new.first ≡ notes finding.old.first (spec.types_differ want got at) }
{
    let Some(want) = want else {
        return;
    };
    let Some(got) = got else {
        return;
    };
    let rule = Rule::TypeClash {
        want,
        got: Found::Typed(got),
    };
    finding.note_if(!is_type(want, got), at, rule);
}

/// Another number than a memory's, if its number is known.
#[tactic(auto, using(crate::proofs::FindingLemmas::notes_none))]
fn check_count(at: u32, want: Option<usize>, got: usize, finding: &mut Finding)
    ensures { finding.new.first ≡ notes finding.old.first (spec.count_if at want got) }
{
    match want {
        Some(want) => finding.note_count(at, want, got),
        None => {}
    }
}

/// That a memory has one dimension.
#[tactic(auto, using(crate::proofs::FindingLemmas::notes_none))]
fn check_one_row(at: u32, rank: Option<usize>, finding: &mut Finding)
    ensures { finding.new.first ≡ notes finding.old.first (spec.one_row at rank) }
{
    match rank {
        Some(rank) => finding.note_count(at, 1, rank),
        None => {}
    }
}

/// What is loaded: an SRAM or a line buffer.
#[tactic(auto, using(crate::proofs::FindingLemmas::notes_append))]
fn check_loaded(scope: &Scope, name: &Ident, finding: &mut Finding)
    ensures { finding.new.first ≡ notes finding.old.first (spec.loaded_use (visible_of scope.now) (plain_ident name.now)) }
{
    check_name(scope, name, finding);
    let wrong = !(may_be(scope, Kind::Sram, &name.text)
        || may_be(scope, Kind::LineBuf, &name.text));
    finding.note_if(wrong, name.at, Rule::Misused);
}

/// The types and the numbers of spans and ranges of a load.
#[tactic(auto, using(crate::proofs::FindingLemmas::notes_append, crate::proofs::SpanLemmas::span_count))]
fn check_load_parts(
    scope: &Scope,
    at: u32,
    onto: &Ident,
    from: &Ident,
    spans: &[SynSpan],
    finding: &mut Finding,
)
    ensures { finding.new.first ≡ notes finding.old.first (spec.load_refusals at onto.now.at (symbol_of (visible_of scope.now) (plain_ident onto.now).text) (symbol_of (visible_of scope.now) (plain_ident from.now).text) (plain_spans spans.now)) }
{
    let want = type_if(scope, Kind::Dram, &from.text);
    check_types(want, loaded_type(scope, &onto.text), onto.at, finding);
    check_count(
        at,
        rank_if(scope, Kind::Dram, &from.text),
        spans.len(),
        finding,
    );
    check_count(
        at,
        rank_if(scope, Kind::Sram, &onto.text),
        range_count(spans),
        finding,
    );
    check_line(
        at,
        rank_if(scope, Kind::LineBuf, &onto.text),
        spans,
        finding,
    );
}

/// That a line buffer's slice has one range, at its end.
#[tactic(auto, using(crate::proofs::FindingLemmas::notes_none))]
fn check_line(at: u32, rank: Option<usize>, spans: &[SynSpan], finding: &mut Finding)
    ensures { finding.new.first ≡ notes finding.old.first (spec.line_range at rank (plain_spans spans.now)) }
{
    match rank {
        Some(_) => finding.note_count(at, 1, line_ranges(spans)),
        None => {}
    }
}

/// The types and the numbers of spans and ranges of a store.
#[tactic(auto, using(crate::proofs::FindingLemmas::notes_append, crate::proofs::SpanLemmas::span_count))]
fn check_store_parts(
    scope: &Scope,
    at: u32,
    onto: &Ident,
    from: &Ident,
    spans: &[SynSpan],
    finding: &mut Finding,
)
    ensures { finding.new.first ≡ notes finding.old.first (spec.store_refusals at from.now.at (symbol_of (visible_of scope.now) (plain_ident from.now).text) (symbol_of (visible_of scope.now) (plain_ident onto.now).text) (plain_spans spans.now)) }
{
    let want = type_if(scope, Kind::Dram, &onto.text);
    check_types(
        want,
        type_if(scope, Kind::Sram, &from.text),
        from.at,
        finding,
    );
    check_count(
        at,
        rank_if(scope, Kind::Dram, &onto.text),
        spans.len(),
        finding,
    );
    check_count(
        at,
        rank_if(scope, Kind::Sram, &from.text),
        range_count(spans),
        finding,
    );
}

#[tactic(auto, using(crate::proofs::FindingLemmas::notes_append))]
pub(crate) fn check_load(
    scope: &Scope,
    at: u32,
    onto: &Ident,
    from: &Ident,
    spans: &[SynSpan],
    finding: &mut Finding,
)
    ensures { finding.new.first ≡ notes finding.old.first (spec.stmt_refusals (visible_of scope.now) at (tree.load (plain_ident onto.now) (plain_ident from.now) (plain_spans spans.now))) }
{
    check_loaded(scope, onto, finding);
    check_kind_use(scope, Kind::Dram, from, finding);
    check_load_parts(scope, at, onto, from, spans, finding);
    check_spans(scope, may_be(scope, Kind::Sram, &onto.text), spans, finding);
}

#[tactic(auto, using(crate::proofs::FindingLemmas::notes_append))]
pub(crate) fn check_store(
    scope: &Scope,
    at: u32,
    onto: &Ident,
    spans: &[SynSpan],
    from: &Ident,
    finding: &mut Finding,
)
    ensures { finding.new.first ≡ notes finding.old.first (spec.stmt_refusals (visible_of scope.now) at (tree.store (plain_ident onto.now) (plain_spans spans.now) (plain_ident from.now))) }
{
    check_kind_use(scope, Kind::Dram, onto, finding);
    check_kind_use(scope, Kind::Sram, from, finding);
    check_store_parts(scope, at, onto, from, spans, finding);
    check_spans(scope, may_be(scope, Kind::Sram, &from.text), spans, finding);
}

/// The memory on the chip and the DRAM have one type, and the places are of type `Int`.
#[tactic(auto, using(crate::proofs::FindingLemmas::notes_append))]
fn check_sparse_types(
    scope: &Scope,
    chip: &Ident,
    outer: &Ident,
    places: &Ident,
    finding: &mut Finding,
)
    ensures { finding.new.first ≡ notes finding.old.first (spec.sparse_types chip.now.at places.now.at (symbol_of (visible_of scope.now) (plain_ident chip.now).text) (symbol_of (visible_of scope.now) (plain_ident outer.now).text) (symbol_of (visible_of scope.now) (plain_ident places.now).text)) }
{
    let want = type_if(scope, Kind::Dram, &outer.text);
    check_types(
        want,
        type_if(scope, Kind::Sram, &chip.text),
        chip.at,
        finding,
    );
    let got = type_if(scope, Kind::Sram, &places.text);
    check_types(Some(Ty::int()), got, places.at, finding);
}

/// That three memories have one dimension each, in the order of the text.
#[tactic(auto, using(crate::proofs::FindingLemmas::notes_append))]
fn check_rows(
    at: u32,
    first: Option<usize>,
    second: Option<usize>,
    third: Option<usize>,
    finding: &mut Finding,
)
    ensures { finding.new.first ≡ notes finding.old.first (spec.rows at first second third) }
{
    check_one_row(at, first, finding);
    check_one_row(at, second, finding);
    check_one_row(at, third, finding);
}

#[tactic(auto, using(crate::proofs::FindingLemmas::notes_append))]
pub(crate) fn check_gather(
    scope: &Scope,
    at: u32,
    onto: &Ident,
    from: &Ident,
    places: &Ident,
    count: &SynExpr,
    finding: &mut Finding,
)
    ensures { finding.new.first ≡ notes finding.old.first (spec.stmt_refusals (visible_of scope.now) at (tree.gather (plain_ident onto.now) (plain_ident from.now) (plain_ident places.now) (plain_expr count.now))) }
{
    check_kind_use(scope, Kind::Sram, onto, finding);
    check_kind_use(scope, Kind::Dram, from, finding);
    check_kind_use(scope, Kind::Sram, places, finding);
    let chip = rank_if(scope, Kind::Sram, &onto.text);
    let outer = rank_if(scope, Kind::Dram, &from.text);
    check_rows(
        at,
        chip,
        outer,
        rank_if(scope, Kind::Sram, &places.text),
        finding,
    );
    check_sparse_types(scope, onto, from, places, finding);
    check_bound(scope, count, finding);
}

#[tactic(auto, using(crate::proofs::FindingLemmas::notes_append))]
pub(crate) fn check_scatter(
    scope: &Scope,
    at: u32,
    onto: &Ident,
    places: &Ident,
    count: &SynExpr,
    from: &Ident,
    finding: &mut Finding,
)
    ensures { finding.new.first ≡ notes finding.old.first (spec.stmt_refusals (visible_of scope.now) at (tree.scatter (plain_ident onto.now) (plain_ident places.now) (plain_expr count.now) (plain_ident from.now))) }
{
    check_kind_use(scope, Kind::Dram, onto, finding);
    check_kind_use(scope, Kind::Sram, places, finding);
    check_kind_use(scope, Kind::Sram, from, finding);
    let outer = rank_if(scope, Kind::Dram, &onto.text);
    let index = rank_if(scope, Kind::Sram, &places.text);
    check_rows(
        at,
        outer,
        index,
        rank_if(scope, Kind::Sram, &from.text),
        finding,
    );
    check_sparse_types(scope, from, onto, places, finding);
    check_bound(scope, count, finding);
}
