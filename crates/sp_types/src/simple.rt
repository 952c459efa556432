//! The refusals of statements that hold no others.

ghost use Rattle.std.specs.Prelude.{◌≡◌, ◌++◌, length, OnOk, None, Some};
ghost use Rattle.sp_reader.specs.Plain.{plain_digits, plain_expr, plain_exprs, plain_ident, plain_lit};
ghost use Rattle.sp_reader.specs.PlainProgram.{plain_start, plain_spans};
ghost use Rattle.sp_reader.specs.PlainStatement as tree;
ghost use Rattle.sp_reader.specs.PlainTree.{row};
ghost use Rattle.sp_types.specs.First.{notes};
ghost use Rattle.sp_types.specs.Plain.{visible_of, plain_symbol};
ghost use Rattle.sp_types.specs.Statements as spec;
ghost use Rattle.sp_types.specs.Visible.{symbol_of};

use crate::expression::{
    at_type, check, check_all, check_literal, check_name, check_type, check_written, may_be,
};
use crate::own::{Ask, Own};
use crate::refusal::{Finding, Rule};
use crate::scope::{Scope, Symbol};
use crate::span::check_twice;
use crate::types::{name_type, own, own_or_int, own_type, type_of};
use sp_reader::{Digits, Ident, SynExpr, SynLit, SynTy};
use sp_words::{Kind, Ty};

/// How a word that is written is checked.
pub(crate) fn word(ty: Option<Ty>) -> Ask
    ensures { result ≡ spec.word ty }
{
    at_type(ty, false)
}

/// A name that is given, with its type.
#[tactic(auto, using(crate::proofs::FindingLemmas::notes_append))]
pub(crate) fn check_declaration(scope: &Scope, name: &Ident, ty: SynTy, finding: &mut Finding)
    ensures { finding.new.first ≡ notes finding.old.first (spec.declaration_refusals (visible_of scope.now) (plain_ident name.now) ty) }
{
    check_twice(scope, name, finding);
    check_written(ty, finding);
}

/// An initial value that is a number, alone or cast.
#[tactic(auto, using(crate::proofs::FindingLemmas::notes_append, crate::proofs::FindingLemmas::notes_none))]
fn check_number_start(ty: Option<Ty>, number: &Digits, cast: Option<SynTy>, finding: &mut Finding)
    ensures { finding.new.first ≡ notes finding.old.first (spec.number_start ty (plain_digits number.now) cast) }
{
    match cast {
        None => check_literal(number.at, ty, number, finding),
        Some(cast) => {
            check_type(number.at, ty, own_type(type_of(cast)), finding);
            check_literal(number.at, type_of(cast), number, finding);
            check_written(cast, finding);
        }
    }
}

#[tactic(auto, using(crate::proofs::FindingLemmas::notes_none))]
pub(crate) fn check_start(ty: Option<Ty>, start: &Option<SynLit>, finding: &mut Finding)
    ensures { finding.new.first ≡ notes finding.old.first (spec.start_refusals ty (plain_start start.now)) }
{
    match start {
        None => {}
        Some(SynLit::Number(number, cast)) => check_number_start(ty, number, *cast, finding),
        Some(SynLit::Truth { at, .. }) => check_type(*at, ty, Own::Known(Ty::Bit), finding),
    }
}

/// An expression that a name stands for.
#[tactic(auto, using(crate::proofs::FindingLemmas::notes_append))]
pub(crate) fn check_let(scope: &Scope, at: u32, name: &Ident, e: &SynExpr, finding: &mut Finding)
    ensures { finding.new.first ≡ notes finding.old.first (spec.stmt_refusals (visible_of scope.now) at (tree.bind (plain_ident name.now) (plain_expr e.now))) }
{
    let _at = at;
    check_twice(scope, name, finding);
    check(scope, word(own_or_int(own(scope, e))), e, finding);
}

/// Whether `:=` may write a name, if it is visible.
fn is_set(symbol: &Symbol) -> bool
    ensures { result ≡ spec.is_set (Some (plain_symbol symbol.now)) }
{
    match symbol {
        Symbol::Memory { kind, .. } => match kind {
            Kind::Reg | Kind::ArgOut | Kind::Sram => true,
            _ => false,
        },
        Symbol::Value(_) => false,
        Symbol::Counter => false,
    }
}

/// How many indices a write has, if there is one.
fn write_rank(symbol: &Symbol) -> Option<usize>
    ensures { result ≡ spec.write_rank (Some (plain_symbol symbol.now)) }
{
    match symbol {
        Symbol::Memory { kind, dims, .. } => match kind {
            Kind::Sram => Some(dims.len()),
            Kind::Reg | Kind::Fifo | Kind::ArgOut => Some(0),
            _ => None,
        },
        Symbol::Value(_) => None,
        Symbol::Counter => None,
    }
}

/// How many dimensions an SRAM has.
fn sram_rank(symbol: &Symbol) -> Option<usize>
    ensures { result ≡ spec.sram_rank (plain_symbol symbol.now) }
{
    match symbol {
        Symbol::Memory {
            kind: Kind::Sram,
            dims,
            ..
        } => Some(dims.len()),
        _ => None,
    }
}

/// A write without indices.
#[tactic(auto, using(crate::proofs::FindingLemmas::notes_none))]
fn check_bare_write(scope: &Scope, name: &Ident, finding: &mut Finding)
    ensures { finding.new.first ≡ notes finding.old.first (spec.bare_write name.now.at (symbol_of (visible_of scope.now) (plain_ident name.now).text)) }
{
    let Some(symbol) = scope.find(&name.text) else {
        return;
    };
    match sram_rank(symbol) {
        Some(rank) => finding.note_count(name.at, rank, 0),
        None => finding.note_if(!is_set(symbol), name.at, Rule::Misused),
    }
}

/// A write with so many indices.
#[tactic(auto, using(crate::proofs::FindingLemmas::notes_none))]
fn check_indexed_write(scope: &Scope, name: &Ident, got: usize, finding: &mut Finding)
    ensures { finding.new.first ≡ notes finding.old.first (spec.indexed_write name.now.at (symbol_of (visible_of scope.now) (plain_ident name.now).text) got) }
{
    let Some(symbol) = scope.find(&name.text) else {
        return;
    };
    match write_rank(symbol) {
        Some(want) => finding.note_count(name.at, want, got),
        None => finding.note_if(true, name.at, Rule::Misused),
    }
}

#[tactic(auto, using(crate::proofs::FindingLemmas::notes_append))]
pub(crate) fn check_set(scope: &Scope, at: u32, name: &Ident, e: &SynExpr, finding: &mut Finding)
    ensures { finding.new.first ≡ notes finding.old.first (spec.stmt_refusals (visible_of scope.now) at (tree.set (plain_ident name.now) (plain_expr e.now))) }
{
    let _at = at;
    check_name(scope, name, finding);
    check_bare_write(scope, name, finding);
    check(scope, word(name_type(scope, &name.text)), e, finding);
}

#[tactic(auto, using(crate::proofs::FindingLemmas::notes_append, crate::proofs::TreeLemmas::count_of_row))]
pub(crate) fn check_set_at(
    scope: &Scope,
    name: &Ident,
    indices: &[SynExpr],
    e: &SynExpr,
    finding: &mut Finding,
)
    ensures { finding.new.first ≡ notes finding.old.first (spec.set_at_refusals (visible_of scope.now) (plain_ident name.now) (row (plain_exprs indices.now)) (plain_expr e.now)) }
{
    check_name(scope, name, finding);
    check_indexed_write(scope, name, indices.len(), finding);
    check_all(scope, word(Some(Ty::int())), indices, finding);
    check(scope, word(name_type(scope, &name.text)), e, finding);
}

/// A memory of a kind, by its name.
#[tactic(auto, using(crate::proofs::FindingLemmas::notes_append))]
pub(crate) fn check_kind_use(scope: &Scope, kind: Kind, name: &Ident, finding: &mut Finding)
    ensures { finding.new.first ≡ notes finding.old.first (spec.kind_use (visible_of scope.now) kind (plain_ident name.now)) }
{
    check_name(scope, name, finding);
    finding.note_if(!may_be(scope, kind, &name.text), name.at, Rule::Misused);
}

#[tactic(auto, using(crate::proofs::FindingLemmas::notes_append))]
pub(crate) fn check_enq(scope: &Scope, at: u32, name: &Ident, e: &SynExpr, finding: &mut Finding)
    ensures { finding.new.first ≡ notes finding.old.first (spec.stmt_refusals (visible_of scope.now) at (tree.enq (plain_ident name.now) (plain_expr e.now))) }
{
    let _at = at;
    check_kind_use(scope, Kind::Fifo, name, finding);
    check(scope, word(name_type(scope, &name.text)), e, finding);
}
