//! Runs of statements that are neither controllers nor transfers.
ghost use Rattle.std.specs.Prelude.{◌≡◌, ◌++◌, ◌∷◌, [], map, Bool, true, false, IfOk, OnOk};
ghost use Rattle.std.specs.Option.{option_map};
ghost use Rattle.sp_core.specs.Plain.{plain_op};
ghost use Rattle.sp_core.specs.Sequential.{has_reset};
ghost use Rattle.sp_tree.specs.Plain.{plain_expr, plain_exprs, plain_mem};
ghost use Rattle.sp_tree.specs.PlainTree.{plain_stmt_kind, plain_stmts};
ghost use Rattle.sp_sugar.specs.Numbers.{mem_number};
ghost use Rattle.sp_sugar.specs.Operations.{accesses};
ghost use Rattle.sp_tree.specs.Expressions.{mem};
ghost use Rattle.sp_tree.specs.PlainStatement.{set_sram};
ghost use Rattle.sp_sugar.specs.Runs.{no_run, with_ops, source_or, next_code, with_word, with_computed, with_named, with_reset, with_stmt, inner_run};
ghost use Rattle.sp_sugar.specs.Values.{with_value};
ghost use Rattle.sp_operations.specs.Running.{run_of};
ghost use Rattle.sp_operations.specs.Sources.{plain_source, sources_of};

use crate::NoMemory;
use crate::expressions::{push_code, push_codes};
use crate::numbers::{kind_of, mem_number, start_of, type_of};
use crate::operations::{accesses, push_op, write_op};
use crate::sources::{Source, set_source, stands_for};
use sp_core::{Op, OpKind};
use sp_tree::{Expr, MemDecl, Stmt, StmtKind};
use sp_words::Kind;
use std::alloc::Global;

/// What a run has so far: its operations, and where values are found in the stage at hand and in others.
#[derive(Debug, Drop)]
pub struct Run {
    pub ops: Vec<Op>,
    pub here: Vec<Source>,
    pub elsewhere: Vec<Source>,
}

/// A run at the beginning of a stage.
pub fn no_run(alloc: Global, sources: &[Source]) -> Result<Run, NoMemory>
    ensures { IfOk result (λ run. run_of run ≡ no_run (sources_of sources.now)) }
{
    Ok(Run {
        ops: Vec::new(alloc),
        here: Vec::from_slice(alloc, sources)?,
        elsewhere: Vec::from_slice(alloc, sources)?,
    })
}

/// Adds an operation.
pub fn add_op(run: &mut Run, op: Op) -> Result<(), NoMemory>
    ensures { OnOk result (run_of run.new ≡ with_ops (run_of run.old) (plain_op op ∷ [])) }
{
    let _place = push_op(&mut run.ops, op)?;
    Ok(())
}

/// Adds the operations of an expression, and tells where its word is.
pub fn add_code(alloc: Global, run: &mut Run, mems: &[MemDecl], e: &Expr) -> Result<u32, NoMemory>
    ensures run { OnOk result (run_of run.new ≡ with_ops (run_of run.old) (next_code (map plain_mem mems.now) (run_of run.old) (plain_expr e.now)).ops) }
    ensures word { IfOk result (λ place. place ≡ (next_code (map plain_mem mems.now) (run_of run.old) (plain_expr e.now)).word) }
{
    push_code(alloc, &mut run.ops, mems, &run.here, e)
}

/// The value of a number is found there.
fn set_value(run: &mut Run, v: u32, here: Source, elsewhere: Source) -> Result<(), NoMemory>
    ensures { OnOk result (run_of run.new ≡ record (run_of run.old) { values = with_value (run_of run.old).values v (plain_source here) (plain_source elsewhere) }) }
{
    set_source(&mut run.here, v, here)?;
    set_source(&mut run.elsewhere, v, elsewhere)?;
    Ok(())
}

fn source_or(source: Option<Source>, other: Source) -> Source
    ensures { plain_source result ≡ source_or (option_map plain_source source) (plain_source other) }
{
    match source {
        Some(source) => source,
        None => other,
    }
}

/// Adds a value that has operations, with its register where it crosses.
fn add_computed(
    alloc: Global,
    run: &mut Run,
    mems: &[MemDecl],
    v: u32,
    e: &Expr,
    register: Option<u32>,
) -> Result<(), NoMemory>
    ensures { OnOk result (run_of run.new ≡ with_computed (map plain_mem mems.now) (run_of run.old) v (plain_expr e.now) register) }
{
    let place = add_code(alloc, run, mems, e)?;
    match register {
        Some(r) => {
            add_op(run, write_op(e.ty, r, vec![in alloc; place]?))?;
            set_value(run, v, Source::AtPlace(place), Source::InRegister(r))
        }
        None => set_value(run, v, Source::AtPlace(place), Source::AtPlace(place)),
    }
}

/// Adds a value.
fn add_named(
    alloc: Global,
    run: &mut Run,
    mems: &[MemDecl],
    v: u32,
    e: &Expr,
    register: Option<u32>,
) -> Result<(), NoMemory>
    ensures { OnOk result (run_of run.new ≡ with_named (map plain_mem mems.now) (run_of run.old) v (plain_expr e.now) register) }
{
    match stands_for(&run.here, e) {
        Some(here) => {
            let elsewhere = source_or(stands_for(&run.elsewhere, e), here);
            set_value(run, v, here, elsewhere)
        }
        None => add_computed(alloc, run, mems, v, e, register),
    }
}

fn has_reset(kind: Kind, start: Option<u64>) -> bool
    ensures { result ≡ has_reset kind start }
{
    match kind {
        Kind::Fifo => true,
        Kind::Reg => start.is_some(),
        _ => false,
    }
}

/// Adds the declaration of a memory in an inner body.
fn add_reset(alloc: Global, run: &mut Run, mems: &[MemDecl], m: u32) -> Result<(), NoMemory>
    ensures { OnOk result (run_of run.new ≡ with_reset (map plain_mem mems.now) (run_of run.old) m) }
{
    if has_reset(kind_of(mems, m), start_of(mems, m)) {
        let number = mem_number(mems, m);
        return add_op(
            run,
            accesses(OpKind::Reset, type_of(mems, m), number, Vec::new(alloc)),
        );
    }
    Ok(())
}

/// Adds an operation on a memory that takes a word alone.
fn add_word(
    alloc: Global,
    run: &mut Run,
    mems: &[MemDecl],
    kind: OpKind,
    m: u32,
    e: &Expr,
) -> Result<(), NoMemory>
    ensures { OnOk result (run_of run.new ≡ with_word (map plain_mem mems.now) (run_of run.old) (plain_expr e.now) (λ w. accesses kind (mem (map plain_mem mems.now) m).ty (mem_number (map plain_mem mems.now) m) (w ∷ []))) }
{
    let place = add_code(alloc, run, mems, e)?;
    let number = mem_number(mems, m);
    add_op(
        run,
        accesses(kind, type_of(mems, m), number, vec![in alloc; place]?),
    )
}

/// Adds a write of an element.
fn add_element(
    alloc: Global,
    run: &mut Run,
    mems: &[MemDecl],
    m: u32,
    indices: &[Expr],
    e: &Expr,
) -> Result<(), NoMemory>
    ensures { OnOk result (run_of run.new ≡ with_stmt (map plain_mem mems.now) false None (run_of run.old) (set_sram m (plain_exprs indices.now) (plain_expr e.now))) }
{
    let mut places = push_codes(alloc, &mut run.ops, mems, &run.here, indices)?;
    let place = add_code(alloc, run, mems, e)?;
    places.push(place)?;
    let number = mem_number(mems, m);
    add_op(run, write_op(type_of(mems, m), number, places))
}

/// Adds a statement, in an inner body or not, with the register of its value where that crosses.
#[tactic(auto, using(crate::proofs::RunLemmas::name_adds, crate::proofs::RunLemmas::set_reg_adds, crate::proofs::RunLemmas::set_out_adds, crate::proofs::RunLemmas::set_sram_adds, crate::proofs::RunLemmas::enq_adds))]
pub fn add_stmt(
    alloc: Global,
    run: &mut Run,
    mems: &[MemDecl],
    is_inner: bool,
    register: Option<u32>,
    kind: &StmtKind,
) -> Result<(), NoMemory>
    ensures { OnOk result (run_of run.new ≡ with_stmt (map plain_mem mems.now) is_inner register (run_of run.old) (plain_stmt_kind kind.now)) }
{
    match kind {
        StmtKind::Declare(m) => {
            if is_inner {
                return add_reset(alloc, run, mems, *m);
            }
            Ok(())
        }
        StmtKind::Let(v, e) => add_named(alloc, run, mems, v.number(), e, register),
        StmtKind::SetReg(m, e) => add_word(alloc, run, mems, OpKind::Write, m.number(), e),
        StmtKind::SetOut(m, e) => add_word(alloc, run, mems, OpKind::Write, m.number(), e),
        StmtKind::SetSram(m, indices, e) => add_element(alloc, run, mems, m.number(), indices, e),
        StmtKind::Enq(m, e) => add_word(alloc, run, mems, OpKind::Enq, m.number(), e),
        StmtKind::LoadSram(_, _, _) => Ok(()),
        StmtKind::LoadLine(_, _, _) => Ok(()),
        StmtKind::Store(_, _, _) => Ok(()),
        StmtKind::Gather(_, _, _, _) => Ok(()),
        StmtKind::Scatter(_, _, _, _) => Ok(()),
        StmtKind::Control(_) => Ok(()),
    }
}

/// Adds all statements of an inner body.
pub fn add_inner(
    alloc: Global,
    run: &mut Run,
    mems: &[MemDecl],
    body: &[Stmt],
) -> Result<(), NoMemory>
    ensures { OnOk result (run_of run.new ≡ inner_run (map plain_mem mems.now) (run_of run.old) (plain_stmts body.now)) }
{
    for s in body {
        add_stmt(alloc, run, mems, true, None, &s.kind)?;
    }
    Ok(())
}
