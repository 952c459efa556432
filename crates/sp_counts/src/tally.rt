//! What stands in expressions, and in statements that are neither controllers nor transfers.

ghost use Rattle.std.specs.Prelude.{◌≡◌, ◌+◌, ◌++◌, [], ◌∷◌, map, OnOk, IfOk};
ghost use Rattle.sp_tree.specs.Plain.{plain_expr, plain_exprs};
ghost use Rattle.sp_tree.specs.PlainTree.{plain_span, plain_stmt_kind};
ghost use Rattle.sp_tree.specs.Tallies.{nothing, an_operation, a_read, a_write, a_put, a_take, tally, tallies, span_tally, slice_tally, uses_of};
ghost use Rattle.sp_counts.specs.Tallies.{tally_of, an_expression, is_primitive, primitive_tally, Grows};

use crate::NoMemory;
use sp_tree::{Expr, ExprKind, Span, StmtKind};
use std::alloc::{AllocError, Global};

/// How many expressions and operations there are; the memories that are read, written, put into and taken from, each
/// as often as it is; and whether an SRAM or a line buffer is read.
#[derive(Debug, Drop)]
pub(crate) struct Tally {
    pub(crate) nodes: u64,
    pub(crate) operations: u64,
    pub(crate) reads: Vec<u32>,
    pub(crate) writes: Vec<u32>,
    pub(crate) puts: Vec<u32>,
    pub(crate) takes: Vec<u32>,
    pub(crate) arrays: bool,
}

/// One more. There are never as many as a `u64` has numbers, since each lies in memory.
fn one_more(n: u64) -> Result<u64, NoMemory>
    ensures { IfOk result (λ m. m ≡ n + 1) }
{
    n.checked_add(1).ok_or(AllocError)
}

fn sum(a: u64, b: u64) -> Result<u64, NoMemory>
    ensures { IfOk result (λ m. m ≡ a + b) }
{
    a.checked_add(b).ok_or(AllocError)
}

impl Tally {
    /// Of nothing.
    pub(crate) fn new(alloc: Global) -> Tally
        ensures { tally_of result ≡ nothing }
    {
        Tally {
            nodes: 0,
            operations: 0,
            reads: Vec::new(alloc),
            writes: Vec::new(alloc),
            puts: Vec::new(alloc),
            takes: Vec::new(alloc),
            arrays: false,
        }
    }

    fn enter(&mut self) -> Result<(), NoMemory>
        ensures { OnOk result (Grows self.old self.new an_expression) }
    {
        self.nodes = one_more(self.nodes)?;
        Ok(())
    }

    fn operate(&mut self) -> Result<(), NoMemory>
        ensures { OnOk result (Grows self.old self.new an_operation) }
    {
        self.operations = one_more(self.operations)?;
        Ok(())
    }

    fn read(&mut self, array: bool, m: u32) -> Result<(), NoMemory>
        ensures { OnOk result (Grows self.old self.new (a_read array m)) }
    {
        self.operations = one_more(self.operations)?;
        self.reads.push(m)?;
        self.arrays = self.arrays || array;
        Ok(())
    }

    /// Adds a write of a memory.
    pub(crate) fn write(&mut self, m: u32) -> Result<(), NoMemory>
        ensures { OnOk result (Grows self.old self.new (a_write m)) }
    {
        self.operations = one_more(self.operations)?;
        self.writes.push(m)?;
        Ok(())
    }

    fn put(&mut self, m: u32) -> Result<(), NoMemory>
        ensures { OnOk result (Grows self.old self.new (a_put m)) }
    {
        self.operations = one_more(self.operations)?;
        self.puts.push(m)?;
        Ok(())
    }

    fn take(&mut self, m: u32) -> Result<(), NoMemory>
        ensures { OnOk result (Grows self.old self.new (a_take m)) }
    {
        self.operations = one_more(self.operations)?;
        self.takes.push(m)?;
        Ok(())
    }

    /// Adds an expression, with its operands.
    #[cycle(add_expr)]
    pub(crate) fn add_expr(&mut self, e: &Expr) -> Result<(), NoMemory>
        ensures { OnOk result (Grows self.old self.new (tally (plain_expr e.now))) }
    {
        self.enter()?;
        match &e.kind {
            ExprKind::Lit(_) => Ok(()),
            ExprKind::Count(_) => Ok(()),
            ExprKind::Val(_) => Ok(()),
            ExprKind::GetReg(m) => self.read(false, m.number()),
            ExprKind::GetArg(m) => self.read(false, m.number()),
            ExprKind::GetSram(m, indices) => {
                self.add_exprs(indices)?;
                self.read(true, m.number())
            }
            ExprKind::GetLine(m, row, column) => {
                self.add_expr(row)?;
                self.add_expr(column)?;
                self.read(true, m.number())
            }
            ExprKind::Deq(m) => self.take(m.number()),
            ExprKind::One(_, a) => {
                self.add_expr(a)?;
                self.operate()
            }
            ExprKind::Two(_, a, b) => {
                self.add_expr(a)?;
                self.add_expr(b)?;
                self.operate()
            }
            ExprKind::Shift(_, a, _) => {
                self.add_expr(a)?;
                self.operate()
            }
            ExprKind::Mux(test, a, b) => {
                self.add_expr(test)?;
                self.add_expr(a)?;
                self.add_expr(b)?;
                self.operate()
            }
            ExprKind::Cast(a) => {
                self.add_expr(a)?;
                self.operate()
            }
        }
    }

    #[cycle(add_expr)]
    fn add_exprs(&mut self, all: &[Expr]) -> Result<(), NoMemory>
        ensures { OnOk result (Grows self.old self.new (tallies (plain_exprs all.now))) }
    {
        for e in all {
            self.add_expr(e)?;
        }
        Ok(())
    }

    fn add_span(&mut self, span: &Span) -> Result<(), NoMemory>
        ensures { OnOk result (Grows self.old self.new (span_tally (plain_span span.now))) }
    {
        match span {
            Span::One(e) => self.add_expr(e),
            Span::Range(from, until, _) => {
                self.add_expr(from)?;
                self.add_expr(until)
            }
        }
    }

    /// Adds the spans of a slice.
    pub(crate) fn add_slice(&mut self, spans: &[Span]) -> Result<(), NoMemory>
        ensures { OnOk result (Grows self.old self.new (slice_tally (map plain_span spans.now))) }
    {
        for span in spans {
            self.add_span(span)?;
        }
        Ok(())
    }

    /// Adds a statement, and nothing for a controller or a transfer.
    #[tactic(auto, using(crate::proofs::TreeLemmas::control_has_none))]
    pub(crate) fn add_primitive(&mut self, kind: &StmtKind) -> Result<(), NoMemory>
        ensures { OnOk result (Grows self.old self.new (primitive_tally (plain_stmt_kind kind.now))) }
    {
        match kind {
            StmtKind::Let(_, e) => self.add_expr(e),
            StmtKind::SetReg(m, e) => {
                self.add_expr(e)?;
                self.write(m.number())
            }
            StmtKind::SetOut(m, e) => {
                self.add_expr(e)?;
                self.write(m.number())
            }
            StmtKind::SetSram(m, indices, e) => {
                self.add_exprs(indices)?;
                self.add_expr(e)?;
                self.write(m.number())
            }
            StmtKind::Enq(m, e) => {
                self.add_expr(e)?;
                self.put(m.number())
            }
            StmtKind::Declare(_) => Ok(()),
            StmtKind::LoadSram(_, _, _) => Ok(()),
            StmtKind::LoadLine(_, _, _) => Ok(()),
            StmtKind::Store(_, _, _) => Ok(()),
            StmtKind::Gather(_, _, _, _) => Ok(()),
            StmtKind::Scatter(_, _, _, _) => Ok(()),
            StmtKind::Control(_) => Ok(()),
        }
    }

    /// Adds what another has.
    pub(crate) fn add(&mut self, other: &Tally) -> Result<(), NoMemory>
        ensures { OnOk result (Grows self.old self.new (tally_of other.now)) }
    {
        self.nodes = sum(self.nodes, other.nodes)?;
        self.operations = sum(self.operations, other.operations)?;
        self.reads.extend_from_slice(&other.reads)?;
        self.writes.extend_from_slice(&other.writes)?;
        self.puts.extend_from_slice(&other.puts)?;
        self.takes.extend_from_slice(&other.takes)?;
        self.arrays = self.arrays || other.arrays;
        Ok(())
    }

    /// Of an expression.
    pub(crate) fn of_expr(alloc: Global, e: &Expr) -> Result<Tally, NoMemory>
        ensures { IfOk result (λ t. tally_of t ≡ tally (plain_expr e.now)) }
    {
        let mut t = Tally::new(alloc);
        t.add_expr(e)?;
        Ok(t)
    }

    /// Of the spans of a slice.
    pub(crate) fn of_slice(alloc: Global, spans: &[Span]) -> Result<Tally, NoMemory>
        ensures { IfOk result (λ t. tally_of t ≡ slice_tally (map plain_span spans.now)) }
    {
        let mut t = Tally::new(alloc);
        t.add_slice(spans)?;
        Ok(t)
    }

    /// The memories that are used in any way, after those that are there.
    pub(crate) fn add_uses(&self, into: &mut Vec<u32>) -> Result<(), NoMemory>
        ensures { OnOk result (into.new.items ≡ into.old.items ++ uses_of (tally_of self.now)) }
    {
        into.extend_from_slice(&self.reads)?;
        into.extend_from_slice(&self.writes)?;
        into.extend_from_slice(&self.puts)?;
        into.extend_from_slice(&self.takes)
    }
}

/// Whether a statement is neither a controller nor a transfer.
#[tactic(auto, using(crate::proofs::TreeLemmas::control_is_other))]
pub(crate) fn is_primitive(kind: &StmtKind) -> bool
    ensures { result ≡ is_primitive (plain_stmt_kind kind.now) }
{
    match kind {
        StmtKind::Declare(_) => true,
        StmtKind::Let(_, _) => true,
        StmtKind::SetReg(_, _) => true,
        StmtKind::SetOut(_, _) => true,
        StmtKind::SetSram(_, _, _) => true,
        StmtKind::Enq(_, _) => true,
        StmtKind::LoadSram(_, _, _) => false,
        StmtKind::LoadLine(_, _, _) => false,
        StmtKind::Store(_, _, _) => false,
        StmtKind::Gather(_, _, _, _) => false,
        StmtKind::Scatter(_, _, _, _) => false,
        StmtKind::Control(_) => false,
    }
}
