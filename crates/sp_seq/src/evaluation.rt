//! The words of expressions.
ghost use Rattle.std.specs.Prelude.{◌≡◌, ℕ, ◌<◌, ◌≤◌, map, length, take, All, IfOk, OnOk, Result};
ghost use Rattle.sp_words.specs.declared.types.Ty.{Ty};
ghost use Rattle.sp_words.specs.Interface.{word_count};
ghost use Rattle.sp_words.specs.Types.{int_type};
ghost use Rattle.sp_words.specs.Words.{IsWord};
ghost use Rattle.sp_tree.specs.Expressions as expressions;
ghost use Rattle.sp_tree.specs.Plain.{plain_expr, plain_exprs, plain_mem};
ghost use Rattle.sp_tree.specs.PlainExpression as plain;
ghost use Rattle.sp_seq.specs.Evaluating.{CanEval, CanEvalAll, placed, with_answer};
ghost use Rattle.sp_seq.specs.States.{store_of, Ran, Keeps};

use crate::element::place;
use crate::operators::{chosen, one_word, shifted, two_word};
use crate::state::{State, Stop};
use sp_tree::{Expr, ExprKind, FaultKind, MemDecl};

impl State {
    /// The word of an expression: its operands from left to right, then its operator.
    #[cycle(evaluation)]
    pub(crate) fn word(&mut self, decls: &[MemDecl], e: &Expr) -> Result<u64, Stop>
        requires { CanEval (map plain_mem decls.now) (plain_expr e.now) self.old }
        ensures ran { Ran (expressions.word (map plain_mem decls.now) (plain_expr e.now) self.old.left (store_of self.old)) result self.new }
        ensures keeps { OnOk result (Keeps self.old self.new) }
        ensures fits { IfOk result (λ w. IsWord e.now.ty w) }
    {
        match &e.kind {
            ExprKind::Lit(word) => Ok(*word),
            ExprKind::Count(counter) => Ok(self.counts[counter.number() as usize]),
            ExprKind::Val(value) => Ok(self.values[value.number() as usize]),
            ExprKind::GetReg(port) => self.read_cell(port.number(), 0, e.at),
            ExprKind::GetArg(port) => Ok(self.read_word(port.number(), 0)),
            ExprKind::GetSram(port, indices) => {
                let at = self.element(decls, port.number(), indices, e.at)?;
                self.read_cell(port.number(), at, e.at)
            }
            ExprKind::GetLine(port, row, column) => {
                let r = self.word(decls, row)?;
                let c = self.word(decls, column)?;
                let m = port.number();
                match place(&decls[m as usize].dims, &[r, c]) {
                    Some(_) => self.read_line(m, r as usize, c as usize, e.at),
                    None => Err(Stop::Fault(FaultKind::Bounds, e.at)),
                }
            }
            ExprKind::Deq(port) => self.dequeue(port.number(), e.at),
            ExprKind::One(op, a) => {
                let x = self.word(decls, a)?;
                Ok(one_word(*op, e.ty, x))
            }
            ExprKind::Two(op, a, b) => {
                let x = self.word(decls, a)?;
                let y = self.word(decls, b)?;
                Ok(two_word(*op, a.ty, x, y))
            }
            ExprKind::Shift(left, a, by) => {
                let x = self.word(decls, a)?;
                Ok(shifted(*left, e.ty, x, *by))
            }
            ExprKind::Mux(c, a, b) => {
                let x = self.word(decls, c)?;
                let y = self.word(decls, a)?;
                let z = self.word(decls, b)?;
                Ok(chosen(x, y, z))
            }
            ExprKind::Cast(a) => {
                let x = self.word(decls, a)?;
                Ok(sp_words::cast(a.ty, e.ty, x))
            }
        }
    }

    /// The place of the element of an SRAM at these indices, each of which is inside of its dimension.
    #[cycle(evaluation)]
    fn element(
        &mut self,
        decls: &[MemDecl],
        memory: u32,
        indices: &[Expr],
        at: u32,
    ) -> Result<usize, Stop>
        requires { (ty : Ty) × CanEval (map plain_mem decls.now) (plain.expr at ty (plain.get_sram memory (plain_exprs indices.now))) self.old }
        ensures ran { Ran (placed (map plain_mem decls.now) memory at (plain_exprs indices.now) self.old.left (store_of self.old)) result self.new }
        ensures keeps { OnOk result (Keeps self.old self.new) }
        ensures inside { IfOk result (λ k. k < word_count (expressions.dims (map plain_mem decls.now) memory)) }
    {
        let mut found = [0; 3];
        self.words(decls, indices, &mut found)?;
        match place(&decls[memory as usize].dims, &found[..indices.len()]) {
            Some(k) => Ok(k),
            None => Err(Stop::Fault(FaultKind::Bounds, at)),
        }
    }

    /// The words of expressions, from left to right.
    #[cycle(evaluation)]
    pub(crate) fn words(
        &mut self,
        decls: &[MemDecl],
        all: &[Expr],
        found: &mut [u64],
    ) -> Result<(), Stop>
        requires few { length all.now ≤ length found.old }
        requires can { CanEvalAll (map plain_mem decls.now) (plain_exprs all.now) self.old }
        ensures ran { Ran (expressions.words (map plain_mem decls.now) (plain_exprs all.now) self.old.left (store_of self.old)) (with_answer (take (length all.now) found.new) result) self.new }
        ensures keeps { OnOk result (Keeps self.old self.new) }
        ensures fits { OnOk result (All (IsWord int_type) (take (length all.now) found.new)) }
    {
        for (k, e) in all.iter().enumerate() {
            let word = self.word(decls, e)?;
            found[k] = word;
        }
        Ok(())
    }
}
