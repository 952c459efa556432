//! Statements that are neither controllers nor transfers.
ghost use Rattle.std.specs.Prelude.{◌≡◌, ℕ, map, Ok};
ghost use Rattle.sp_tree.specs.Plain.{plain_expr, plain_exprs, plain_mem};
ghost use Rattle.sp_tree.specs.PlainStatement as plain;
ghost use Rattle.sp_tree.specs.Sequential.{run_kind};
ghost use Rattle.sp_tree.specs.Typing.{with_mem, with_val};
ghost use Rattle.sp_seq.specs.Running.{CanRun, Finished};
ghost use Rattle.sp_seq.specs.States.{store_of};

use crate::element::place;
use crate::state::{State, Stop};
use sp_tree::{Expr, FaultKind, MemDecl};

impl State {
    /// A memory begins.
    pub(crate) fn declare(&mut self, decls: &[MemDecl], memory: u32)
        requires { CanRun (map plain_mem decls.now) (plain.declare memory) self.old }
        ensures { (at : ℕ) (can : CanRun (map plain_mem decls.now) (plain.declare memory) self.old)
            → Finished (map plain_mem decls.now) can.setting.roomy (with_mem can.setting.scope memory) self.old (run_kind (map plain_mem decls.now) can.setting.roomy (plain.declare memory) at self.old.left (store_of self.old)) (Ok tt) self.new }
    {
        self.begin(memory, decls[memory as usize].start);
    }

    /// A value stands for the word of an expression.
    pub(crate) fn name_word(&mut self, decls: &[MemDecl], value: u32, e: &Expr) -> Result<(), Stop>
        requires { CanRun (map plain_mem decls.now) (plain.name value (plain_expr e.now)) self.old }
        ensures { (at : ℕ) (can : CanRun (map plain_mem decls.now) (plain.name value (plain_expr e.now)) self.old)
            → Finished (map plain_mem decls.now) can.setting.roomy (with_val can.setting.scope value e.now.ty) self.old (run_kind (map plain_mem decls.now) can.setting.roomy (plain.name value (plain_expr e.now)) at self.old.left (store_of self.old)) result self.new }
    {
        let word = self.word(decls, e)?;
        self.name(value, word);
        Ok(())
    }

    /// A register takes the word of an expression.
    pub(crate) fn set_reg(&mut self, decls: &[MemDecl], memory: u32, e: &Expr) -> Result<(), Stop>
        requires { CanRun (map plain_mem decls.now) (plain.set_reg memory (plain_expr e.now)) self.old }
        ensures { (at : ℕ) (can : CanRun (map plain_mem decls.now) (plain.set_reg memory (plain_expr e.now)) self.old)
            → Finished (map plain_mem decls.now) can.setting.roomy can.setting.scope self.old (run_kind (map plain_mem decls.now) can.setting.roomy (plain.set_reg memory (plain_expr e.now)) at self.old.left (store_of self.old)) result self.new }
    {
        let word = self.word(decls, e)?;
        self.write_cell(memory, 0, word);
        Ok(())
    }

    /// An output takes the word of an expression.
    pub(crate) fn set_out(&mut self, decls: &[MemDecl], memory: u32, e: &Expr) -> Result<(), Stop>
        requires { CanRun (map plain_mem decls.now) (plain.set_out memory (plain_expr e.now)) self.old }
        ensures { (at : ℕ) (can : CanRun (map plain_mem decls.now) (plain.set_out memory (plain_expr e.now)) self.old)
            → Finished (map plain_mem decls.now) can.setting.roomy can.setting.scope self.old (run_kind (map plain_mem decls.now) can.setting.roomy (plain.set_out memory (plain_expr e.now)) at self.old.left (store_of self.old)) result self.new }
    {
        let word = self.word(decls, e)?;
        self.write_word(memory, 0, word);
        Ok(())
    }

    /// An element of an SRAM takes the word of an expression.
    pub(crate) fn set_sram(
        &mut self,
        decls: &[MemDecl],
        memory: u32,
        indices: &[Expr],
        e: &Expr,
        at: u32,
    ) -> Result<(), Stop>
        requires { CanRun (map plain_mem decls.now) (plain.set_sram memory (plain_exprs indices.now) (plain_expr e.now)) self.old }
        ensures { (can : CanRun (map plain_mem decls.now) (plain.set_sram memory (plain_exprs indices.now) (plain_expr e.now)) self.old)
            → Finished (map plain_mem decls.now) can.setting.roomy can.setting.scope self.old (run_kind (map plain_mem decls.now) can.setting.roomy (plain.set_sram memory (plain_exprs indices.now) (plain_expr e.now)) at self.old.left (store_of self.old)) result self.new }
    {
        let mut found = [0; 3];
        self.words(decls, indices, &mut found)?;
        let word = self.word(decls, e)?;
        match place(&decls[memory as usize].dims, &found[..indices.len()]) {
            Some(k) => self.write_cell(memory, k, word),
            None => return Err(Stop::Fault(FaultKind::Bounds, at)),
        }
        Ok(())
    }

    /// The word of an expression enters a FIFO.
    pub(crate) fn enqueue_word(
        &mut self,
        decls: &[MemDecl],
        memory: u32,
        e: &Expr,
        at: u32,
    ) -> Result<(), Stop>
        requires { CanRun (map plain_mem decls.now) (plain.enq memory (plain_expr e.now)) self.old }
        ensures { (can : CanRun (map plain_mem decls.now) (plain.enq memory (plain_expr e.now)) self.old)
            → Finished (map plain_mem decls.now) can.setting.roomy can.setting.scope self.old (run_kind (map plain_mem decls.now) can.setting.roomy (plain.enq memory (plain_expr e.now)) at self.old.left (store_of self.old)) result self.new }
    {
        let word = self.word(decls, e)?;
        self.enqueue(memory, word, at)
    }
}
