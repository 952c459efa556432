//! The end of a block whose stages may run at once.
ghost use Rattle.std.specs.Prelude.{◌≡◌, ℕ, map, true, false};
ghost use Rattle.sp_words.specs.declared.kind.Style.TheVariants as styles;
ghost use Rattle.sp_tree.specs.Expressions.{mem};
ghost use Rattle.sp_tree.specs.Plain.{plain_mem};
ghost use Rattle.sp_tree.specs.PlainStatement.{declare};
ghost use Rattle.sp_tree.specs.PlainTree.{plain_stmt_kind, plain_stmts};
ghost use Rattle.sp_tree.specs.Sequential as sequential;
ghost use Rattle.sp_tree.specs.Streams.{is_fifo};
ghost use Rattle.sp_seq.specs.Ending.{CanHold, CanOwn, CanEnd, IsOver, DoesFit};
ghost use Rattle.sp_seq.specs.Slices.{RanSome};
ghost use Rattle.sp_seq.specs.States.{store_of};

use crate::memory::Storage;
use crate::sparse::size;
use crate::state::{State, Stop};
use sp_tree::{FaultKind, MemDecl, Stmt, StmtKind};

impl State {
    /// Whether a memory is a FIFO that holds more words than its depth.
    fn is_overfull(&self, decls: &[MemDecl], memory: u32) -> bool
        requires { CanHold (map plain_mem decls.now) self.now memory }
        ensures over { result ≡ true → IsOver (map plain_mem decls.now) self.now memory }
        ensures fits { result ≡ false → is_fifo (mem (map plain_mem decls.now) memory).kind ≡ true → DoesFit (map plain_mem decls.now) self.now memory }
    {
        match &self.memories[memory as usize].storage {
            Storage::Queue(queue) => queue.len() > size(decls, memory),
            Storage::Cells(_) => false,
            Storage::Rows(_) => false,
            Storage::Words(_) => false,
        }
    }

    /// Whether a statement declares such a one.
    fn owns_overfull(&self, decls: &[MemDecl], kind: &StmtKind) -> bool
        requires { CanOwn (map plain_mem decls.now) (plain_stmt_kind kind.now) self.now }
        ensures over { result ≡ true → (m : ℕ) × (plain_stmt_kind kind.now ≡ declare m) × IsOver (map plain_mem decls.now) self.now m }
        ensures fits { result ≡ false → (m : ℕ) → plain_stmt_kind kind.now ≡ declare m → is_fifo (mem (map plain_mem decls.now) m).kind ≡ true → DoesFit (map plain_mem decls.now) self.now m }
    {
        match kind {
            StmtKind::Declare(memory) => self.is_overfull(decls, *memory),
            StmtKind::Control(_) => false,
            StmtKind::Let(_, _)
            | StmtKind::SetReg(_, _)
            | StmtKind::SetOut(_, _)
            | StmtKind::SetSram(_, _, _)
            | StmtKind::Enq(_, _)
            | StmtKind::LoadSram(_, _, _)
            | StmtKind::LoadLine(_, _, _)
            | StmtKind::Store(_, _, _)
            | StmtKind::Gather(_, _, _, _)
            | StmtKind::Scatter(_, _, _, _) => false,
        }
    }

    /// The FIFOs that a `Stream` block declares hold no more words than their depth at its end. One that has no more
    /// room than its depth never does, so blocks needn't be told apart.
    pub(crate) fn end_stream(&self, decls: &[MemDecl], body: &[Stmt], at: u32) -> Result<(), Stop>
        requires { CanEnd (map plain_mem decls.now) (plain_stmts body.now) self.now }
        ensures { RanSome (sequential.end_block (map plain_mem decls.now) styles.Stream (plain_stmts body.now) at self.now.left (store_of self.now)) result self.now }
    {
        for s in body {
            if self.owns_overfull(decls, &s.kind) {
                return Err(Stop::Fault(FaultKind::FifoFull, at));
            }
        }
        Ok(())
    }
}
