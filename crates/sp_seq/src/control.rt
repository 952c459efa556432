//! Statements and controllers, one after another.
ghost use Rattle.std.specs.Prelude.{◌≡◌, ℕ, ◌<◌, map, length, All, OnOk};
ghost use Rattle.sp_words.specs.declared.kind.Style.{Style};
ghost use Rattle.sp_tree.specs.Plain.{plain_expr, plain_mem};
ghost use Rattle.sp_tree.specs.PlainStatement as plain;
ghost use Rattle.sp_tree.specs.PlainTree.{plain_counter, plain_ctl, plain_stmt_kind, plain_stmts};
ghost use Rattle.sp_seq.specs.Controlling.{CanLoop, CanTurn, Runs, RunsAll, RunsRound, RunsTurn};
ghost use Rattle.sp_seq.specs.Looping.{current, IsDigit};
ghost use Rattle.sp_seq.specs.Running.{CanRun, CanRunAll};

use crate::combining::Target;
use crate::digit::{Digit, NO_DIGIT, advance, have_words};
use crate::state::{State, Stop};
use sp_tree::{Counter, Ctl, Expr, MemDecl, Stmt, StmtKind};
use sp_words::Style;

/// The values that stand for the state of an FSM: in its test, in its body, and in its next state.
#[derive(Clone, Copy)]
pub(crate) struct Binders {
    pub(crate) tested: u32,
    pub(crate) state: u32,
    pub(crate) last: u32,
}

impl State {
    /// The statements of a body, each of which takes a turn.
    #[cycle(running)]
    pub(crate) fn body(&mut self, decls: &[MemDecl], body: &[Stmt]) -> Result<(), Stop>
        requires { CanRunAll (map plain_mem decls.now) (plain_stmts body.now) self.old }
        ensures { RunsAll (map plain_mem decls.now) (plain_stmts body.now) self.old result self.new }
    {
        for s in body {
            self.turn()?;
            self.statement(decls, &s.kind, s.at)?;
        }
        Ok(())
    }

    /// A statement, by what it is.
    #[cycle(running)]
    fn statement(&mut self, decls: &[MemDecl], kind: &StmtKind, at: u32) -> Result<(), Stop>
        requires { CanRun (map plain_mem decls.now) (plain_stmt_kind kind.now) self.old }
        ensures { Runs (map plain_mem decls.now) (plain_stmt_kind kind.now) at self.old result self.new }
    {
        match kind {
            StmtKind::Declare(memory) => {
                self.declare(decls, *memory);
                Ok(())
            }
            StmtKind::Let(value, e) => self.name_word(decls, value.number(), e),
            StmtKind::SetReg(port, e) => self.set_reg(decls, port.number(), e),
            StmtKind::SetOut(port, e) => self.set_out(decls, port.number(), e),
            StmtKind::SetSram(port, indices, e) => {
                self.set_sram(decls, port.number(), indices, e, at)
            }
            StmtKind::Enq(port, e) => self.enqueue_word(decls, port.number(), e, at),
            StmtKind::LoadSram(sram, dram, spans) => {
                self.load_sram(decls, sram.number(), dram.number(), spans, at)
            }
            StmtKind::LoadLine(line, dram, spans) => {
                self.load_line(decls, line.number(), dram.number(), spans, at)
            }
            StmtKind::Store(dram, spans, sram) => {
                self.store(decls, dram.number(), spans, sram.number(), at)
            }
            StmtKind::Gather(sram, dram, places, count) => self.gather(
                decls,
                sram.number(),
                dram.number(),
                places.number(),
                count,
                at,
            ),
            StmtKind::Scatter(dram, places, count, sram) => self.scatter(
                decls,
                dram.number(),
                places.number(),
                count,
                sram.number(),
                at,
            ),
            StmtKind::Control(ctl) => self.control(decls, ctl, at),
        }
    }

    /// A controller, by what it is.
    #[cycle(running)]
    fn control(&mut self, decls: &[MemDecl], ctl: &Ctl, at: u32) -> Result<(), Stop>
        requires { CanRun (map plain_mem decls.now) (plain_ctl ctl.now) self.old }
        ensures { Runs (map plain_mem decls.now) (plain_ctl ctl.now) at self.old result self.new }
    {
        match ctl {
            Ctl::Block { style, body } => self.block(decls, body, *style, at),
            Ctl::Foreach { counters, body, .. } => self.foreach(decls, body, counters),
            Ctl::Reduce {
                fold,
                acc,
                counters,
                body,
                value,
                comb,
                ..
            } => {
                let into = Target {
                    acc: acc.number(),
                    comb: *comb,
                    at,
                };
                self.reduce(decls, body, counters, value, into, *fold)
            }
            Ctl::MemReduce {
                acc,
                counters,
                body,
                part,
                comb,
                ..
            } => {
                let into = Target {
                    acc: acc.number(),
                    comb: *comb,
                    at,
                };
                self.mem_reduce(decls, body, counters, part.number(), into)
            }
            Ctl::Fsm {
                start,
                tested,
                test,
                state,
                body,
                last,
                next,
            } => {
                let binders = Binders {
                    tested: tested.number(),
                    state: state.number(),
                    last: last.number(),
                };
                self.fsm(decls, body, binders, start, test, next)
            }
            Ctl::Branch { test, yes, no } => {
                if self.word(decls, test)? == 1 {
                    self.body(decls, yes)
                } else {
                    self.body(decls, no)
                }
            }
        }
    }

    /// The statements of a block, and its end.
    #[cycle(running)]
    fn block(&mut self, decls: &[MemDecl], body: &[Stmt], style: Style, at: u32) -> Result<(), Stop>
        requires { CanRun (map plain_mem decls.now) (plain.block style (plain_stmts body.now)) self.old }
        ensures { Runs (map plain_mem decls.now) (plain.block style (plain_stmts body.now)) at self.old result self.new }
    {
        self.body(decls, body)?;
        match style {
            Style::Stream => self.end_stream(decls, body, at),
            Style::Pipe => Ok(()),
            Style::Sequential => Ok(()),
            Style::Parallel => Ok(()),
        }
    }

    /// An iteration up to the end of the body, with these words for the counters.
    #[cycle(running)]
    fn round(
        &mut self,
        decls: &[MemDecl],
        body: &[Stmt],
        counters: &[Counter],
        digits: &[Digit],
    ) -> Result<(), Stop>
        requires can { CanLoop (map plain_mem decls.now) (map plain_counter counters.now) (plain_stmts body.now) self.old }
        requires each { length digits.now ≡ length counters.now }
        requires digits { All IsDigit digits.now }
        ensures ran { RunsRound (map plain_mem decls.now) (map plain_counter counters.now) (plain_stmts body.now) (current digits.now) self.old result self.new }
        ensures taken { OnOk result (self.new.left < self.old.left) }
    {
        self.turn()?;
        self.count_all(counters, digits);
        self.body(decls, body)
    }

    /// The body for each tuple of words of the counters.
    #[cycle(running)]
    fn foreach(
        &mut self,
        decls: &[MemDecl],
        body: &[Stmt],
        counters: &[Counter],
    ) -> Result<(), Stop>
        requires { (style : Style) × CanRun (map plain_mem decls.now) (plain.foreach style (map plain_counter counters.now) (plain_stmts body.now)) self.old }
        ensures { (style : Style) (at : ℕ) → Runs (map plain_mem decls.now) (plain.foreach style (map plain_counter counters.now) (plain_stmts body.now)) at self.old result self.new }
    {
        let mut found = [NO_DIGIT; 4];
        self.ranges(decls, counters, &mut found)?;
        let digits = &mut found[..counters.len()];
        let mut more = have_words(digits);
        'rounds: while more {
            self.round(decls, body, counters, digits)?;
            more = advance(digits);
        }
        Ok(())
    }

    /// The same, and after each the word of an expression is combined.
    #[cycle(running)]
    fn reduce(
        &mut self,
        decls: &[MemDecl],
        body: &[Stmt],
        counters: &[Counter],
        value: &Expr,
        into: Target,
        fold: bool,
    ) -> Result<(), Stop>
        requires { (style : Style) × CanRun (map plain_mem decls.now) (plain.reduce style fold into.acc (map plain_counter counters.now) (plain_stmts body.now) (plain_expr value.now) into.comb) self.old }
        ensures { (style : Style) → Runs (map plain_mem decls.now) (plain.reduce style fold into.acc (map plain_counter counters.now) (plain_stmts body.now) (plain_expr value.now) into.comb) into.at self.old result self.new }
    {
        let mut found = [NO_DIGIT; 4];
        self.ranges(decls, counters, &mut found)?;
        let digits = &mut found[..counters.len()];
        let mut more = have_words(digits);
        let mut combines = fold;
        'rounds: while more {
            self.round(decls, body, counters, digits)?;
            self.combine_word(decls, into, combines, value)?;
            combines = true;
            more = advance(digits);
        }
        Ok(())
    }

    /// The same, and after each the words of an SRAM are combined.
    #[cycle(running)]
    fn mem_reduce(
        &mut self,
        decls: &[MemDecl],
        body: &[Stmt],
        counters: &[Counter],
        part: u32,
        into: Target,
    ) -> Result<(), Stop>
        requires { (style : Style) × CanRun (map plain_mem decls.now) (plain.mem_reduce style into.acc (map plain_counter counters.now) (plain_stmts body.now) part into.comb) self.old }
        ensures { (style : Style) → Runs (map plain_mem decls.now) (plain.mem_reduce style into.acc (map plain_counter counters.now) (plain_stmts body.now) part into.comb) into.at self.old result self.new }
    {
        let mut found = [NO_DIGIT; 4];
        self.ranges(decls, counters, &mut found)?;
        let digits = &mut found[..counters.len()];
        let mut more = have_words(digits);
        let mut combines = false;
        'rounds: while more {
            self.round(decls, body, counters, digits)?;
            self.combine_all(decls, into, combines, part)?;
            combines = true;
            more = advance(digits);
        }
        Ok(())
    }

    /// A turn of an FSM: the body, and the state that follows.
    #[cycle(running)]
    fn fsm_turn(
        &mut self,
        decls: &[MemDecl],
        body: &[Stmt],
        binders: Binders,
        next: &Expr,
        from: u64,
    ) -> Result<u64, Stop>
        requires { CanTurn (map plain_mem decls.now) binders.state binders.last (plain_stmts body.now) (plain_expr next.now) self.old from }
        ensures ran { RunsTurn (map plain_mem decls.now) binders.state binders.last (plain_stmts body.now) (plain_expr next.now) self.old from result self.new }
        ensures taken { OnOk result (self.new.left < self.old.left) }
    {
        self.turn()?;
        self.name(binders.state, from);
        self.body(decls, body)?;
        self.word_under(decls, binders.last, from, next)
    }

    /// Turns as long as the state passes the test.
    #[cycle(running)]
    fn fsm(
        &mut self,
        decls: &[MemDecl],
        body: &[Stmt],
        binders: Binders,
        start: &Expr,
        test: &Expr,
        next: &Expr,
    ) -> Result<(), Stop>
        requires { CanRun (map plain_mem decls.now) (plain.fsm (plain_expr start.now) binders.tested (plain_expr test.now) binders.state (plain_stmts body.now) binders.last (plain_expr next.now)) self.old }
        ensures { (at : ℕ) → Runs (map plain_mem decls.now) (plain.fsm (plain_expr start.now) binders.tested (plain_expr test.now) binders.state (plain_stmts body.now) binders.last (plain_expr next.now)) at self.old result self.new }
    {
        let mut state = self.word(decls, start)?;
        'turns: loop {
            if self.word_under(decls, binders.tested, state, test)? != 1 {
                return Ok(());
            }
            state = self.fsm_turn(decls, body, binders, next, state)?;
        }
    }
}
