//! Statements that hold others.

ghost use Rattle.std.specs.Prelude.{◌≡◌};
ghost use Rattle.sp_reader.specs.Plain.{plain_expr, plain_ident};
ghost use Rattle.sp_reader.specs.PlainProgram.{plain_comb, plain_counters, plain_idents, plain_stmt, plain_stmt_kind, plain_stmts};
ghost use Rattle.sp_reader.specs.PlainStatement as tree;
ghost use Rattle.sp_reader.specs.StatementNests.{NestsStatements};
ghost use Rattle.sp_reader.specs.StatementRules as spec;
ghost use Rattle.sp_reader.specs.Steps.{Gives};

use crate::error::Stop;
use crate::grammar::parser::{Parser, peek, place, refuse, sees, semicolons, skip, tail};
use crate::syntax::expression::{Ident, SynExpr};
use crate::syntax::statement::{SynComb, SynCounter, SynLoop, SynStmt, SynStmtKind};
use crate::token::{Token, TokenKind};
use sp_words::Style;

/// Which controller combines values.
#[derive(Clone, Copy, Debug)]
pub enum Combining {
    Reduce,
    Fold,
    MemReduce,
}

/// How a loop begins, and its statements.
struct Parts {
    style: Option<Style>,
    counters: Vec<SynCounter>,
    binds: Vec<Ident>,
    body: Vec<SynStmt>,
}

fn styled(style: Style, body: Vec<SynStmt>) -> SynStmtKind
    ensures { plain_stmt_kind result ≡ tree.block style (tree.body (plain_stmts body.items)) }
{
    SynStmtKind::Block(style, body)
}

fn foreach(
    style: Option<Style>,
    counters: Vec<SynCounter>,
    binds: Vec<Ident>,
    body: Vec<SynStmt>,
) -> SynStmtKind
    ensures { plain_stmt_kind result ≡ tree.foreach (spec.head style (plain_counters counters.items) (plain_idents binds.items)) (tree.body (plain_stmts body.items)) }
{
    SynStmtKind::Foreach(SynLoop {
        style,
        counters,
        binds,
        body,
    })
}

fn combined(
    which: Combining,
    parts: Parts,
    name: Ident,
    value: SynExpr,
    comb: SynComb,
) -> SynStmtKind
    ensures { plain_stmt_kind result ≡ spec.combined_by which (spec.head parts.style (plain_counters parts.counters.items) (plain_idents parts.binds.items))
        (tree.body (plain_stmts parts.body.items)) (plain_ident name) (plain_expr value) (plain_comb comb) }
{
    let Parts {
        style,
        counters,
        binds,
        body,
    } = parts;
    let all = SynLoop {
        style,
        counters,
        binds,
        body,
    };
    match which {
        Combining::Reduce => SynStmtKind::Reduce(all, name, value, comb),
        Combining::Fold => SynStmtKind::Fold(all, name, value, comb),
        Combining::MemReduce => SynStmtKind::MemReduce(all, name, value, comb),
    }
}

fn branch(test: SynExpr, first: Vec<SynStmt>, second: Vec<SynStmt>) -> SynStmtKind
    ensures { plain_stmt_kind result ≡ tree.branch (plain_expr test) (tree.body (plain_stmts first.items)) (tree.body (plain_stmts second.items)) }
{
    SynStmtKind::If(test, first, second)
}

fn fsm(
    start: SynExpr,
    test: (Ident, SynExpr),
    state: (Ident, Vec<SynStmt>),
    next: (Ident, SynExpr),
) -> SynStmtKind
    ensures { plain_stmt_kind result ≡ tree.fsm (plain_expr start) (plain_ident test.0) (plain_expr test.1) (plain_ident state.0)
        (tree.body (plain_stmts state.1.items)) (plain_ident next.0) (plain_expr next.1) }
{
    SynStmtKind::Fsm(start, test.0, test.1, state.0, state.1, next.0, next.1)
}

impl Parser<'_> {
    /// A name, `=>` and an expression.
    #[tactic(auto, unfolding(crate::specs::StatementRules::arrow))]
    fn arrow<'t>(&self, tokens: &'t [Token]) -> Result<(Ident, SynExpr, &'t [Token]), Stop>
        ensures { Gives (λ x. ((plain_ident x.0, plain_expr x.1), x.2.now)) result (spec.arrow self.now.source.now tokens.now) }
    {
        let (name, rest) = self.name(tokens)?;
        let rest = skip(rest, TokenKind::Arrow)?;
        let (value, rest) = self.whole_expr(rest)?;
        Ok((name, value, rest))
    }

    #[tactic(auto, unfolding(crate::specs::StatementRules::enclosed_arrow))]
    fn enclosed_arrow<'t>(&self, tokens: &'t [Token]) -> Result<(Ident, SynExpr, &'t [Token]), Stop>
        ensures { Gives (λ x. ((plain_ident x.0, plain_expr x.1), x.2.now)) result (spec.enclosed_arrow self.now.source.now tokens.now) }
    {
        let rest = skip(tokens, TokenKind::OpenRound)?;
        let (name, value, rest) = self.arrow(rest)?;
        let rest = skip(rest, TokenKind::CloseRound)?;
        Ok((name, value, rest))
    }

    #[tactic(auto, unfolding(crate::specs::StatementRules::enclosed_expr))]
    fn enclosed_expr<'t>(&self, tokens: &'t [Token]) -> Result<(SynExpr, &'t [Token]), Stop>
        ensures { Gives (λ x. (plain_expr x.0, x.1.now)) result (spec.enclosed_expr self.now.source.now tokens.now) }
    {
        let rest = skip(tokens, TokenKind::OpenRound)?;
        let (value, rest) = self.whole_expr(rest)?;
        let rest = skip(rest, TokenKind::CloseRound)?;
        Ok((value, rest))
    }

    #[tactic(auto, unfolding(crate::specs::StatementRules::last_value))]
    fn last_value<'t>(
        &self,
        found: Vec<SynStmt>,
        tokens: &'t [Token],
    ) -> Result<(Vec<SynStmt>, SynExpr, &'t [Token]), Stop>
        ensures { Gives (λ x. ((plain_stmts x.0.items, plain_expr x.1), x.2.now)) result (spec.last_value self.now.source.now (plain_stmts found.items) tokens.now) }
    {
        let (value, rest) = self.whole_expr(tokens)?;
        Ok((found, value, semicolons(rest)))
    }
}

/// Reads bodies and controllers; the statements inside of them are read by `stmt`.
#[derive(Clone, Copy)]
pub struct Bodies<'a, F> {
    pub parser: Parser<'a>,
    /// How many statements may stand one inside another.
    pub depth: usize,
    pub stmt: F,
}

impl<
    F: for<'p, 't> Fn(Parser<'p>, usize, &'t [Token]) -> Result<(SynStmt, &'t [Token]), Stop>,
> Bodies<'_, F> {
    fn inner<'t>(&self, tokens: &'t [Token]) -> Result<(SynStmt, &'t [Token]), Stop>
        requires { NestsStatements self.now.depth (F.pre self.now.stmt) (F.post self.now.stmt) }
        ensures { let source = self.now.parser.source.now in
            Gives (λ x. (plain_stmt x.0, x.1.now)) result (spec.stmt source self.now.depth tokens.now) }
    {
        (self.stmt)(self.parser, self.depth, tokens)
    }

    /// Statements up to `}`, with `;` between.
    fn stmts<'t>(&self, tokens: &'t [Token]) -> Result<(Vec<SynStmt>, &'t [Token]), Stop>
        requires { NestsStatements self.now.depth (F.pre self.now.stmt) (F.post self.now.stmt) }
        ensures { let source = self.now.parser.source.now in
            Gives (λ x. (plain_stmts x.0.items, x.1.now)) result (spec.stmts (spec.stmt source self.now.depth) tokens.now) }
    {
        let mut found = Vec::new(self.parser.alloc);
        let mut rest = semicolons(tokens);
        for _turn in 0..tokens.len() {
            if sees(rest, TokenKind::CloseCurly) {
                return Ok((found, rest));
            }
            let (next, after) = self.inner(rest)?;
            found.push(next)?;
            if !sees(after, TokenKind::Semicolon) {
                return Ok((found, after));
            }
            rest = semicolons(after);
        }
        Err(refuse(rest))
    }

    /// Statements in curly brackets.
    #[tactic(auto, unfolding(crate::specs::StatementRules::braced))]
    pub fn braced<'t>(&self, tokens: &'t [Token]) -> Result<(Vec<SynStmt>, &'t [Token]), Stop>
        requires { NestsStatements self.now.depth (F.pre self.now.stmt) (F.post self.now.stmt) }
        ensures { let source = self.now.parser.source.now in
            Gives (λ x. (plain_stmts x.0.items, x.1.now)) result (spec.braced (spec.stmt source self.now.depth) tokens.now) }
    {
        let rest = skip(tokens, TokenKind::OpenCurly)?;
        let (body, rest) = self.stmts(rest)?;
        let rest = skip(rest, TokenKind::CloseCurly)?;
        Ok((body, rest))
    }

    /// Statements and a value up to `}`, with `;` between.
    fn valued<'t>(&self, tokens: &'t [Token]) -> Result<(Vec<SynStmt>, SynExpr, &'t [Token]), Stop>
        requires { NestsStatements self.now.depth (F.pre self.now.stmt) (F.post self.now.stmt) }
        ensures { let source = self.now.parser.source.now in
            Gives (λ x. ((plain_stmts x.0.items, plain_expr x.1), x.2.now)) result (spec.valued source (spec.stmt source self.now.depth) tokens.now) }
    {
        let mut found = Vec::new(self.parser.alloc);
        let mut rest = semicolons(tokens);
        for _turn in 0..tokens.len() {
            if self.parser.is_value(rest)? {
                return self.parser.last_value(found, rest);
            }
            let (next, after) = self.inner(rest)?;
            found.push(next)?;
            let after = skip(after, TokenKind::Semicolon)?;
            rest = semicolons(after);
        }
        Err(refuse(rest))
    }

    #[tactic(auto, unfolding(crate::specs::StatementRules::styled_block))]
    fn styled_block<'t>(
        &self,
        style: Style,
        tokens: &'t [Token],
    ) -> Result<(SynStmtKind, &'t [Token]), Stop>
        requires { NestsStatements self.now.depth (F.pre self.now.stmt) (F.post self.now.stmt) }
        ensures { let source = self.now.parser.source.now in
            Gives (λ x. (plain_stmt_kind x.0, x.1.now)) result (spec.styled_block (spec.stmt source self.now.depth) style tokens.now) }
    {
        let (body, rest) = self.braced(tokens)?;
        Ok((styled(style, body), rest))
    }

    /// After its word.
    #[tactic(auto, unfolding(crate::specs::StatementRules::a_foreach))]
    fn foreach<'t>(
        &self,
        style: Option<Style>,
        tokens: &'t [Token],
    ) -> Result<(SynStmtKind, &'t [Token]), Stop>
        requires { NestsStatements self.now.depth (F.pre self.now.stmt) (F.post self.now.stmt) }
        ensures { let source = self.now.parser.source.now in
            Gives (λ x. (plain_stmt_kind x.0, x.1.now)) result (spec.a_foreach source (spec.stmt source self.now.depth) style tokens.now) }
    {
        let (counters, rest) = self.parser.counters(tokens)?;
        let rest = skip(rest, TokenKind::OpenCurly)?;
        let (binds, rest) = self.parser.binds(rest)?;
        let rest = skip(rest, TokenKind::Arrow)?;
        let (body, rest) = self.stmts(rest)?;
        let rest = skip(rest, TokenKind::CloseCurly)?;
        Ok((foreach(style, counters, binds, body), rest))
    }

    /// A controller that combines values, after its word.
    #[tactic(auto, unfolding(crate::specs::StatementRules::a_combining))]
    fn combining<'t>(
        &self,
        which: Combining,
        style: Option<Style>,
        tokens: &'t [Token],
    ) -> Result<(SynStmtKind, &'t [Token]), Stop>
        requires { NestsStatements self.now.depth (F.pre self.now.stmt) (F.post self.now.stmt) }
        ensures { let source = self.now.parser.source.now in
            Gives (λ x. (plain_stmt_kind x.0, x.1.now)) result (spec.a_combining source (spec.stmt source self.now.depth) which style tokens.now) }
    {
        let (name, rest) = self.parser.enclosed_name(tokens)?;
        let (counters, rest) = self.parser.counters(rest)?;
        let rest = skip(rest, TokenKind::OpenCurly)?;
        let (binds, rest) = self.parser.binds(rest)?;
        let rest = skip(rest, TokenKind::Arrow)?;
        let (body, value, rest) = self.valued(rest)?;
        let rest = skip(rest, TokenKind::CloseCurly)?;
        let (comb, rest) = self.parser.combiner(rest)?;
        let parts = Parts {
            style,
            counters,
            binds,
            body,
        };
        Ok((combined(which, parts, name, value, comb), rest))
    }

    #[tactic(auto, unfolding(crate::specs::StatementRules::controller))]
    fn controller<'t>(
        &self,
        style: Option<Style>,
        tokens: &'t [Token],
    ) -> Result<(SynStmtKind, &'t [Token]), Stop>
        requires { NestsStatements self.now.depth (F.pre self.now.stmt) (F.post self.now.stmt) }
        ensures { let source = self.now.parser.source.now in
            Gives (λ x. (plain_stmt_kind x.0, x.1.now)) result (spec.controller source (spec.stmt source self.now.depth) style tokens.now) }
    {
        if sees(tokens, TokenKind::Foreach) {
            self.foreach(style, tail(tokens))
        } else if sees(tokens, TokenKind::Reduce) {
            self.combining(Combining::Reduce, style, tail(tokens))
        } else if sees(tokens, TokenKind::Fold) {
            self.combining(Combining::Fold, style, tail(tokens))
        } else if sees(tokens, TokenKind::MemReduce) {
            self.combining(Combining::MemReduce, style, tail(tokens))
        } else {
            Err(refuse(tokens))
        }
    }

    /// A block, or a controller after its style.
    #[tactic(auto, unfolding(crate::specs::StatementRules::styled))]
    fn styled<'t>(
        &self,
        style: Style,
        tokens: &'t [Token],
    ) -> Result<(SynStmtKind, &'t [Token]), Stop>
        requires { NestsStatements self.now.depth (F.pre self.now.stmt) (F.post self.now.stmt) }
        ensures { let source = self.now.parser.source.now in
            Gives (λ x. (plain_stmt_kind x.0, x.1.now)) result (spec.styled source (spec.stmt source self.now.depth) style tokens.now) }
    {
        if sees(tokens, TokenKind::Dot) {
            self.controller(Some(style), tail(tokens))
        } else {
            self.styled_block(style, tokens)
        }
    }

    #[tactic(auto, unfolding(crate::specs::StatementRules::bound_body))]
    fn bound_body<'t>(
        &self,
        tokens: &'t [Token],
    ) -> Result<(Ident, Vec<SynStmt>, &'t [Token]), Stop>
        requires { NestsStatements self.now.depth (F.pre self.now.stmt) (F.post self.now.stmt) }
        ensures { let source = self.now.parser.source.now in
            Gives (λ x. ((plain_ident x.0, plain_stmts x.1.items), x.2.now)) result (spec.bound_body source (spec.stmt source self.now.depth) tokens.now) }
    {
        let rest = skip(tokens, TokenKind::OpenCurly)?;
        let (name, rest) = self.parser.name(rest)?;
        let rest = skip(rest, TokenKind::Arrow)?;
        let (body, rest) = self.stmts(rest)?;
        let rest = skip(rest, TokenKind::CloseCurly)?;
        Ok((name, body, rest))
    }

    #[tactic(auto, unfolding(crate::specs::StatementRules::a_fsm))]
    fn fsm<'t>(&self, tokens: &'t [Token]) -> Result<(SynStmtKind, &'t [Token]), Stop>
        requires { NestsStatements self.now.depth (F.pre self.now.stmt) (F.post self.now.stmt) }
        ensures { let source = self.now.parser.source.now in
            Gives (λ x. (plain_stmt_kind x.0, x.1.now)) result (spec.a_fsm source (spec.stmt source self.now.depth) tokens.now) }
    {
        let (start, rest) = self.parser.enclosed_expr(tokens)?;
        let (tested, test, rest) = self.parser.enclosed_arrow(rest)?;
        let (state, body, rest) = self.bound_body(rest)?;
        let rest = skip(rest, TokenKind::OpenCurly)?;
        let (last, next, rest) = self.parser.arrow(rest)?;
        let rest = skip(rest, TokenKind::CloseCurly)?;
        Ok((
            fsm(start, (tested, test), (state, body), (last, next)),
            rest,
        ))
    }

    fn otherwise<'t>(&self, tokens: &'t [Token]) -> Result<(Vec<SynStmt>, &'t [Token]), Stop>
        requires { NestsStatements self.now.depth (F.pre self.now.stmt) (F.post self.now.stmt) }
        ensures { let source = self.now.parser.source.now in
            Gives (λ x. (plain_stmts x.0.items, x.1.now)) result (spec.otherwise (spec.stmt source self.now.depth) tokens.now) }
    {
        if sees(tokens, TokenKind::Else) {
            self.braced(tail(tokens))
        } else {
            Ok((Vec::new(self.parser.alloc), tokens))
        }
    }

    /// What stands after `if`.
    #[tactic(auto, unfolding(crate::specs::StatementRules::a_branch))]
    fn branch<'t>(&self, tokens: &'t [Token]) -> Result<(SynStmtKind, &'t [Token]), Stop>
        requires { NestsStatements self.now.depth (F.pre self.now.stmt) (F.post self.now.stmt) }
        ensures { let source = self.now.parser.source.now in
            Gives (λ x. (plain_stmt_kind x.0, x.1.now)) result (spec.a_branch source (spec.stmt source self.now.depth) tokens.now) }
    {
        let (test, rest) = self.parser.enclosed_expr(tokens)?;
        let (first, rest) = self.braced(rest)?;
        let (second, rest) = self.otherwise(rest)?;
        Ok((branch(test, first, second), rest))
    }

    #[tactic(auto, unfolding(crate::specs::StatementRules::kind))]
    fn kind<'t>(&self, tokens: &'t [Token]) -> Result<(SynStmtKind, &'t [Token]), Stop>
        requires { NestsStatements self.now.depth (F.pre self.now.stmt) (F.post self.now.stmt) }
        ensures { let source = self.now.parser.source.now in
            Gives (λ x. (plain_stmt_kind x.0, x.1.now)) result (spec.kind source (spec.stmt source self.now.depth) tokens.now) }
    {
        match peek(tokens) {
            TokenKind::Val => self.parser.val(tail(tokens)),
            TokenKind::Pipe => self.styled(Style::Pipe, tail(tokens)),
            TokenKind::Sequential => self.styled(Style::Sequential, tail(tokens)),
            TokenKind::Parallel => self.styled_block(Style::Parallel, tail(tokens)),
            TokenKind::Stream => self.styled_block(Style::Stream, tail(tokens)),
            TokenKind::Fsm => self.fsm(tail(tokens)),
            TokenKind::If => self.branch(tail(tokens)),
            TokenKind::Foreach | TokenKind::Reduce | TokenKind::Fold | TokenKind::MemReduce => {
                self.controller(None, tokens)
            }
            _ => self.parser.on_name(tokens),
        }
    }
}

/// A statement. With as many as there are tokens, `depth` is never reached.
pub fn stmt<'t>(
    parser: Parser<'_>,
    depth: usize,
    tokens: &'t [Token],
) -> Result<(SynStmt, &'t [Token]), Stop>
    ensures { Gives (λ x. (plain_stmt x.0, x.1.now)) result (spec.stmt parser.entry.source.now depth tokens.now) }
{
    if depth == 0 {
        return Err(refuse(tokens));
    }
    let at = place(tokens);
    let bodies = Bodies {
        parser,
        depth: depth - 1,
        stmt,
    };
    let (kind, rest) = bodies.kind(tokens)?;
    Ok((SynStmt { at, kind }, rest))
}
