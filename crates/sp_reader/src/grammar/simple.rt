//! Statements that hold no others.

ghost use Rattle.std.specs.Prelude.{◌≡◌};
ghost use Rattle.sp_reader.specs.Plain.{plain_expr, plain_ident};
ghost use Rattle.sp_reader.specs.PlainProgram.{plain_spans, plain_start, plain_stmt_kind};
ghost use Rattle.sp_reader.specs.SimpleRules as spec;
ghost use Rattle.sp_reader.specs.Steps.{Gives};

use crate::error::Stop;
use crate::grammar::parser::{Parser, peek, refuse, sees, skip, tail};
use crate::syntax::expression::{Ident, SynExpr, SynLit};
use crate::syntax::statement::{SynSpan, SynStmtKind};
use crate::token::{Token, TokenKind, is_name};

/// Whether each span is one index.
fn are_indices(mut spans: &[SynSpan]) -> bool
    ensures { result ≡ spec.are_indices (plain_spans spans.entry.now) }
{
    while let [span, rest @ ..] = spans {
        match span {
            SynSpan::One(_) => spans = rest,
            SynSpan::Range(_, _, _) => return false,
        }
    }
    true
}

/// Whether there are two spans, of which the second is one index.
fn is_pair(spans: &[SynSpan]) -> bool
    ensures { result ≡ spec.is_pair (plain_spans spans.now) }
{
    match spans {
        [_, SynSpan::One(_)] => true,
        _ => false,
    }
}

/// Whether a name alone and a comma come next.
#[tactic(auto, unfolding(crate::specs::SimpleRules::begins_with_name))]
fn begins_with_name(tokens: &[Token]) -> bool
    ensures { result ≡ spec.begins_with_name tokens.now }
{
    is_name(peek(tokens)) && sees(tail(tokens), TokenKind::Comma)
}

/// Whether no statement goes on with the next token, after these spans in parentheses.
fn no_statement(spans: &[SynSpan], tokens: &[Token]) -> bool
    ensures { result ≡ spec.no_statement (plain_spans spans.now) tokens.now }
{
    !sees(tokens, TokenKind::Equal)
        && !sees(tokens, TokenKind::Store)
        && !sees(tokens, TokenKind::Scatter)
        && are_indices(spans)
}

/// Whether a statement, and no value, begins with a token of this kind.
fn begins_statement(kind: TokenKind) -> bool
    ensures { result ≡ spec.begins_statement kind }
{
    match kind {
        TokenKind::Val
        | TokenKind::Foreach
        | TokenKind::Reduce
        | TokenKind::Fold
        | TokenKind::MemReduce
        | TokenKind::Fsm
        | TokenKind::Sequential
        | TokenKind::Pipe
        | TokenKind::Parallel
        | TokenKind::Stream
        | TokenKind::If => true,
        _ => false,
    }
}

impl Parser<'_> {
    /// `(value)` at the end.
    #[tactic(auto, unfolding(crate::specs::SimpleRules::optional_literal))]
    fn optional_literal<'t>(
        &self,
        tokens: &'t [Token],
    ) -> Result<(Option<SynLit>, &'t [Token]), Stop>
        ensures { Gives (λ x. (plain_start x.0, x.1.now)) result (spec.optional_literal self.now.source.now tokens.now) }
    {
        if !sees(tokens, TokenKind::OpenRound) {
            return Ok((None, tokens));
        }
        let (value, rest) = self.literal(tail(tokens))?;
        let rest = skip(rest, TokenKind::CloseRound)?;
        Ok((Some(value), rest))
    }

    #[tactic(auto, unfolding(crate::specs::SimpleRules::a_reg))]
    fn reg<'t>(&self, name: Ident, tokens: &'t [Token]) -> Result<(SynStmtKind, &'t [Token]), Stop>
        ensures { Gives (λ x. (plain_stmt_kind x.0, x.1.now)) result (spec.a_reg self.now.source.now (plain_ident name) tokens.now) }
    {
        let (ty, rest) = self.bracketed(tokens)?;
        let (start, rest) = self.optional_literal(rest)?;
        Ok((SynStmtKind::Reg(name, ty, start), rest))
    }

    #[tactic(auto, unfolding(crate::specs::SimpleRules::a_sram))]
    fn sram<'t>(&self, name: Ident, tokens: &'t [Token]) -> Result<(SynStmtKind, &'t [Token]), Stop>
        ensures { Gives (λ x. (plain_stmt_kind x.0, x.1.now)) result (spec.a_sram self.now.source.now (plain_ident name) tokens.now) }
    {
        let (ty, rest) = self.bracketed(tokens)?;
        let (dims, rest) = self.dims(rest)?;
        Ok((SynStmtKind::Sram(name, ty, dims), rest))
    }

    #[tactic(auto, unfolding(crate::specs::SimpleRules::a_fifo))]
    fn fifo<'t>(&self, name: Ident, tokens: &'t [Token]) -> Result<(SynStmtKind, &'t [Token]), Stop>
        ensures { Gives (λ x. (plain_stmt_kind x.0, x.1.now)) result (spec.a_fifo self.now.source.now (plain_ident name) tokens.now) }
    {
        let (ty, rest) = self.bracketed(tokens)?;
        let rest = skip(rest, TokenKind::OpenRound)?;
        let (depth, rest) = self.count(rest)?;
        let rest = skip(rest, TokenKind::CloseRound)?;
        Ok((SynStmtKind::Fifo(name, ty, depth), rest))
    }

    #[tactic(auto, unfolding(crate::specs::SimpleRules::a_line_buffer))]
    fn line_buffer<'t>(
        &self,
        name: Ident,
        tokens: &'t [Token],
    ) -> Result<(SynStmtKind, &'t [Token]), Stop>
        ensures { Gives (λ x. (plain_stmt_kind x.0, x.1.now)) result (spec.a_line_buffer self.now.source.now (plain_ident name) tokens.now) }
    {
        let (ty, rest) = self.bracketed(tokens)?;
        let rest = skip(rest, TokenKind::OpenRound)?;
        let (rows, rest) = self.count(rest)?;
        let rest = skip(rest, TokenKind::Comma)?;
        let (columns, rest) = self.count(rest)?;
        let rest = skip(rest, TokenKind::CloseRound)?;
        Ok((SynStmtKind::LineBuffer(name, ty, rows, columns), rest))
    }

    #[tactic(auto, unfolding(crate::specs::SimpleRules::a_value))]
    fn value<'t>(
        &self,
        name: Ident,
        tokens: &'t [Token],
    ) -> Result<(SynStmtKind, &'t [Token]), Stop>
        ensures { Gives (λ x. (plain_stmt_kind x.0, x.1.now)) result (spec.a_value self.now.source.now (plain_ident name) tokens.now) }
    {
        let (value, rest) = self.whole_expr(tokens)?;
        Ok((SynStmtKind::Let(name, value), rest))
    }

    fn val_by<'t>(
        &self,
        name: Ident,
        tokens: &'t [Token],
    ) -> Result<(SynStmtKind, &'t [Token]), Stop>
        ensures { Gives (λ x. (plain_stmt_kind x.0, x.1.now)) result (spec.val_by self.now.source.now (plain_ident name) tokens.now) }
    {
        if sees(tokens, TokenKind::Reg) {
            self.reg(name, tail(tokens))
        } else if sees(tokens, TokenKind::Sram) {
            self.sram(name, tail(tokens))
        } else if sees(tokens, TokenKind::Fifo) {
            self.fifo(name, tail(tokens))
        } else if sees(tokens, TokenKind::LineBuffer) {
            self.line_buffer(name, tail(tokens))
        } else {
            self.value(name, tokens)
        }
    }

    /// A statement after its `val`.
    #[tactic(auto, unfolding(crate::specs::SimpleRules::val))]
    pub fn val<'t>(&self, tokens: &'t [Token]) -> Result<(SynStmtKind, &'t [Token]), Stop>
        ensures { Gives (λ x. (plain_stmt_kind x.0, x.1.now)) result (spec.val self.now.source.now tokens.now) }
    {
        let (name, rest) = self.name(tokens)?;
        let rest = skip(rest, TokenKind::Equal)?;
        self.val_by(name, rest)
    }

    #[tactic(auto, unfolding(crate::specs::SimpleRules::a_set))]
    fn set<'t>(&self, name: Ident, tokens: &'t [Token]) -> Result<(SynStmtKind, &'t [Token]), Stop>
        ensures { Gives (λ x. (plain_stmt_kind x.0, x.1.now)) result (spec.a_set self.now.source.now (plain_ident name) tokens.now) }
    {
        let (value, rest) = self.whole_expr(tokens)?;
        Ok((SynStmtKind::Set(name, value), rest))
    }

    #[tactic(auto, unfolding(crate::specs::SimpleRules::a_enq))]
    fn enq<'t>(&self, name: Ident, tokens: &'t [Token]) -> Result<(SynStmtKind, &'t [Token]), Stop>
        ensures { Gives (λ x. (plain_stmt_kind x.0, x.1.now)) result (spec.a_enq self.now.source.now (plain_ident name) tokens.now) }
    {
        let rest = skip(tokens, TokenKind::Enq)?;
        let rest = skip(rest, TokenKind::OpenRound)?;
        let (value, rest) = self.whole_expr(rest)?;
        let rest = skip(rest, TokenKind::CloseRound)?;
        Ok((SynStmtKind::Enq(name, value), rest))
    }

    #[tactic(auto, unfolding(crate::specs::SimpleRules::a_load))]
    fn load<'t>(&self, name: Ident, tokens: &'t [Token]) -> Result<(SynStmtKind, &'t [Token]), Stop>
        ensures { Gives (λ x. (plain_stmt_kind x.0, x.1.now)) result (spec.a_load self.now.source.now (plain_ident name) tokens.now) }
    {
        let (dram, rest) = self.name(tokens)?;
        let rest = skip(rest, TokenKind::OpenRound)?;
        let (spans, rest) = self.spans(rest)?;
        let rest = skip(rest, TokenKind::CloseRound)?;
        Ok((SynStmtKind::Load(name, dram, spans), rest))
    }

    #[tactic(auto, unfolding(crate::specs::SimpleRules::a_gather))]
    fn gather<'t>(
        &self,
        name: Ident,
        tokens: &'t [Token],
    ) -> Result<(SynStmtKind, &'t [Token]), Stop>
        ensures { Gives (λ x. (plain_stmt_kind x.0, x.1.now)) result (spec.a_gather self.now.source.now (plain_ident name) tokens.now) }
    {
        let (dram, rest) = self.name(tokens)?;
        let rest = skip(rest, TokenKind::OpenRound)?;
        let (places, rest) = self.name(rest)?;
        let rest = skip(rest, TokenKind::Comma)?;
        let (count, rest) = self.whole_expr(rest)?;
        let rest = skip(rest, TokenKind::CloseRound)?;
        Ok((SynStmtKind::Gather(name, dram, places, count), rest))
    }

    /// An assignment to an element, from its `=` on; the first index begins where `inside` does.
    #[tactic(auto, unfolding(crate::specs::SimpleRules::a_set_at))]
    fn set_at<'t>(
        &self,
        name: Ident,
        inside: &[Token],
        spans: &[SynSpan],
        tokens: &'t [Token],
    ) -> Result<(SynStmtKind, &'t [Token]), Stop>
        ensures { Gives (λ x. (plain_stmt_kind x.0, x.1.now)) result (spec.a_set_at self.now.source.now (plain_ident name) inside.now (plain_spans spans.now) tokens.now) }
    {
        if !are_indices(spans) {
            return Err(refuse(tokens));
        }
        let (indices, _) = self.whole_exprs(inside)?;
        let (value, rest) = self.whole_expr(tail(tokens))?;
        Ok((SynStmtKind::SetAt(name, indices, value), rest))
    }

    /// From its `store` on.
    #[tactic(auto, unfolding(crate::specs::SimpleRules::a_store))]
    fn store<'t>(
        &self,
        dram: Ident,
        spans: Vec<SynSpan>,
        tokens: &'t [Token],
    ) -> Result<(SynStmtKind, &'t [Token]), Stop>
        ensures { Gives (λ x. (plain_stmt_kind x.0, x.1.now)) result (spec.a_store self.now.source.now (plain_ident dram) (plain_spans spans.items) tokens.now) }
    {
        let (name, rest) = self.name(tail(tokens))?;
        Ok((SynStmtKind::Store(dram, spans, name), rest))
    }

    /// The places of a scatter, and how many.
    #[tactic(auto, unfolding(crate::specs::SimpleRules::scattered))]
    fn scattered<'t>(&self, tokens: &'t [Token]) -> Result<(Ident, SynExpr, &'t [Token]), Stop>
        ensures { Gives (λ x. ((plain_ident x.0, plain_expr x.1), x.2.now)) result (spec.scattered self.now.source.now tokens.now) }
    {
        let (places, rest) = self.name(tokens)?;
        let rest = skip(rest, TokenKind::Comma)?;
        let (count, rest) = self.whole_expr(rest)?;
        Ok((places, count, rest))
    }

    /// From its `scatter` on; the places stand where `inside` begins.
    #[tactic(auto, unfolding(crate::specs::SimpleRules::a_scatter))]
    fn scatter<'t>(
        &self,
        dram: Ident,
        inside: &[Token],
        spans: &[SynSpan],
        tokens: &'t [Token],
    ) -> Result<(SynStmtKind, &'t [Token]), Stop>
        ensures { Gives (λ x. (plain_stmt_kind x.0, x.1.now)) result (spec.a_scatter self.now.source.now (plain_ident dram) inside.now (plain_spans spans.now) tokens.now) }
    {
        if !(begins_with_name(inside) && is_pair(spans)) {
            return Err(refuse(tokens));
        }
        let (places, count, _) = self.scattered(inside)?;
        let (name, rest) = self.name(tail(tokens))?;
        Ok((SynStmtKind::Scatter(dram, places, count, name), rest))
    }

    /// A statement after its spans in parentheses, the first of which begins where `inside` does.
    #[tactic(auto, unfolding(crate::specs::SimpleRules::with_spans))]
    fn with_spans<'t>(
        &self,
        name: Ident,
        inside: &[Token],
        spans: Vec<SynSpan>,
        tokens: &'t [Token],
    ) -> Result<(SynStmtKind, &'t [Token]), Stop>
        ensures { Gives (λ x. (plain_stmt_kind x.0, x.1.now)) result (spec.with_spans self.now.source.now (plain_ident name) inside.now (plain_spans spans.items) tokens.now) }
    {
        if sees(tokens, TokenKind::Equal) {
            self.set_at(name, inside, &spans, tokens)
        } else if sees(tokens, TokenKind::Store) {
            self.store(name, spans, tokens)
        } else if sees(tokens, TokenKind::Scatter) {
            self.scatter(name, inside, &spans, tokens)
        } else {
            Err(refuse(tokens))
        }
    }

    /// A statement after its name and `(`.
    #[tactic(auto, unfolding(crate::specs::SimpleRules::on_spans))]
    fn on_spans<'t>(
        &self,
        name: Ident,
        tokens: &'t [Token],
    ) -> Result<(SynStmtKind, &'t [Token]), Stop>
        ensures { Gives (λ x. (plain_stmt_kind x.0, x.1.now)) result (spec.on_spans self.now.source.now (plain_ident name) tokens.now) }
    {
        let (spans, rest) = self.spans(tokens)?;
        let rest = skip(rest, TokenKind::CloseRound)?;
        self.with_spans(name, tokens, spans, rest)
    }

    #[tactic(auto, unfolding(crate::specs::SimpleRules::after_name))]
    fn after_name<'t>(
        &self,
        name: Ident,
        tokens: &'t [Token],
    ) -> Result<(SynStmtKind, &'t [Token]), Stop>
        ensures { Gives (λ x. (plain_stmt_kind x.0, x.1.now)) result (spec.after_name self.now.source.now (plain_ident name) tokens.now) }
    {
        if sees(tokens, TokenKind::Assign) {
            self.set(name, tail(tokens))
        } else if sees(tokens, TokenKind::Dot) {
            self.enq(name, tail(tokens))
        } else if sees(tokens, TokenKind::Load) {
            self.load(name, tail(tokens))
        } else if sees(tokens, TokenKind::Gather) {
            self.gather(name, tail(tokens))
        } else if sees(tokens, TokenKind::OpenRound) {
            self.on_spans(name, tail(tokens))
        } else {
            Err(refuse(tokens))
        }
    }

    /// A statement that begins with a name.
    #[tactic(auto, unfolding(crate::specs::SimpleRules::on_name))]
    pub fn on_name<'t>(&self, tokens: &'t [Token]) -> Result<(SynStmtKind, &'t [Token]), Stop>
        ensures { Gives (λ x. (plain_stmt_kind x.0, x.1.now)) result (spec.on_name self.now.source.now tokens.now) }
    {
        let (name, rest) = self.name(tokens)?;
        self.after_name(name, rest)
    }

    /// Whether a value stands after a name and `(`.
    #[tactic(auto, unfolding(crate::specs::SimpleRules::is_access))]
    fn is_access(&self, tokens: &[Token]) -> Result<bool, Stop>
        ensures { Gives (λ x. x) result (spec.is_access self.now.source.now tokens.now) }
    {
        let (spans, rest) = self.spans(tokens)?;
        let rest = skip(rest, TokenKind::CloseRound)?;
        Ok(no_statement(&spans, rest))
    }

    /// Whether a value goes on after a name.
    #[tactic(auto, unfolding(crate::specs::SimpleRules::is_named_value))]
    fn is_named_value(&self, tokens: &[Token]) -> Result<bool, Stop>
        ensures { Gives (λ x. x) result (spec.is_named_value self.now.source.now tokens.now) }
    {
        if sees(tokens, TokenKind::Assign)
            || sees(tokens, TokenKind::Load)
            || sees(tokens, TokenKind::Gather)
        {
            Ok(false)
        } else if sees(tokens, TokenKind::Dot) {
            Ok(!sees(tail(tokens), TokenKind::Enq))
        } else if sees(tokens, TokenKind::OpenRound) {
            self.is_access(tail(tokens))
        } else {
            Ok(true)
        }
    }

    /// Whether a value comes next in a body that ends with one, and no statement.
    #[tactic(auto, unfolding(crate::specs::SimpleRules::is_value))]
    pub fn is_value(&self, tokens: &[Token]) -> Result<bool, Stop>
        ensures { Gives (λ x. x) result (spec.is_value self.now.source.now tokens.now) }
    {
        let kind = peek(tokens);
        if begins_statement(kind) {
            Ok(false)
        } else if is_name(kind) {
            self.is_named_value(tail(tokens))
        } else {
            Ok(true)
        }
    }
}
