//! What a transfer takes of each dimension, and counters.

ghost use Rattle.sp_reader.specs.Plain.{plain_expr, plain_exprs};
ghost use Rattle.sp_reader.specs.PlainProgram.{plain_counter, plain_counters, plain_from, plain_span, plain_spans};
ghost use Rattle.sp_reader.specs.SpanRules as spec;
ghost use Rattle.sp_reader.specs.Steps.{Gives};

use crate::error::Stop;
use crate::grammar::expression::{LOOSEST, expr};
use crate::grammar::parser::{Parser, place, refuse, sees, skip, tail};
use crate::syntax::expression::SynExpr;
use crate::syntax::statement::{SynCounter, SynPar, SynSpan};
use crate::token::{Token, TokenKind};

/// A controller has at most so many counters.
const MOST_COUNTERS: usize = 4;

/// The counters, after their closing parenthesis.
fn close_counters(
    found: Vec<SynCounter>,
    tokens: &[Token],
) -> Result<(Vec<SynCounter>, &[Token]), Stop>
    ensures { Gives (λ x. (plain_counters x.0.items, x.1.now)) result (spec.close_counters (plain_counters found.items) tokens.now) }
{
    let rest = skip(tokens, TokenKind::CloseRound)?;
    Ok((found, rest))
}

impl Parser<'_> {
    /// An expression that stands in nothing else.
    #[tactic(auto, unfolding(crate::specs::SpanRules::whole_expr))]
    pub fn whole_expr<'t>(&self, tokens: &'t [Token]) -> Result<(SynExpr, &'t [Token]), Stop>
        ensures { Gives (λ x. (plain_expr x.0, x.1.now)) result (spec.whole_expr self.now.source.now tokens.now) }
    {
        expr(*self, tokens.len(), LOOSEST, tokens)
    }

    /// Expressions with commas between.
    pub fn whole_exprs<'t>(&self, tokens: &'t [Token]) -> Result<(Vec<SynExpr>, &'t [Token]), Stop>
        ensures { Gives (λ x. (plain_exprs x.0.items, x.1.now)) result (spec.whole_exprs self.now.source.now tokens.now) }
    {
        let mut found = Vec::new(self.alloc);
        let mut rest = tokens;
        for _turn in 0..tokens.len() {
            let (next, after) = self.whole_expr(rest)?;
            found.push(next)?;
            if !sees(after, TokenKind::Comma) {
                return Ok((found, after));
            }
            rest = tail(after);
        }
        Err(refuse(rest))
    }

    /// `par` and a count, where they stand.
    #[tactic(auto, unfolding(crate::specs::SpanRules::par))]
    fn par<'t>(&self, tokens: &'t [Token]) -> Result<(Option<SynPar>, &'t [Token]), Stop>
        ensures { Gives (λ x. (x.0, x.1.now)) result (spec.par self.now.source.now tokens.now) }
    {
        let at = place(tokens);
        if !sees(tokens, TokenKind::Par) {
            return Ok((None, tokens));
        }
        let (lanes, rest) = self.count(tail(tokens))?;
        Ok((Some(SynPar { at, lanes }), rest))
    }

    /// `by` and a count, or 1.
    #[tactic(auto, unfolding(crate::specs::SpanRules::step))]
    fn step<'t>(&self, tokens: &'t [Token]) -> Result<(u32, &'t [Token]), Stop>
        ensures { Gives (λ x. (x.0, x.1.now)) result (spec.step self.now.source.now tokens.now) }
    {
        if sees(tokens, TokenKind::By) {
            self.count(tail(tokens))
        } else {
            Ok((1, tokens))
        }
    }

    #[tactic(auto, unfolding(crate::specs::SpanRules::span))]
    fn span<'t>(&self, tokens: &'t [Token]) -> Result<(SynSpan, &'t [Token]), Stop>
        ensures { Gives (λ x. (plain_span x.0, x.1.now)) result (spec.span self.now.source.now tokens.now) }
    {
        let (from, rest) = self.whole_expr(tokens)?;
        if !sees(rest, TokenKind::Colons) {
            return Ok((SynSpan::One(from), rest));
        }
        self.range_from(from, tail(rest))
    }

    /// A range after its `::`.
    #[tactic(auto, unfolding(crate::specs::SpanRules::range_from))]
    fn range_from<'t>(
        &self,
        from: SynExpr,
        tokens: &'t [Token],
    ) -> Result<(SynSpan, &'t [Token]), Stop>
        ensures { Gives (λ x. (plain_span x.0, x.1.now)) result (spec.range_from self.now.source.now (plain_expr from) tokens.now) }
    {
        let (until, rest) = self.whole_expr(tokens)?;
        let (par, rest) = self.par(rest)?;
        Ok((SynSpan::Range(from, until, par), rest))
    }

    /// Spans with commas between.
    pub fn spans<'t>(&self, tokens: &'t [Token]) -> Result<(Vec<SynSpan>, &'t [Token]), Stop>
        ensures { Gives (λ x. (plain_spans x.0.items, x.1.now)) result (spec.spans self.now.source.now tokens.now) }
    {
        let mut found = Vec::new(self.alloc);
        let mut rest = tokens;
        for _turn in 0..tokens.len() {
            let (next, after) = self.span(rest)?;
            found.push(next)?;
            if !sees(after, TokenKind::Comma) {
                return Ok((found, after));
            }
            rest = tail(after);
        }
        Err(refuse(rest))
    }

    #[tactic(auto, unfolding(crate::specs::SpanRules::bounds))]
    fn bounds<'t>(
        &self,
        tokens: &'t [Token],
    ) -> Result<(Option<SynExpr>, SynExpr, &'t [Token]), Stop>
        ensures { Gives (λ x. ((plain_from x.0, plain_expr x.1), x.2.now)) result (spec.bounds self.now.source.now tokens.now) }
    {
        let (first, rest) = self.whole_expr(tokens)?;
        if !sees(rest, TokenKind::Until) {
            return Ok((None, first, rest));
        }
        let (until, rest) = self.whole_expr(tail(rest))?;
        Ok((Some(first), until, rest))
    }

    #[tactic(auto, unfolding(crate::specs::SpanRules::counter))]
    fn counter<'t>(&self, tokens: &'t [Token]) -> Result<(SynCounter, &'t [Token]), Stop>
        ensures { Gives (λ x. (plain_counter x.0, x.1.now)) result (spec.counter self.now.source.now tokens.now) }
    {
        let (from, until, rest) = self.bounds(tokens)?;
        let (by, rest) = self.step(rest)?;
        let (par, rest) = self.par(rest)?;
        let counter = SynCounter {
            from,
            until,
            by,
            par,
        };
        Ok((counter, rest))
    }

    fn counters_from<'t>(
        &self,
        turns: usize,
        first: Vec<SynCounter>,
        tokens: &'t [Token],
    ) -> Result<(Vec<SynCounter>, &'t [Token]), Stop>
        ensures { Gives (λ x. (plain_counters x.0.items, x.1.now)) result (spec.counters_from self.now.source.now turns (plain_counters first.items) tokens.now) }
    {
        let mut found = first;
        let mut rest = tokens;
        for _turn in 0..turns {
            let (next, after) = self.counter(rest)?;
            found.push(next)?;
            if !sees(after, TokenKind::Comma) {
                return close_counters(found, after);
            }
            rest = tail(after);
        }
        let (last, after) = self.counter(rest)?;
        found.push(last)?;
        close_counters(found, after)
    }

    /// One to four counters in parentheses.
    #[tactic(auto, unfolding(crate::specs::SpanRules::counters))]
    pub fn counters<'t>(&self, tokens: &'t [Token]) -> Result<(Vec<SynCounter>, &'t [Token]), Stop>
        ensures { Gives (λ x. (plain_counters x.0.items, x.1.now)) result (spec.counters self.now.source.now tokens.now) }
    {
        let rest = skip(tokens, TokenKind::OpenRound)?;
        self.counters_from(MOST_COUNTERS - 1, Vec::new(self.alloc), rest)
    }
}
