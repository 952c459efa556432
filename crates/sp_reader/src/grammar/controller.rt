//! Combiners.

ghost use Rattle.std.specs.Prelude.{◌≡◌};
ghost use Rattle.sp_reader.specs.Plain.{plain_ident};
ghost use Rattle.sp_reader.specs.PlainProgram.{plain_comb};
ghost use Rattle.sp_reader.specs.SpanRules as spec;
ghost use Rattle.sp_reader.specs.Steps.{Gives};

use crate::error::Stop;
use crate::grammar::parser::{Parser, peek, place, refuse, sees, skip, tail};
use crate::syntax::expression::Ident;
use crate::syntax::statement::SynComb;
use crate::token::{Token, TokenKind};
use sp_words::BinOp;

/// The operator of a combiner.
fn combining(kind: TokenKind) -> Option<BinOp>
    ensures { result ≡ spec.combining kind }
{
    match kind {
        TokenKind::Plus => Some(BinOp::Add),
        TokenKind::Star => Some(BinOp::Mul),
        TokenKind::And | TokenKind::AndAnd => Some(BinOp::And),
        TokenKind::Or | TokenKind::OrOr => Some(BinOp::Or),
        TokenKind::Caret => Some(BinOp::Xor),
        _ => None,
    }
}

#[tactic(auto, unfolding(crate::specs::SpanRules::operator))]
fn operator(tokens: &[Token]) -> Result<(BinOp, &[Token]), Stop>
    ensures { Gives (λ x. (x.0, x.1.now)) result (spec.operator tokens.now) }
{
    match combining(peek(tokens)) {
        Some(op) => Ok((op, tail(tokens))),
        None => Err(refuse(tokens)),
    }
}

/// `_ + _}` and its kind.
#[tactic(auto, unfolding(crate::specs::SpanRules::unnamed))]
fn unnamed(at: u32, tokens: &[Token]) -> Result<(SynComb, &[Token]), Stop>
    ensures { Gives (λ x. (plain_comb x.0, x.1.now)) result (spec.unnamed at tokens.now) }
{
    let (op, rest) = operator(tokens)?;
    let rest = skip(rest, TokenKind::Wild)?;
    let comb = SynComb {
        at,
        params: None,
        op,
        args: None,
    };
    Ok((comb, rest))
}

impl Parser<'_> {
    #[tactic(auto, unfolding(crate::specs::SpanRules::called))]
    fn called<'t>(
        &self,
        op: BinOp,
        tokens: &'t [Token],
    ) -> Result<(BinOp, Ident, Ident, &'t [Token]), Stop>
        ensures { Gives (λ x. ((x.0, plain_ident x.1, plain_ident x.2), x.3.now)) result (spec.called self.now.source.now op tokens.now) }
    {
        let (a, b, rest) = self.name_pair(tokens)?;
        Ok((op, a, b, rest))
    }

    #[tactic(auto, unfolding(crate::specs::SpanRules::infixed))]
    fn infixed<'t>(&self, tokens: &'t [Token]) -> Result<(BinOp, Ident, Ident, &'t [Token]), Stop>
        ensures { Gives (λ x. ((x.0, plain_ident x.1, plain_ident x.2), x.3.now)) result (spec.infixed self.now.source.now tokens.now) }
    {
        let (a, rest) = self.name(tokens)?;
        let (op, rest) = operator(rest)?;
        let (b, rest) = self.name(rest)?;
        Ok((op, a, b, rest))
    }

    /// What a combiner makes of its names.
    #[tactic(auto, unfolding(crate::specs::SpanRules::combined))]
    fn combined<'t>(&self, tokens: &'t [Token]) -> Result<(BinOp, Ident, Ident, &'t [Token]), Stop>
        ensures { Gives (λ x. ((x.0, plain_ident x.1, plain_ident x.2), x.3.now)) result (spec.combined self.now.source.now tokens.now) }
    {
        if sees(tokens, TokenKind::Min) {
            self.called(BinOp::Min, tail(tokens))
        } else if sees(tokens, TokenKind::Max) {
            self.called(BinOp::Max, tail(tokens))
        } else {
            self.infixed(tokens)
        }
    }

    #[tactic(auto, unfolding(crate::specs::SpanRules::named_combiner))]
    fn named_combiner<'t>(
        &self,
        at: u32,
        tokens: &'t [Token],
    ) -> Result<(SynComb, &'t [Token]), Stop>
        ensures { Gives (λ x. (plain_comb x.0, x.1.now)) result (spec.named_combiner self.now.source.now at tokens.now) }
    {
        let (first, second, rest) = self.name_pair(tokens)?;
        let rest = skip(rest, TokenKind::Arrow)?;
        let (op, a, b, rest) = self.combined(rest)?;
        let comb = SynComb {
            at,
            params: Some((first, second)),
            op,
            args: Some((a, b)),
        };
        Ok((comb, rest))
    }

    fn combiner_inside<'t>(
        &self,
        at: u32,
        tokens: &'t [Token],
    ) -> Result<(SynComb, &'t [Token]), Stop>
        ensures { Gives (λ x. (plain_comb x.0, x.1.now)) result (spec.combiner_inside self.now.source.now at tokens.now) }
    {
        if sees(tokens, TokenKind::Wild) {
            unnamed(at, tail(tokens))
        } else {
            self.named_combiner(at, tokens)
        }
    }

    /// A combiner in its brackets.
    #[tactic(auto, unfolding(crate::specs::SpanRules::combiner))]
    pub fn combiner<'t>(&self, tokens: &'t [Token]) -> Result<(SynComb, &'t [Token]), Stop>
        ensures { Gives (λ x. (plain_comb x.0, x.1.now)) result (spec.combiner self.now.source.now tokens.now) }
    {
        let at = place(tokens);
        let rest = skip(tokens, TokenKind::OpenCurly)?;
        let (comb, rest) = self.combiner_inside(at, rest)?;
        let rest = skip(rest, TokenKind::CloseCurly)?;
        Ok((comb, rest))
    }
}
