//! Types, initial values and dimensions.

ghost use Rattle.sp_reader.specs.Plain.{plain_lit};
ghost use Rattle.sp_reader.specs.Steps.{Gives};
ghost use Rattle.sp_reader.specs.TypeRules as spec;

use crate::error::Stop;
use crate::grammar::parser::{Parser, place, refuse, sees, skip, tail};
use crate::number;
use crate::syntax::expression::{SynLit, SynTy};
use crate::token::{Token, TokenKind};

/// Whether the numbers of a type have a sign.
#[tactic(auto, unfolding(crate::specs::TypeRules::has_sign))]
fn has_sign(tokens: &[Token]) -> Result<(bool, &[Token]), Stop>
    ensures { Gives (λ x. (x.0, x.1.now)) result (spec.has_sign tokens.now) }
{
    if sees(tokens, TokenKind::Signed) {
        Ok((true, tail(tokens)))
    } else if sees(tokens, TokenKind::Unsigned) {
        Ok((false, tail(tokens)))
    } else {
        Err(refuse(tokens))
    }
}

/// The numbers, after their closing parenthesis.
fn ends(found: Vec<u32>, tokens: &[Token]) -> Result<(Vec<u32>, &[Token]), Stop>
    ensures { Gives (λ x. (x.0.items, x.1.now)) result (spec.ends found.items tokens.now) }
{
    let rest = skip(tokens, TokenKind::CloseRound)?;
    Ok((found, rest))
}

impl Parser<'_> {
    #[tactic(auto, unfolding(crate::specs::TypeRules::width))]
    fn width<'t>(&self, tokens: &'t [Token]) -> Result<(u8, &'t [Token]), Stop>
        ensures { Gives (λ x. (x.0, x.1.now)) result (spec.width self.now.source.now tokens.now) }
    {
        if !sees(tokens, TokenKind::Width) {
            return Err(refuse(tokens));
        }
        Ok((number::width(self.spelling(tokens)), tail(tokens)))
    }

    #[tactic(auto, unfolding(crate::specs::TypeRules::fixed))]
    fn fixed<'t>(&self, at: u32, tokens: &'t [Token]) -> Result<(SynTy, &'t [Token]), Stop>
        ensures { Gives (λ x. (x.0, x.1.now)) result (spec.fixed self.now.source.now at tokens.now) }
    {
        let rest = skip(tokens, TokenKind::OpenSquare)?;
        let (signed, rest) = has_sign(rest)?;
        let rest = skip(rest, TokenKind::Comma)?;
        let (whole, rest) = self.width(rest)?;
        let rest = skip(rest, TokenKind::Comma)?;
        let (frac, rest) = self.width(rest)?;
        let rest = skip(rest, TokenKind::CloseSquare)?;
        let ty = SynTy::FixPt {
            at,
            signed,
            whole,
            frac,
        };
        Ok((ty, rest))
    }

    #[tactic(auto, unfolding(crate::specs::TypeRules::ty))]
    pub fn ty<'t>(&self, tokens: &'t [Token]) -> Result<(SynTy, &'t [Token]), Stop>
        ensures { Gives (λ x. (x.0, x.1.now)) result (spec.ty self.now.source.now tokens.now) }
    {
        let at = place(tokens);
        if sees(tokens, TokenKind::Int) {
            Ok((SynTy::Int { at }, tail(tokens)))
        } else if sees(tokens, TokenKind::Bit) {
            Ok((SynTy::Bit { at }, tail(tokens)))
        } else if sees(tokens, TokenKind::FixPt) {
            self.fixed(at, tail(tokens))
        } else {
            Err(refuse(tokens))
        }
    }

    /// A type in square brackets.
    #[tactic(auto, unfolding(crate::specs::TypeRules::bracketed))]
    pub fn bracketed<'t>(&self, tokens: &'t [Token]) -> Result<(SynTy, &'t [Token]), Stop>
        ensures { Gives (λ x. (x.0, x.1.now)) result (spec.bracketed self.now.source.now tokens.now) }
    {
        let rest = skip(tokens, TokenKind::OpenSquare)?;
        let (ty, rest) = self.ty(rest)?;
        let rest = skip(rest, TokenKind::CloseSquare)?;
        Ok((ty, rest))
    }

    /// What stands after `.` of a cast.
    #[tactic(auto, unfolding(crate::specs::TypeRules::target))]
    pub fn target<'t>(&self, tokens: &'t [Token]) -> Result<(SynTy, &'t [Token]), Stop>
        ensures { Gives (λ x. (x.0, x.1.now)) result (spec.target self.now.source.now tokens.now) }
    {
        let rest = skip(tokens, TokenKind::To)?;
        self.bracketed(rest)
    }

    #[tactic(auto, unfolding(crate::specs::TypeRules::number_literal))]
    fn number_literal<'t>(
        &self,
        at: u32,
        negative: bool,
        tokens: &'t [Token],
    ) -> Result<(SynLit, &'t [Token]), Stop>
        ensures { Gives (λ x. (plain_lit x.0, x.1.now)) result (spec.number_literal self.now.source.now at negative tokens.now) }
    {
        let (digits, rest) = self.number(at, negative, tokens)?;
        if !sees(rest, TokenKind::Dot) {
            return Ok((SynLit::Number(digits, None), rest));
        }
        let (ty, rest) = self.target(tail(rest))?;
        Ok((SynLit::Number(digits, Some(ty)), rest))
    }

    #[tactic(auto, unfolding(crate::specs::TypeRules::literal))]
    pub fn literal<'t>(&self, tokens: &'t [Token]) -> Result<(SynLit, &'t [Token]), Stop>
        ensures { Gives (λ x. (plain_lit x.0, x.1.now)) result (spec.literal self.now.source.now tokens.now) }
    {
        let at = place(tokens);
        if sees(tokens, TokenKind::True) {
            Ok((SynLit::Truth { at, value: true }, tail(tokens)))
        } else if sees(tokens, TokenKind::False) {
            Ok((SynLit::Truth { at, value: false }, tail(tokens)))
        } else if sees(tokens, TokenKind::Minus) {
            self.number_literal(at, true, tail(tokens))
        } else {
            self.number_literal(at, false, tokens)
        }
    }

    /// One to three dimensions in parentheses.
    #[tactic(auto, unfolding(crate::specs::TypeRules::dims))]
    pub fn dims<'t>(&self, tokens: &'t [Token]) -> Result<(Vec<u32>, &'t [Token]), Stop>
        ensures { Gives (λ x. (x.0.items, x.1.now)) result (spec.dims self.now.source.now tokens.now) }
    {
        let mut dims = Vec::new(self.alloc);
        let rest = skip(tokens, TokenKind::OpenRound)?;
        let (first, rest) = self.count(rest)?;
        dims.push(first)?;
        if !sees(rest, TokenKind::Comma) {
            return ends(dims, rest);
        }
        let (second, rest) = self.count(tail(rest))?;
        dims.push(second)?;
        if !sees(rest, TokenKind::Comma) {
            return ends(dims, rest);
        }
        let (third, rest) = self.count(tail(rest))?;
        dims.push(third)?;
        ends(dims, rest)
    }
}
