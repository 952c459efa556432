//! Names with commas between, and the names that a body binds.

ghost use Rattle.sp_reader.specs.Plain.{plain_ident};
ghost use Rattle.sp_reader.specs.PlainProgram.{plain_idents};
ghost use Rattle.sp_reader.specs.SpanRules as spec;
ghost use Rattle.sp_reader.specs.Steps.{Gives};

use crate::error::Stop;
use crate::grammar::parser::{Parser, refuse, sees, skip, tail};
use crate::syntax::expression::Ident;
use crate::token::{Token, TokenKind};

impl Parser<'_> {
    fn names<'t>(&self, tokens: &'t [Token]) -> Result<(Vec<Ident>, &'t [Token]), Stop>
        ensures { Gives (λ x. (plain_idents x.0.items, x.1.now)) result (spec.names self.now.source.now tokens.now) }
    {
        let mut found = Vec::new(self.alloc);
        let mut rest = tokens;
        for _turn in 0..tokens.len() {
            let (next, after) = self.name(rest)?;
            found.push(next)?;
            if !sees(after, TokenKind::Comma) {
                return Ok((found, after));
            }
            rest = tail(after);
        }
        Err(refuse(rest))
    }

    #[tactic(auto, unfolding(crate::specs::SpanRules::enclosed_names))]
    fn enclosed_names<'t>(&self, tokens: &'t [Token]) -> Result<(Vec<Ident>, &'t [Token]), Stop>
        ensures { Gives (λ x. (plain_idents x.0.items, x.1.now)) result (spec.enclosed_names self.now.source.now tokens.now) }
    {
        let (names, rest) = self.names(tokens)?;
        let rest = skip(rest, TokenKind::CloseRound)?;
        Ok((names, rest))
    }

    /// A name, or names in parentheses.
    #[tactic(auto, unfolding(crate::specs::SpanRules::binds))]
    pub fn binds<'t>(&self, tokens: &'t [Token]) -> Result<(Vec<Ident>, &'t [Token]), Stop>
        ensures { Gives (λ x. (plain_idents x.0.items, x.1.now)) result (spec.binds self.now.source.now tokens.now) }
    {
        if sees(tokens, TokenKind::OpenRound) {
            return self.enclosed_names(tail(tokens));
        }
        let (name, rest) = self.name(tokens)?;
        let mut names = Vec::new(self.alloc);
        names.push(name)?;
        Ok((names, rest))
    }

    /// A name in parentheses.
    #[tactic(auto, unfolding(crate::specs::SpanRules::enclosed_name))]
    pub fn enclosed_name<'t>(&self, tokens: &'t [Token]) -> Result<(Ident, &'t [Token]), Stop>
        ensures { Gives (λ x. (plain_ident x.0, x.1.now)) result (spec.enclosed_name self.now.source.now tokens.now) }
    {
        let rest = skip(tokens, TokenKind::OpenRound)?;
        let (name, rest) = self.name(rest)?;
        let rest = skip(rest, TokenKind::CloseRound)?;
        Ok((name, rest))
    }

    /// Two names with a comma between, in parentheses.
    #[tactic(auto, unfolding(crate::specs::SpanRules::name_pair))]
    pub fn name_pair<'t>(&self, tokens: &'t [Token]) -> Result<(Ident, Ident, &'t [Token]), Stop>
        ensures { Gives (λ x. ((plain_ident x.0, plain_ident x.1), x.2.now)) result (spec.name_pair self.now.source.now tokens.now) }
    {
        let rest = skip(tokens, TokenKind::OpenRound)?;
        let (a, rest) = self.name(rest)?;
        let rest = skip(rest, TokenKind::Comma)?;
        let (b, rest) = self.name(rest)?;
        let rest = skip(rest, TokenKind::CloseRound)?;
        Ok((a, b, rest))
    }
}
