//! Names and numbers.

ghost use Rattle.std.specs.Prelude.{◌≡◌, ◌≤◌, IfOk, string_bytes, encode_utf8_all};
ghost use Rattle.sp_reader.specs.Names as spec;
ghost use Rattle.sp_reader.specs.Plain.{plain_digits, plain_ident};
ghost use Rattle.sp_reader.specs.Steps.{Gives};

use crate::error::Stop;
use crate::grammar::parser::{Parser, peek, place, refuse, sees, tail};
use crate::number;
use crate::syntax::expression::{Digits, Ident};
use crate::token::{Token, TokenKind, is_name};
use std::alloc::{AllocError, Global};

/// The text of a name.
fn text(alloc: Global, mut bytes: &[u8]) -> Result<String, AllocError>
    ensures { IfOk result (λ t. string_bytes t ≡ encode_utf8_all bytes.entry.now) }
{
    let mut text = String::new(alloc);
    while let [b, rest @ ..] = bytes {
        text.push(char::from(*b))?;
        bytes = rest;
    }
    Ok(text)
}

impl Parser<'_> {
    #[tactic(auto, unfolding(crate::specs::Names::name))]
    pub fn name<'t>(&self, tokens: &'t [Token]) -> Result<(Ident, &'t [Token]), Stop>
        ensures { Gives (λ x. (plain_ident x.0, x.1.now)) result (spec.name self.now.source.now tokens.now) }
    {
        if !is_name(peek(tokens)) {
            return Err(refuse(tokens));
        }
        let ident = Ident {
            at: place(tokens),
            text: text(self.alloc, self.spelling(tokens))?,
        };
        Ok((ident, tail(tokens)))
    }

    #[tactic(auto, unfolding(crate::specs::Names::number))]
    /// A number, which begins at `at` with its sign.
    pub fn number<'t>(
        &self,
        at: u32,
        negative: bool,
        tokens: &'t [Token],
    ) -> Result<(Digits, &'t [Token]), Stop>
        ensures { Gives (λ x. (plain_digits x.0, x.1.now)) result (spec.number self.now.source.now at negative tokens.now) }
    {
        if !sees(tokens, TokenKind::Number) {
            return Err(refuse(tokens));
        }
        let spelling = self.spelling(tokens);
        let Some(whole) = number::whole(spelling) else {
            return Err(refuse(tokens));
        };
        let digits = Digits {
            at,
            negative,
            whole,
            digits: number::fraction_digits(self.alloc, spelling)?,
        };
        Ok((digits, tail(tokens)))
    }

    #[tactic(auto, unfolding(crate::specs::Names::whole))]
    /// A number without a point from `least` to `most`.
    pub fn whole<'t>(
        &self,
        least: u32,
        most: u32,
        tokens: &'t [Token],
    ) -> Result<(u32, &'t [Token]), Stop>
        ensures value { Gives (λ x. (x.0, x.1.now)) result (spec.whole self.now.source.now least most tokens.now) }
        ensures bound { IfOk result (λ x. x.0 ≤ most) }
    {
        let spelling = self.spelling(tokens);
        if !sees(tokens, TokenKind::Number) || number::has_point(spelling) {
            return Err(refuse(tokens));
        }
        match number::whole(spelling) {
            Some(whole) if u128::from(least) <= whole && whole <= u128::from(most) => {
                Ok((whole as u32, tail(tokens)))
            }
            _ => Err(refuse(tokens)),
        }
    }

    /// A dimension, a depth, a step or a number of lanes.
    #[tactic(auto, unfolding(crate::specs::Names::count))]
    pub fn count<'t>(&self, tokens: &'t [Token]) -> Result<(u32, &'t [Token]), Stop>
        ensures { Gives (λ x. (x.0, x.1.now)) result (spec.count self.now.source.now tokens.now) }
    {
        self.whole(1, 2_147_483_647, tokens)
    }

    /// By how many bits a shift goes: 0 to 63.
    pub fn shift_amount<'t>(&self, tokens: &'t [Token]) -> Result<(u8, &'t [Token]), Stop>
        ensures { Gives (λ x. (x.0, x.1.now)) result (spec.whole self.now.source.now 0 63 tokens.now) }
    {
        let (by, rest) = self.whole(0, 63, tokens)?;
        Ok((by as u8, rest))
    }
}
