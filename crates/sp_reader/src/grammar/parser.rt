//! The steps that every rule is made of.

ghost use Rattle.std.specs.Prelude.{◌≡◌, length};
ghost use Rattle.sp_reader.specs.Steps as spec;
ghost use Rattle.sp_reader.specs.Steps.{Gives};

use crate::error::Stop;
use crate::token::{Token, TokenKind, same_kind, spelling};
use std::alloc::Global;

/// What the rules read from beside the tokens.
#[derive(Clone, Copy)]
pub struct Parser<'a> {
    pub alloc: Global,
    /// The text whose tokens they are.
    pub source: &'a [u8],
}

/// The kind of the next token.
#[tactic(auto, unfolding(crate::specs::Steps::kind_of))]
pub fn peek(tokens: &[Token]) -> TokenKind
    ensures { result ≡ spec.kind_of tokens.now }
{
    match tokens {
        [] => TokenKind::End,
        [token, ..] => token.kind,
    }
}

/// The tokens after the next.
#[tactic(auto, unfolding(crate::specs::Steps::tail_of))]
pub fn tail(tokens: &[Token]) -> &[Token]
    ensures { result.now ≡ spec.tail_of tokens.now }
{
    match tokens {
        [] => tokens,
        [_, rest @ ..] => rest,
    }
}

/// The place of the next token.
#[tactic(auto, unfolding(crate::specs::Steps::place_of))]
pub fn place(tokens: &[Token]) -> u32
    ensures { result ≡ spec.place_of tokens.now }
{
    match tokens {
        [] => 0,
        [token, ..] => token.at,
    }
}

/// Whether the next token is of this kind.
#[tactic(auto, unfolding(crate::specs::Steps::sees))]
pub fn sees(tokens: &[Token], kind: TokenKind) -> bool
    ensures { result ≡ spec.sees kind tokens.now }
{
    same_kind(peek(tokens), kind)
}

/// No rule goes on with the next token.
pub fn refuse(tokens: &[Token]) -> Stop
    ensures { result ≡ Stop.NoParse (length tokens.now) }
{
    Stop::NoParse { left: tokens.len() }
}

/// The tokens after one of this kind.
#[tactic(auto, unfolding(crate::specs::Steps::skip))]
pub fn skip(tokens: &[Token], kind: TokenKind) -> Result<&[Token], Stop>
    ensures { Gives (λ x. (tt, x.now)) result (spec.skip kind tokens.now) }
{
    if sees(tokens, kind) {
        Ok(tail(tokens))
    } else {
        Err(refuse(tokens))
    }
}

/// The tokens after the `;` at the front, of which there may be any number.
#[tactic(auto, unfolding(crate::specs::Steps::semicolons))]
pub fn semicolons(tokens: &[Token]) -> &[Token]
    ensures { result.now ≡ spec.semicolons tokens.now }
{
    let mut rest = tokens;
    while let [token, after @ ..] = rest {
        if !same_kind(token.kind, TokenKind::Semicolon) {
            return rest;
        }
        rest = after;
    }
    rest
}

impl Parser<'_> {
    /// The bytes of the next token.
    #[tactic(auto, unfolding(crate::specs::Steps::spelling))]
    pub fn spelling(&self, tokens: &[Token]) -> &[u8]
        ensures { result.now ≡ spec.spelling self.now.source.now tokens.now }
    {
        match tokens {
            [] => &[],
            [token, ..] => spelling(self.source, *token),
        }
    }
}
