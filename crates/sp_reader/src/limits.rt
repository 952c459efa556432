//! How deep brackets and operators may stand, and how wide numbers may be.

ghost use Rattle.std.specs.Prelude.{◌≡◌, ◌<◌, length, IfOk, IfSome};
ghost use Rattle.sp_reader.specs.Counted.{plain_counts, plain_some};
ghost use Rattle.sp_reader.specs.Limits as spec;

use crate::grammar::peek;
use crate::number::is_too_wide;
use crate::token::{Token, TokenKind, same_kind, spelling};
use std::alloc::{AllocError, Global};

/// So many brackets may be open at once, and so many operators may stand in one place.
const MOST: u32 = 64;

/// Which limit a token passes.
#[derive(Clone, Copy, Debug)]
pub enum Limit {
    Deep,
    Wide,
}

/// The operators of each place that is open: those of the places around, the outermost first, and here.
#[derive(Drop)]
struct Counts {
    around: Vec<u32>,
    here: u32,
}

fn is_operator(kind: TokenKind, next: TokenKind) -> bool
    ensures { result ≡ spec.is_operator kind next }
{
    match kind {
        TokenKind::Plus
        | TokenKind::Minus
        | TokenKind::Star
        | TokenKind::Slash
        | TokenKind::Percent
        | TokenKind::And
        | TokenKind::AndAnd
        | TokenKind::Or
        | TokenKind::OrOr
        | TokenKind::Caret
        | TokenKind::Tilde
        | TokenKind::Bang
        | TokenKind::EqualEqual
        | TokenKind::BangEqual
        | TokenKind::Less
        | TokenKind::LessEqual
        | TokenKind::Greater
        | TokenKind::GreaterEqual
        | TokenKind::ShiftLeft
        | TokenKind::ShiftRight => true,
        TokenKind::Dot => same_kind(next, TokenKind::To),
        _ => false,
    }
}

/// One more operator here, or `None` where it is one too many.
fn more_here(counts: Counts) -> Option<Counts>
    ensures { plain_some result ≡ spec.more_here (plain_counts counts) }
{
    let Counts { around, here } = counts;
    if here < MOST {
        let here = here + 1;
        Some(Counts { around, here })
    } else {
        None
    }
}

/// Inside a bracket, or `None` where it is one too many.
fn inside(counts: Counts) -> Result<Option<Counts>, AllocError>
    ensures { IfOk result (λ more. plain_some more ≡ spec.inside (plain_counts counts)) }
{
    let Counts { mut around, here } = counts;
    if around.len() >= MOST as usize {
        return Ok(None);
    }
    around.push(here)?;
    Ok(Some(Counts { around, here: 0 }))
}

/// Behind a bracket.
fn behind(counts: Counts) -> Counts
    ensures { plain_counts result ≡ spec.behind (plain_counts counts) }
{
    let Counts { mut around, here } = counts;
    match around.pop() {
        Some(before) => Counts {
            around,
            here: before,
        },
        None => Counts { around, here },
    }
}

/// Past a `,` or a `;`.
fn afresh(counts: Counts) -> Counts
    ensures { plain_counts result ≡ spec.afresh (plain_counts counts) }
{
    let Counts { around, here: _ } = counts;
    Counts { around, here: 0 }
}

/// After a token before `next`, or `None` where it passes a limit.
fn taken(counts: Counts, kind: TokenKind, next: TokenKind) -> Result<Option<Counts>, AllocError>
    ensures { IfOk result (λ more. plain_some more ≡ spec.taken (plain_counts counts) kind next) }
{
    match kind {
        TokenKind::OpenRound | TokenKind::OpenSquare | TokenKind::OpenCurly => inside(counts),
        TokenKind::CloseRound | TokenKind::CloseSquare | TokenKind::CloseCurly => {
            Ok(Some(behind(counts)))
        }
        TokenKind::Comma | TokenKind::Semicolon => Ok(Some(afresh(counts))),
        _ => {
            if is_operator(kind, next) {
                Ok(more_here(counts))
            } else {
                Ok(Some(counts))
            }
        }
    }
}

fn is_wide(source: &[u8], token: Token) -> bool
    ensures { result ≡ spec.is_wide source.now token }
{
    same_kind(token.kind, TokenKind::Number) && is_too_wide(spelling(source, token))
}

/// The number of the first token that passes a limit, counted from 0, and which limit.
#[tactic(auto, unfolding(crate::specs::Limits::first_passed))]
pub fn first_passed(
    alloc: Global,
    source: &[u8],
    mut tokens: &[Token],
) -> Result<Option<(usize, Limit)>, AllocError>
    ensures value { IfOk result (λ passed. passed ≡ spec.first_passed source.now tokens.entry.now) }
    ensures within { IfOk result (λ passed. IfSome passed (λ p. p.0 < length tokens.entry.now)) }
{
    let mut counts = Counts {
        around: Vec::new(alloc),
        here: 0,
    };
    let mut number = 0;
    while let [token, rest @ ..] = tokens {
        if is_wide(source, *token) {
            return Ok(Some((number, Limit::Wide)));
        }
        match taken(counts, token.kind, peek(rest))? {
            Some(more) => counts = more,
            None => return Ok(Some((number, Limit::Deep))),
        }
        number += 1;
        tokens = rest;
    }
    Ok(None)
}
