//! Reading a text whole.

ghost use Rattle.std.specs.Prelude.{◌≡◌, ◌≤◌, ◌<◌, ◌^◌, ◌+◌, length, take, IfOk, IfSome};
ghost use Rattle.sp_reader.specs.Limits as spec;
ghost use Rattle.sp_reader.specs.Limits.{Answers};
ghost use Rattle.sp_reader.specs.PlainProgram.{plain_syntax};
ghost use Rattle.sp_reader.specs.ProgramRules.{program};
ghost use Rattle.sp_reader.specs.Tokens.{tokens_of as spelled};

use crate::error::{ReadError, Stop};
use crate::grammar::Parser;
use crate::limits::{Limit, first_passed};
use crate::scan::scan;
use crate::separators::separate;
use crate::syntax::declaration::Syntax;
use crate::token::Token;
use std::alloc::{AllocError, Global};

#[tactic(auto, unfolding(crate::specs::Tokens::tokens_of))]
fn tokens_of(alloc: Global, text: &[u8]) -> Result<Vec<Token>, AllocError>
    requires { length text.now < 2 ^ 32 }
    ensures { IfOk result (λ tokens. tokens.items ≡ spelled text.now) }
{
    let scanned = scan(alloc, text)?;
    let tokens = separate(alloc, &scanned)?;
    Ok(tokens)
}

/// The place of the token of that number, or the text's length.
fn place_of(text: &[u8], mut tokens: &[Token], number: usize) -> u32
    requires { length text.now < 2 ^ 32 }
    ensures { result ≡ spec.place_in text.now tokens.entry.now number }
{
    let mut left = number;
    while let [token, rest @ ..] = tokens {
        if left == 0 {
            return token.at;
        }
        left -= 1;
        tokens = rest;
    }
    text.len() as u32
}

fn refusal_of(limit: Limit, at: u32) -> ReadError
    ensures { result ≡ spec.refusal_of limit at }
{
    match limit {
        Limit::Deep => ReadError::TooDeep { at },
        Limit::Wide => ReadError::LiteralTooWide { at },
    }
}

/// Reads the tokens before the one of that number, which passes a limit.
fn read_before(
    parser: Parser<'_>,
    tokens: &[Token],
    number: usize,
    limit: Limit,
) -> Result<Syntax, ReadError>
    requires short { length parser.source.now < 2 ^ 32 }
    requires within { number < length tokens.now }
    ensures { let source = parser.entry.source.now in
        Answers plain_syntax result (spec.read_before source tokens.now number limit (program source (take number tokens.now))) }
{
    match parser.program(&tokens[..number]) {
        Ok(_) => Err(refusal_of(limit, place_of(parser.source, tokens, number))),
        Err(Stop::Memory) => Err(ReadError::Memory),
        Err(Stop::NoParse { left }) => {
            if left == 0 {
                return Err(refusal_of(limit, place_of(parser.source, tokens, number)));
            }
            let at = place_of(parser.source, tokens, number.saturating_sub(left));
            Err(ReadError::NoParse { at })
        }
    }
}

/// Reads tokens of which none passes a limit.
fn read_all(parser: Parser<'_>, tokens: &[Token]) -> Result<Syntax, ReadError>
    requires { length parser.source.now < 2 ^ 32 }
    ensures { let source = parser.entry.source.now in
        Answers plain_syntax result (spec.read_all source tokens.now (program source tokens.now)) }
{
    match parser.program(tokens) {
        Ok(syntax) => Ok(syntax),
        Err(Stop::Memory) => Err(ReadError::Memory),
        Err(Stop::NoParse { left }) => {
            let at = place_of(parser.source, tokens, tokens.len().saturating_sub(left));
            Err(ReadError::NoParse { at })
        }
    }
}

fn read_text(alloc: Global, text: &[u8]) -> Result<Syntax, ReadError>
    requires { length text.now < 2 ^ 32 }
    ensures { let tokens = spelled text.now in Answers plain_syntax result (spec.read_within text.now tokens (spec.first_passed text.now tokens)) }
{
    let Ok(tokens) = tokens_of(alloc, text) else {
        return Err(ReadError::Memory);
    };
    let parser = Parser {
        alloc,
        source: text,
    };
    match first_passed(alloc, text, &tokens) {
        Err(_) => Err(ReadError::Memory),
        Ok(None) => read_all(parser, &tokens),
        Ok(Some((number, limit))) => read_before(parser, &tokens, number, limit),
    }
}

/// Where the text isn't UTF-8.
fn fault_of(text: &[u8]) -> Option<usize>
    requires { length text.now < 2 ^ 32 }
    ensures value { result ≡ spec.fault_of text.now }
    ensures within { IfSome result (λ at. at ≤ length text.now) }
{
    match str::from_utf8(text) {
        Ok(_) => None,
        Err(fault) => Some(fault.valid_up_to()),
    }
}

/// The tree of a program's text, of at most 1,048,576 bytes. Of the refusals of its tokens that of the first
/// token decides; at one token a number that is too wide goes before what is too deep.
#[tactic(auto, unfolding(crate::specs::Limits::read_of))]
pub fn read(alloc: Global, bytes: &[u8]) -> Result<Syntax, ReadError>
    requires { length bytes.now ≤ 1048576 }
    ensures answer { Answers plain_syntax result (spec.read_of bytes.now) }
{
    if let Some(at) = fault_of(bytes) {
        return Err(ReadError::NotText { at: at as u32 });
    }
    read_text(alloc, bytes)
}
