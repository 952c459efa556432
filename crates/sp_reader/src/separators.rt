//! The `;` that line ends insert.

ghost use Rattle.std.specs.Prelude.{◌≡◌, ◌++◌, [], IfOk, OnOk};
ghost use Rattle.sp_reader.specs.Tokens as spec;

use crate::scan::Scanned;
use crate::token::{Token, TokenKind, is_name};
use std::alloc::{AllocError, Global};

/// Whether a statement may end with a token of this kind.
fn may_end(kind: TokenKind) -> bool
    ensures { result ≡ spec.may_end kind }
{
    match kind {
        TokenKind::Number
        | TokenKind::True
        | TokenKind::False
        | TokenKind::CloseRound
        | TokenKind::CloseSquare
        | TokenKind::CloseCurly => true,
        _ => is_name(kind),
    }
}

/// Whether a declaration, a statement or a value may begin with a token of this kind.
fn may_begin(kind: TokenKind) -> bool
    ensures { result ≡ spec.may_begin kind }
{
    match kind {
        TokenKind::Number
        | TokenKind::True
        | TokenKind::False
        | TokenKind::OpenRound
        | TokenKind::Minus
        | TokenKind::Bang
        | TokenKind::Tilde
        | TokenKind::Val
        | TokenKind::Accel
        | TokenKind::If
        | TokenKind::Mux
        | TokenKind::Min
        | TokenKind::Max
        | TokenKind::Foreach
        | TokenKind::Reduce
        | TokenKind::Fold
        | TokenKind::MemReduce
        | TokenKind::Fsm
        | TokenKind::Sequential
        | TokenKind::Pipe
        | TokenKind::Parallel
        | TokenKind::Stream => true,
        _ => is_name(kind),
    }
}

/// Whether statements may stand inside of the innermost open bracket.
fn may_split(innermost: Option<TokenKind>) -> bool
    ensures { result ≡ spec.may_split innermost }
{
    match innermost {
        Some(TokenKind::OpenRound) | Some(TokenKind::OpenSquare) => false,
        _ => true,
    }
}

/// Keeps the open brackets, the innermost last.
fn follow(brackets: &mut Vec<TokenKind>, kind: TokenKind) -> Result<(), AllocError>
    ensures { OnOk result (brackets.new.items ≡ spec.opened brackets.old.items kind) }
{
    match kind {
        TokenKind::OpenRound => brackets.push(TokenKind::OpenRound)?,
        TokenKind::OpenSquare => brackets.push(TokenKind::OpenSquare)?,
        TokenKind::OpenCurly => brackets.push(TokenKind::OpenCurly)?,
        TokenKind::CloseRound | TokenKind::CloseSquare | TokenKind::CloseCurly => {
            let _ = brackets.pop();
        }
        _ => {}
    }
    Ok(())
}

fn inserts(before: TokenKind, brackets: &[TokenKind], next: Scanned) -> bool
    ensures { result ≡ spec.inserts before brackets.now next }
{
    next.breaks
        && may_end(before)
        && may_begin(next.token.kind)
        && may_split(brackets.last().copied())
}

/// Adds a token, and the `;` before it.
fn add(
    tokens: &mut Vec<Token>,
    before: TokenKind,
    brackets: &[TokenKind],
    next: Scanned,
) -> Result<(), AllocError>
    ensures { OnOk result (tokens.new.items ≡ tokens.old.items ++ spec.with_separator before brackets.now next) }
{
    if inserts(before, brackets, next) {
        let at = next.token.at;
        tokens.push(Token {
            kind: TokenKind::Semicolon,
            at,
            end: at,
        })?;
    }
    tokens.push(next.token)?;
    Ok(())
}

/// The tokens with the `;` that line ends insert: where one stands between two tokens, a statement may end
/// with the first and begin with the second, and the innermost open bracket isn't `(` or `[`.
pub fn separate(alloc: Global, mut scanned: &[Scanned]) -> Result<Vec<Token>, AllocError>
    ensures { IfOk result (λ tokens. tokens.items ≡ spec.separated TokenKind.End [] scanned.entry.now) }
{
    let mut tokens = Vec::new(alloc);
    let mut brackets = Vec::new(alloc);
    let mut before = TokenKind::End;
    while let [next, rest @ ..] = scanned {
        add(&mut tokens, before, &brackets, *next)?;
        before = next.token.kind;
        follow(&mut brackets, before)?;
        scanned = rest;
    }
    Ok(tokens)
}
