//! Cuts a text into tokens and what lies between them.

ghost use Rattle.std.specs.Prelude.{◌≡◌, ◌≢◌, ◌≤◌, ◌<◌, ◌+◌, ◌^◌, ◌++◌, length, map, slice_index, OnOk, IfOk, IfSome, true};
ghost use Rattle.sp_reader.specs.Classes.{is_in};
ghost use Rattle.sp_reader.specs.Tokens as spec;

use crate::class::{Class, past};
use crate::token::{SIGNS, Token, TokenKind, WORDS};
use std::alloc::{AllocError, Global};

/// A token, and whether a line end stands between it and the one before.
#[derive(Clone, Copy, Debug)]
pub struct Scanned {
    pub token: Token,
    pub breaks: bool,
}

/// What stands at the front of a text.
#[derive(Clone, Copy, Debug)]
pub enum Piece {
    /// So many bytes of a blank or a comment.
    Gap(usize),
    /// A token of so many bytes.
    Token(TokenKind, usize),
    /// A comment without its end.
    Open,
}

fn byte(text: &[u8], at: usize) -> u8
    ensures value { result ≡ slice_index text.now at }
    ensures within { result ≢ 0 → at < length text.now }
{
    if at < text.len() { text[at] } else { 0 }
}

fn lookup(mut table: &[(&[u8], TokenKind)], word: &[u8]) -> TokenKind
    ensures { result ≡ spec.lookup (map (λ w. (w.0.now, w.1)) table.entry.now) word.now }
{
    while let [entry, rest @ ..] = table {
        if entry.0 == word {
            return entry.1;
        }
        table = rest;
    }
    TokenKind::Name
}

#[tactic(auto, unfolding(crate::specs::Tokens::word_kind))]
fn word_kind(word: &[u8]) -> TokenKind
    ensures { result ≡ spec.word_kind word.now }
{
    lookup(&WORDS, word)
}

fn first_sign(mut table: &[(&[u8], TokenKind)], text: &[u8]) -> (TokenKind, usize)
    requires { 1 ≤ length text.now }
    ensures value { result ≡ spec.first_sign (map (λ s. (s.0.now, s.1)) table.entry.now) text.now }
    ensures within { result.1 ≤ length text.now }
{
    while let [entry, rest @ ..] = table {
        if text.starts_with(entry.0) {
            return (entry.1, entry.0.len());
        }
        table = rest;
    }
    (TokenKind::Other, 1)
}

#[tactic(auto, unfolding(crate::specs::Tokens::sign_of))]
fn sign_of(text: &[u8]) -> (TokenKind, usize)
    requires { 1 ≤ length text.now }
    ensures value { result ≡ spec.sign_of text.now }
    ensures within { result.1 ≤ length text.now }
{
    first_sign(&SIGNS, text)
}

/// The length of a character, by its first byte.
fn char_len(first: u8) -> usize
    ensures { result ≡ spec.char_len first }
{
    if first < 0xc0 {
        1
    } else if first < 0xe0 {
        2
    } else if first < 0xf0 {
        3
    } else {
        4
    }
}

fn word(text: &[u8]) -> Piece
    ensures value { result ≡ spec.a_word text.now }
    ensures within { spec.len_of result text.now ≤ length text.now }
{
    let end = past(Class::Word, text, 0);
    Piece::Token(word_kind(&text[..end]), end)
}

fn number_end(text: &[u8]) -> usize
    ensures value { result ≡ spec.number_end text.now }
    ensures within { result ≤ length text.now }
{
    let whole = past(Class::Digit, text, 0);
    if byte(text, whole) == b'.' && byte(text, whole + 1).is_ascii_digit() {
        past(Class::Digit, text, whole + 1)
    } else {
        whole
    }
}

fn number(text: &[u8]) -> Piece
    ensures value { result ≡ spec.a_number text.now }
    ensures within { spec.len_of result text.now ≤ length text.now }
{
    if byte(text, 0) == b'0' && byte(text, 1) == b'x' && byte(text, 2).is_ascii_hexdigit() {
        Piece::Token(TokenKind::Number, past(Class::Hex, text, 2))
    } else {
        Piece::Token(TokenKind::Number, number_end(text))
    }
}

fn underscore(text: &[u8]) -> Piece
    requires { 1 ≤ length text.now }
    ensures value { result ≡ spec.an_underscore text.now }
    ensures within { spec.len_of result text.now ≤ length text.now }
{
    let end = past(Class::Digit, text, 1);
    if end == 1 {
        Piece::Token(TokenKind::Wild, 1)
    } else {
        Piece::Token(TokenKind::Width, end)
    }
}

/// The number of bytes up to and with the first `*/`.
fn comment_len(mut text: &[u8]) -> Option<usize>
    ensures value { result ≡ spec.comment_from 0 text.entry.now }
    ensures within { IfSome result (λ len. len ≤ length text.entry.now) }
{
    let mut before = 0;
    while let [b, rest @ ..] = text {
        if *b == b'*' && byte(rest, 0) == b'/' {
            return Some(before + 2);
        }
        before += 1;
        text = rest;
    }
    None
}

fn slash(text: &[u8]) -> Piece
    requires { 1 ≤ length text.now }
    ensures value { result ≡ spec.a_slash text.now }
    ensures within { spec.len_of result text.now ≤ length text.now }
{
    let next = byte(text, 1);
    if next == b'/' {
        Piece::Gap(past(Class::Line, text, text.len().min(2)))
    } else if next == b'*' {
        match comment_len(&text[2..]) {
            Some(len) => Piece::Gap(len + 2),
            None => Piece::Open,
        }
    } else {
        Piece::Token(TokenKind::Slash, 1)
    }
}

fn is_blank(b: u8) -> bool
    ensures { result ≡ spec.is_blank b }
{
    b == b' ' || b == b'\t' || b == b'\r' || b == b'\n'
}

/// What stands at the front of a text that has a byte.
#[tactic(auto, unfolding(crate::specs::Tokens::front))]
fn front(text: &[u8]) -> Piece
    requires { 1 ≤ length text.now }
    ensures value { result ≡ spec.front text.now }
    ensures within { spec.len_of result text.now ≤ length text.now }
{
    let first = byte(text, 0);
    if is_blank(first) {
        Piece::Gap(1)
    } else if first == b'/' {
        slash(text)
    } else if first.is_ascii_alphabetic() {
        word(text)
    } else if first.is_ascii_digit() {
        number(text)
    } else if first == b'_' {
        underscore(text)
    } else if first < 128 {
        let (kind, len) = sign_of(text);
        Piece::Token(kind, len)
    } else {
        Piece::Token(TokenKind::Other, char_len(first).min(text.len()))
    }
}

fn len_of(piece: Piece, text: &[u8]) -> usize
    ensures { result ≡ spec.len_of piece text.now }
{
    match piece {
        Piece::Gap(len) => len,
        Piece::Token(_, len) => len,
        Piece::Open => text.len(),
    }
}

fn breaks_after(piece: Piece, breaks: bool, text: &[u8]) -> bool
    requires { spec.len_of piece text.now ≤ length text.now }
    ensures { result ≡ spec.breaks_after piece breaks text.now }
{
    match piece {
        Piece::Gap(len) => breaks || text[..len].contains(&b'\n'),
        _ => false,
    }
}

fn token_of(kind: TokenKind, at: usize, end: usize, breaks: bool) -> Scanned
    requires fits { end < 2 ^ 32 }
    requires order { at ≤ end }
    ensures { result ≡ spec.token_of kind at end breaks }
{
    let token = Token {
        kind,
        at: at as u32,
        end: end as u32,
    };
    Scanned { token, breaks }
}

/// Adds the token that a piece at `at` is.
fn add(
    found: &mut Vec<Scanned>,
    piece: Piece,
    at: usize,
    breaks: bool,
    text: &[u8],
) -> Result<(), AllocError>
    requires fits { at + length text.now < 2 ^ 32 }
    requires within { spec.len_of piece text.now ≤ length text.now }
    ensures { OnOk result (found.new.items ≡ found.old.items ++ spec.tokens_of_piece piece at breaks text.now) }
{
    match piece {
        Piece::Gap(_) => {}
        Piece::Token(kind, len) => found.push(token_of(kind, at, at + len, breaks))?,
        Piece::Open => {
            let end = at + text.len();
            found.push(token_of(TokenKind::Other, end, end, breaks))?;
        }
    }
    Ok(())
}

/// The tokens of the text, in order, as they are written.
pub fn scan(alloc: Global, text: &[u8]) -> Result<Vec<Scanned>, AllocError>
    requires { length text.now < 2 ^ 32 }
    ensures { IfOk result (λ found. found.items ≡ spec.scanned text.now) }
{
    let mut found = Vec::new(alloc);
    let mut rest = text;
    let mut at = 0;
    let mut breaks = false;
    for _turn in 0..text.len() {
        if rest.is_empty() {
            return Ok(found);
        }
        let piece = front(rest);
        let len = len_of(piece, rest);
        add(&mut found, piece, at, breaks, rest)?;
        breaks = breaks_after(piece, breaks, rest);
        at += len;
        let (_, after) = rest.split_at(len);
        rest = after;
    }
    Ok(found)
}
