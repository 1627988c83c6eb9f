//! From a statement to its tokens.

ghost use Rattle.std.specs.Prelude.{◌≡◌, ◌+◌, ◌^◌, ◌<◌, ◌≤◌, length, IfOk};
ghost use Rattle.f3_lex.specs.Tokens.{is_blank, text_of, front, depth_after, tokens_of};
ghost use Rattle.f3_lex.specs.Faults.{place_at, fault_of, HasFault};

use crate::fault::first_broken;
use crate::length::{
    constant_length, integer_length, name_length, sign_length, truth_length, word_length,
};
use crate::token::{Lexed, Token, TokenKind};
use f3_places::source::Place;
use f3_rules::refusal::Refusal;
use f3_text::statement::RawStatement;
use std::alloc::{AllocError, Global};

/// How many bytes of a statement there are to a token, by guess: for so many there is room at first.
const TOKEN_BYTES: usize = 3;

/// The bytes of a token of a statement; those within the statement, where the token is of another one.
pub fn text(bytes: &[u8], token: Token) -> &[u8]
    ensures { result.now ≡ text_of token bytes.now }
{
    let end = token.end.min(bytes.len());
    let start = token.start.min(end);
    &bytes[start..end]
}

/// The place of a token's first byte; 0 throughout where the statement has no place for it.
pub fn place(statement: &RawStatement, token: Token) -> Place
    ensures { result ≡ place_at statement.now token.start }
{
    place_at(statement, token.start)
}

fn place_at(statement: &RawStatement, at: usize) -> Place
    ensures { result ≡ place_at statement.now at }
{
    match statement.places.get(at) {
        Some(place) => *place,
        None => Place {
            file: 0,
            line: 0,
            column: 0,
        },
    }
}

fn is_blank(byte: u8) -> bool
    ensures { result ≡ is_blank byte }
{
    byte == b' ' || byte == b'\t'
}

/// The kind and the length of the token at the front, where so many parentheses and brackets are open.
fn front(depth: usize, bytes: &[u8]) -> (TokenKind, usize)
    ensures value { result ≡ front depth bytes.now }
    ensures within { 0 < length bytes.now → (0 < result.1) × (result.1 ≤ length bytes.now) }
{
    let name = name_length(bytes);
    if name > 0 {
        return (TokenKind::Name, name);
    }
    let digits = integer_length(bytes);
    if digits > 0 {
        return (TokenKind::Integer, digits);
    }
    let truth = truth_length(bytes);
    if truth > 0 {
        return (TokenKind::Truth, truth);
    }
    let word = word_length(bytes);
    if word > 0 {
        return (TokenKind::Word, word);
    }
    let constant = constant_length(bytes);
    if constant > 0 {
        return (TokenKind::Text, constant);
    }
    let sign = sign_length(depth, bytes);
    if sign > 0 {
        return (TokenKind::Sign, sign);
    }
    (TokenKind::Other, 1)
}

/// How many parentheses and brackets are open behind a token of these bytes.
fn depth_after(depth: usize, text: &[u8]) -> usize
    requires { depth + 1 < 2 ^ 64 }
    ensures value { result ≡ depth_after depth text.now }
    ensures one_more { result ≤ depth + 1 }
{
    if text.is_empty() {
        return depth;
    }
    if text[0] == b'(' || text[0] == b'[' {
        return depth + 1;
    }
    let last = text[text.len() - 1];
    if last == b')' || last == b']' {
        depth.saturating_sub(1)
    } else {
        depth
    }
}

/// The tokens of a statement.
fn scan(alloc: Global, bytes: &[u8]) -> Result<Vec<Token>, AllocError>
    ensures { IfOk result (λ tokens. tokens.items ≡ tokens_of bytes.now) }
{
    let mut tokens = Vec::with_capacity(alloc, bytes.len() / TOKEN_BYTES + 1)?;
    let mut depth = 0usize;
    let mut start = 0usize;
    while start < bytes.len() {
        if is_blank(bytes[start]) {
            start += 1;
            continue;
        }
        let rest = &bytes[start..];
        let (kind, length) = front(depth, rest);
        depth = depth_after(depth, &rest[..length]);
        tokens.push(Token {
            kind,
            start,
            end: start + length,
        })?;
        start += length;
    }
    Ok(tokens)
}

/// The tokens of a statement, spans in order, and the first break of S3 or S4: a name of more than 63 bytes is a
/// name still, and a literal past the largest of its kind an integer. AllocError where the host's memory has no room.
pub fn tokens(alloc: Global, statement: &RawStatement) -> Result<Lexed, AllocError>
    ensures tokens { IfOk result (λ lexed. lexed.tokens.items ≡ tokens_of statement.now.bytes.items) }
    ensures fault { IfOk result (λ lexed. HasFault lexed.fault (fault_of statement.now)) }
{
    let tokens = scan(alloc, &statement.bytes)?;
    let fault = match first_broken(&statement.bytes, &tokens) {
        Some((start, rule)) => {
            let place = place_at(statement, start);
            Some(Refusal {
                place,
                rule,
                name: String::new(alloc),
            })
        }
        None => None,
    };
    Ok(Lexed { tokens, fault })
}
