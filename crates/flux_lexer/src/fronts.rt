//! What begins a text: a blank, a comment or a token.

ghost use Rattle.std.specs.Prelude.{◌≡◌, ◌≤◌, length, take, IfSome};
ghost use Rattle.std.specs.List.{prefix_len};
ghost use Rattle.flux_values.specs.Identifiers.{is_digit, is_word_start, is_word_byte};
ghost use Rattle.flux_lexer.specs.Pieces.{is_blank, close_of, line_length};
ghost use Rattle.flux_lexer.specs.steps.Fronts.{limited, slash_front, arrow_front, front_of};

use crate::kinds::{TokenKind, single, word_kind};
use flux_values::TEXT_LIMIT;

/// What begins a text, with its length in bytes.
#[derive(Clone, Copy)]
pub enum Front {
    /// A blank or a comment.
    Skip(usize),
    Token(TokenKind, usize),
    /// A comment that nothing closes, up to the end.
    Unclosed,
    /// None of these.
    Bad,
}

fn is_blank(byte: u8) -> bool
    ensures { result ≡ is_blank byte }
{
    matches!(byte, b' ' | b'\t' | b'\n' | b'\r')
}

fn is_word_start(byte: u8) -> bool
    ensures { result ≡ is_word_start byte }
{
    byte.is_ascii_alphabetic() || byte == b'_'
}

fn is_word_byte(byte: u8) -> bool
    ensures { result ≡ is_word_byte byte }
{
    is_word_start(byte) || is_digit(byte)
}

fn is_digit(byte: u8) -> bool
    ensures { result ≡ is_digit byte }
{
    byte.is_ascii_digit()
}

fn word_length(text: &[u8]) -> usize
    ensures value { result ≡ prefix_len is_word_byte text.now }
    ensures within { result ≤ length text.now }
{
    text.iter().take_while(|byte| is_word_byte(**byte)).count()
}

fn number_length(text: &[u8]) -> usize
    ensures value { result ≡ prefix_len is_digit text.now }
    ensures within { result ≤ length text.now }
{
    text.iter().take_while(|byte| is_digit(**byte)).count()
}

fn line_length(text: &[u8]) -> usize
    ensures value { result ≡ line_length text.now }
    ensures within { result ≤ length text.now }
{
    text.iter().take_while(|byte| **byte != b'\n').count()
}

/// How many bytes are before the first `*/`.
fn find_close(text: &[u8]) -> Option<usize>
    ensures value { result ≡ close_of text.now }
    ensures within { IfSome result (λ n. n ≤ length text.now) }
{
    let mut rest = text;
    for at in 0..text.len() {
        match rest {
            [b'*', b'/', ..] => return Some(at),
            [_, after @ ..] => rest = after,
            [] => return None,
        }
    }
    None
}

/// A token of so many bytes, unless it is too long.
fn limited(kind: TokenKind, length: usize) -> Front
    ensures { result ≡ limited kind length }
{
    if length > TEXT_LIMIT {
        Front::Bad
    } else {
        Front::Token(kind, length)
    }
}

/// What a `/` begins, where this follows it.
fn slash_front(rest: &[u8]) -> Front
    ensures { result ≡ slash_front rest.now }
{
    match rest {
        [b'/', line @ ..] => Front::Skip(line_length(line) + 2),
        [b'*', text @ ..] => match find_close(text) {
            Some(length) => Front::Skip(length + 4),
            None => Front::Unclosed,
        },
        _ => Front::Bad,
    }
}

fn arrow_front(arrow: TokenKind, other: Front, rest: &[u8]) -> Front
    ensures { result ≡ arrow_front arrow other rest.now }
{
    match rest {
        [b'>', ..] => Front::Token(arrow, 2),
        _ => other,
    }
}

/// What begins the text.
pub fn front_of(text: &[u8]) -> Front
    ensures { result ≡ front_of text.now }
{
    match text {
        [] => Front::Bad,
        [first, rest @ ..] => {
            if is_word_start(*first) {
                let length = word_length(text);
                limited(word_kind(&text[..length]), length)
            } else if is_digit(*first) {
                limited(TokenKind::Number, number_length(text))
            } else if is_blank(*first) {
                Front::Skip(1)
            } else if *first == b'/' {
                slash_front(rest)
            } else if *first == b'-' {
                arrow_front(TokenKind::ThinArrow, Front::Bad, rest)
            } else if *first == b'=' {
                arrow_front(TokenKind::Arrow, Front::Token(TokenKind::Equals, 1), rest)
            } else {
                match single(*first) {
                    Some(kind) => Front::Token(kind, 1),
                    None => Front::Bad,
                }
            }
        }
    }
}
