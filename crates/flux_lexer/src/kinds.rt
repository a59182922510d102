//! Kinds of tokens.

ghost use Rattle.std.specs.Prelude.{◌≡◌};
ghost use Rattle.flux_lexer.specs.Kinds.{single, word_kind};

/// What a token is.
#[derive(Clone, Copy, PartialEq, Eq)]
pub enum TokenKind {
    Identifier,
    /// Digits.
    Number,
    /// `source`
    Source,
    /// `typedef`
    Typedef,
    /// `handle`
    Handle,
    /// `error`
    Error,
    /// `atomic`
    Atomic,
    /// `session`
    Session,
    /// `_`
    Wildcard,
    /// `(`
    OpenParen,
    /// `)`
    CloseParen,
    /// `[`
    OpenBracket,
    /// `]`
    CloseBracket,
    /// `{`
    OpenBrace,
    /// `}`
    CloseBrace,
    /// `,`
    Comma,
    /// `;`
    Semicolon,
    /// `:`
    Colon,
    /// `=`
    Equals,
    /// `*`
    Star,
    /// `?`
    Question,
    /// `!`
    Bang,
    /// `->`
    ThinArrow,
    /// `=>`
    Arrow,
}

/// A token with its place in the text: its first byte and the byte after its last, from 0.
#[derive(Clone, Copy, PartialEq, Eq)]
pub struct Token {
    pub kind: TokenKind,
    pub start: u32,
    pub end: u32,
}

/// The token of one byte that is no letter and no digit.
pub fn single(byte: u8) -> Option<TokenKind>
    ensures { result ≡ single byte }
{
    match byte {
        b'(' => Some(TokenKind::OpenParen),
        b')' => Some(TokenKind::CloseParen),
        b'[' => Some(TokenKind::OpenBracket),
        b']' => Some(TokenKind::CloseBracket),
        b'{' => Some(TokenKind::OpenBrace),
        b'}' => Some(TokenKind::CloseBrace),
        b',' => Some(TokenKind::Comma),
        b';' => Some(TokenKind::Semicolon),
        b':' => Some(TokenKind::Colon),
        b'=' => Some(TokenKind::Equals),
        b'*' => Some(TokenKind::Star),
        b'?' => Some(TokenKind::Question),
        b'!' => Some(TokenKind::Bang),
        _ => None,
    }
}

/// The kind of a word.
pub fn word_kind(word: &[u8]) -> TokenKind
    ensures { result ≡ word_kind word.now }
{
    if word == b"source".as_slice() {
        TokenKind::Source
    } else if word == b"typedef".as_slice() {
        TokenKind::Typedef
    } else if word == b"handle".as_slice() {
        TokenKind::Handle
    } else if word == b"error".as_slice() {
        TokenKind::Error
    } else if word == b"atomic".as_slice() {
        TokenKind::Atomic
    } else if word == b"session".as_slice() {
        TokenKind::Session
    } else if word == b"_".as_slice() {
        TokenKind::Wildcard
    } else {
        TokenKind::Identifier
    }
}
