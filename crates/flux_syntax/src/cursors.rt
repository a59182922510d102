//! The tokens that are left to be read.

ghost use Rattle.std.specs.Prelude.{◌≡◌, ◌≤◌, ◌<◌, true, length, if◌then◌else◌, IfOk, IfErr, OnOk, map};
ghost use Rattle.flux_syntax.specs.declared.cursors.Stop.TheVariants as Stop;
ghost use Rattle.flux_syntax.specs.Symbols.{is, word_of, symbol_of};
ghost use Rattle.flux_syntax.specs.steps.Cursors.{Lies, Fit};
ghost use Rattle.flux_syntax.specs.steps.Reading.{Reads, begins, kind_at, behind, name_at, number_at, mark_at};

use crate::declarations::Word;
use flux_lexer::{PROGRAM_LIMIT, Token, TokenKind};
use flux_values::{Memory, TextBytes, TextFault};
use std::alloc::Global;
use std::marker::Model;

/// Why reading stops: at a token that doesn't fit, which is then the next one, or for want of
/// memory.
#[derive(Clone, Copy, PartialEq, Eq)]
pub enum Stop {
    Unexpected,
    Memory,
}

impl From<Memory> for Stop {
    ghost from_gives = { λ _ stop. stop ≡ Stop.Memory };

    fn from(_e: Memory) -> Stop {
        Stop::Memory
    }
}

/// The tokens of a text that are left, seen as names, numbers and marks.
#[derive(Drop)]
pub struct Cursor<'a> {
    alloc: Global,
    text: &'a [u8],
    tokens: &'a [Token],
}

impl<'a> Model for Cursor<'a> {
    ghost use Rattle.std.specs.Prelude.{List, map};
    ghost use Rattle.flux_syntax.specs.Symbols.{Symbol, symbol_of};
    ghost use Rattle.flux_syntax.specs.steps.Cursors.{Fit};

    ghost Value = { List Symbol };

    ghost view = { λ c. map (symbol_of c.text.now) c.tokens.now };

    ghost invariant = { λ c. Fit c.text.now c.tokens.now };
}

fn is(a: TokenKind, b: TokenKind) -> bool
    ensures { result ≡ is a b }
{
    a == b
}

/// The word of a token.
fn word(alloc: Global, text: &[u8], token: Token) -> Result<Word, Stop>
    requires { Lies text.now token }
    ensures copied { IfOk result (λ word. word ≡ word_of text.now token) }
    ensures memory { IfErr result (λ stop. stop ≡ Stop.Memory) }
{
    match TextBytes::copy(alloc, &text[token.start as usize..token.end as usize]) {
        Ok(text) => Ok(Word {
            text,
            at: token.start,
        }),
        Err(TextFault::TooLong) => unreachable!(),
        Err(TextFault::Memory) => Err(Stop::Memory),
    }
}

impl<'a> Cursor<'a> {
    /// All tokens of the text.
    pub fn new(alloc: Global, text: &'a [u8], tokens: &'a [Token]) -> Cursor<'a>
        requires { Fit text.now tokens.now }
        ensures { result ≡ map (symbol_of text.now) tokens.now }
    {
        Cursor {
            alloc,
            text,
            tokens,
        }
    }

    pub fn alloc(&self) -> Global {
        self.alloc
    }

    pub fn len(&self) -> usize
        ensures { result ≡ length self.now }
    {
        self.tokens.len()
    }

    /// The kind of the next token.
    pub fn kind(&self) -> Option<TokenKind>
        ensures { result ≡ kind_at self.now }
    {
        match self.tokens {
            [first, ..] => Some(first.kind),
            [] => None,
        }
    }

    pub fn is_next(&self, kind: TokenKind) -> bool
        ensures { result ≡ begins kind self.now }
    {
        match self.tokens {
            [first, ..] => is(kind, first.kind),
            [] => false,
        }
    }

    /// Goes past a token of the kind, where it is next.
    pub fn takes(&mut self, kind: TokenKind) -> bool
        ensures value { result ≡ begins kind self.old }
        ensures rest { self.new ≡ (if begins kind self.old then behind self.old else self.old) }
        ensures shorter { result ≡ true → length self.new < length self.old }
        ensures few { length self.old ≤ PROGRAM_LIMIT }
    {
        match self.tokens {
            [first, rest @ ..] if is(kind, first.kind) => {
                self.tokens = rest;
                true
            }
            _ => false,
        }
    }

    /// Goes past a token of the kind.
    pub fn mark(&mut self, kind: TokenKind) -> Result<(), Stop>
        ensures read { Reads result self.new (mark_at kind self.old) }
        ensures shorter { OnOk result (length self.new < length self.old) }
    {
        if self.takes(kind) {
            Ok(())
        } else {
            Err(Stop::Unexpected)
        }
    }

    /// The name that is next.
    pub fn name(&mut self) -> Result<Word, Stop>
        ensures read { Reads result self.new (name_at self.old) }
        ensures shorter { OnOk result (length self.new < length self.old) }
    {
        match self.tokens {
            [first, rest @ ..] if is(TokenKind::Identifier, first.kind) => {
                let name = word(self.alloc, self.text, *first)?;
                self.tokens = rest;
                Ok(name)
            }
            _ => Err(Stop::Unexpected),
        }
    }

    /// The number that is next.
    pub fn number(&mut self) -> Result<Word, Stop>
        ensures read { Reads result self.new (number_at self.old) }
        ensures shorter { OnOk result (length self.new < length self.old) }
    {
        match self.tokens {
            [first, rest @ ..] if is(TokenKind::Number, first.kind) => {
                let number = word(self.alloc, self.text, *first)?;
                self.tokens = rest;
                Ok(number)
            }
            _ => Err(Stop::Unexpected),
        }
    }
}
