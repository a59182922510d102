//! The tokens of a whole text.

ghost use Rattle.std.specs.Prelude.{◌≡◌, ◌≤◌, ◌+◌, ◌++◌, [], IfOk, IfErr, OnOk};
ghost use Rattle.flux_faults.specs.Faults.{IsPlacedIn};
ghost use Rattle.flux_faults.specs.declared.faults.CheckFault.TheVariants as refusals;
ghost use Rattle.flux_lexer.specs.Pieces.{token};
ghost use Rattle.flux_lexer.specs.Texts.{token_of, AreTokensOf, IsFaultOf, GivesTokens, GivesFault};

use crate::fronts::{Front, front_of};
use crate::kinds::{Token, TokenKind};
use flux_faults::{CheckFault, FaultKind, StaticFault};
use flux_values::{List, Memory};
use std::alloc::Global;

/// A program's text has at most so many bytes.
pub const PROGRAM_LIMIT: usize = 1_048_576;

/// What has been read: the tokens, and how many bytes.
#[derive(Drop)]
pub struct Lexed {
    pub tokens: List<Token>,
    pub at: usize,
}

impl Lexed {
    /// Takes a token of so many bytes.
    fn take(&mut self, kind: TokenKind, length: usize) -> Result<(), Memory>
        requires { self.old.at + length ≤ PROGRAM_LIMIT }
        ensures tokens { let taken = token_of (token kind) self.old.at length in
            OnOk result (self.new.tokens ≡ self.old.tokens ++ taken) }
        ensures at { OnOk result (self.new.at ≡ self.old.at + length) }
    {
        let end = self.at + length;
        let token = Token {
            kind,
            start: self.at as u32,
            end: end as u32,
        };
        if self.tokens.push(token).is_err() {
            return Err(Memory);
        }
        self.at = end;
        Ok(())
    }
}

fn fault(alloc: Global, kind: FaultKind, at: usize) -> CheckFault
    requires { at ≤ PROGRAM_LIMIT }
    ensures { result ≡ refusals.Static (record { kind = kind; at = at; path = [] }) }
{
    CheckFault::Static(StaticFault {
        kind,
        at: at as u32,
        path: List::new(alloc),
    })
}

/// The tokens of a text, or the least of the faults 1 to 3.
pub fn tokens(alloc: Global, text: &[u8]) -> Result<List<Token>, CheckFault>
    // What is answered holds of the text,
    ensures read { IfOk result (λ tokens. AreTokensOf tokens text.now) }
    ensures fault { IfErr result (IsFaultOf text.now) }
    ensures placed { IfErr result (IsPlacedIn text.now) }
    // and what holds of the text is answered, unless memory is short.
    ensures tokens { GivesTokens text.now result }
    ensures stands { GivesFault text.now result }
{
    if text.len() > PROGRAM_LIMIT {
        return Err(fault(alloc, FaultKind::TooLong, 0));
    }
    let mut lexed = Lexed {
        tokens: List::new(alloc),
        at: 0,
    };
    while lexed.at < text.len() {
        match front_of(&text[lexed.at..]) {
            Front::Skip(length) => lexed.at += length,
            Front::Token(kind, length) => lexed.take(kind, length)?,
            Front::Unclosed => return Err(fault(alloc, FaultKind::UnclosedComment, lexed.at)),
            Front::Bad => return Err(fault(alloc, FaultKind::BadByte, lexed.at)),
        }
    }
    Ok(lexed.tokens)
}
