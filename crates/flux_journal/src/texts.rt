//! The lines of a text, and its head line.

ghost use Rattle.std.specs.Prelude.{◌≡◌, ◌<◌, ◌^◌, ◌↔◌, ◌∷◌, [], ℕ, IsTrue, IfSome, IfNone, Some, length};
ghost use Rattle.flux_journal.specs.Formats.{IsHeadLine};
ghost use Rattle.flux_journal.specs.Journals.{lines_of, is_headed};
ghost use Rattle.flux_journal.specs.steps.Lines.{IsFirstLine, IsHeadFor};

use crate::cuts::{behind, cut, read_number};
use std::marker::Model;

/// The first line of a text, and what follows its LF.
pub fn split_line(text: &[u8]) -> (&[u8], &[u8])
    requires { 0 < length text.now }
    ensures { IsFirstLine text.now result.0.now result.1.now }
{
    match cut(b'\n', text) {
        Some(parts) => parts,
        None => (text, &[]),
    }
}

/// How many lines a text has.
pub fn count_lines(text: &[u8]) -> u64
    ensures { result ≡ length (lines_of text.now) }
{
    let mut rest = text;
    let mut count = 0;
    'lines: while !rest.is_empty() {
        let (_, behind) = split_line(rest);
        count += 1;
        rest = behind;
    }
    count
}

/// The lines of a text, each without its LF, which the last may lack.
pub struct Lines<'a> {
    rest: &'a [u8],
}

impl<'a> Drop for Lines<'a> {
    fn drop(self) {
        let Lines { rest } = self;
    }
}

impl<'a> Model for Lines<'a> {
    ghost use Rattle.std.specs.Prelude.{ℕ, List};
    ghost use Rattle.flux_journal.specs.Journals.{lines_of};

    ghost Value = { List (List ℕ) };

    ghost view = { λ l. lines_of l.rest.now };
}

impl<'a> Lines<'a> {
    pub fn new(text: &'a [u8]) -> Lines<'a>
        ensures { result ≡ lines_of text.now }
    {
        Lines { rest: text }
    }

    /// The next line.
    pub fn next_line(&mut self) -> Option<&'a [u8]>
        ensures found { IfSome result (λ line. self.old ≡ line.now ∷ self.new) }
        ensures over { IfNone result (self.old ≡ []) }
        ensures stays { IfNone result (self.new ≡ []) }
        ensures few { length self.old < 2 ^ 63 }
    {
        if self.rest.is_empty() {
            return None;
        }
        let (line, behind) = split_line(self.rest);
        self.rest = behind;
        Some(line)
    }

    /// How many lines are left.
    pub fn count(&self) -> u64
        ensures { result ≡ length self.now }
    {
        count_lines(self.rest)
    }
}

/// The numbers of a head line.
#[derive(Clone, Copy, PartialEq, Eq)]
pub struct Head {
    pub flows: u32,
    pub events: u64,
}

/// The numbers that a head line tells. The line comes without its LF.
pub fn read_head(line: &[u8]) -> Option<Head>
    ensures found { IfSome result (λ head. IsHeadLine line.now head.flows head.events) }
    ensures none { IfNone result ((flows events : ℕ) → IsHeadLine line.now flows events → ⊥) }
    ensures once { (flows events : ℕ) → IsHeadLine line.now flows events
        → result ≡ Some (record { flows = flows; events = events }) }
{
    read_numbers(line)
}

fn read_numbers(line: &[u8]) -> Option<Head>
    ensures found { IfSome result (λ head. IsHeadLine line.now head.flows head.events) }
    ensures none { IfNone result ((events : ℕ) → IsHeadFor line.now events → ⊥) }
{
    let counts = behind(b"flux journal 2 flows ", line)?;
    let (front, rest) = cut(b' ', counts)?;
    let back = behind(b"events ", rest)?;
    let flows = read_number(front, u64::from(u32::MAX))?;
    let events = read_number(back, u64::MAX)?;
    Some(Head {
        flows: flows as u32,
        events,
    })
}

/// Whether a line is a head line for so many events.
pub fn is_head(line: &[u8], events: u64) -> bool
    ensures { IsTrue result ↔ IsHeadFor line.now events }
{
    match read_head(line) {
        Some(head) => head.events == events,
        None => false,
    }
}

/// Whether a text is of format 2: it begins with `flux journal`.
pub fn is_headed(text: &[u8]) -> bool
    ensures { result ≡ is_headed text.now }
{
    text.starts_with(b"flux journal".as_slice())
}
