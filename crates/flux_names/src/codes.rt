//! The codes of handlers.

ghost use Rattle.std.specs.Prelude.{◌≡◌, ◌+◌, min, [], None, IfOk, OnOk};
ghost use Rattle.std.specs.List.{list_all};
ghost use Rattle.flux_values.specs.Identifiers.{is_digit};
ghost use Rattle.flux_syntax.specs.ProgramOfText.{decimal_value};
ghost use Rattle.flux_syntax.specs.Least.{soonest};
ghost use Rattle.flux_names.specs.Rows.{begins_with_zero, code_of, word_if, codes_in, bad_codes};
ghost use Rattle.flux_names.specs.steps.Codes.{codes_on, is_bad_by, and_code, bad_codes_by, and_codes};

use crate::places::{Place, with_word};
use crate::rows::CODE_LIMIT;
use flux_syntax::{Decl, Word};
use flux_values::Memory;
use indexmap::IndexSet;
use std::alloc::Global;
use std::marker::Model;

/// The number that digits spell, or one above the greatest code where that is less.
fn value_of(digits: &[u8]) -> u16
    ensures { result ≡ min (CODE_LIMIT + 1) (decimal_value digits.now) }
{
    let mut value = 0;
    for digit in digits {
        value = (10 * value + u16::from(digit.saturating_sub(b'0'))).min(CODE_LIMIT + 1);
    }
    value
}

fn are_digits(bytes: &[u8]) -> bool
    ensures { result ≡ list_all is_digit bytes.now }
{
    for byte in bytes {
        if *byte < b'0' || *byte > b'9' {
            return false;
        }
    }
    true
}

fn begins_with_zero(digits: &[u8]) -> bool
    ensures { result ≡ begins_with_zero digits.now }
{
    match digits {
        [digit, ..] => *digit == b'0',
        [] => false,
    }
}

/// The code that digits spell: 1 to 256 in decimal without leading zeros.
pub fn code_of(digits: &[u8]) -> Option<u16>
    ensures { result ≡ code_of digits.now }
{
    let value = value_of(digits);
    if are_digits(digits) && !begins_with_zero(digits) && value >= 1 && value <= CODE_LIMIT {
        Some(value)
    } else {
        None
    }
}

/// The codes that nodes have so far.
#[derive(Drop)]
struct Codes<'a> {
    set: IndexSet<(&'a [u8], u16)>,
}

impl<'a> Model for Codes<'a> {
    ghost use Rattle.std.specs.Prelude.{List, ℕ, map};

    ghost Value = { List (List ℕ × ℕ) };

    ghost view = { λ c. map (λ k. (k.0.now, k.1)) c.set.keys };
}

impl<'a> Codes<'a> {
    fn new(alloc: Global) -> Codes<'a>
        ensures { result ≡ [] }
    {
        Codes {
            set: IndexSet::new(alloc),
        }
    }

    /// Sees a number of a node. It counts for the place where it is no code, or one that the node has.
    fn see(&mut self, node: &'a Word, number: &Word, place: Place) -> Result<Place, Memory>
        ensures place { IfOk result (λ p.
            p ≡
            soonest place (word_if (is_bad_by self.old
            (record { node = node.now; number = number.now })) number.now)) }
        ensures codes { OnOk result
            (self.new ≡ and_code self.old (record { node = node.now; number = number.now })) }
    {
        match code_of(number.text.as_bytes()) {
            Some(code) => {
                let new = self.set.insert((node.text.as_bytes(), code))?;
                Ok(with_word(place, !new, number))
            }
            None => Ok(with_word(place, true, number)),
        }
    }

    fn see_all(&mut self, node: &'a Word, numbers: &[Word], place: Place) -> Result<Place, Memory>
        ensures place { IfOk result (λ p.
            p ≡ soonest place (bad_codes_by self.old (codes_on node.now numbers.now))) }
        ensures codes { OnOk result
            (self.new ≡ and_codes self.old (codes_on node.now numbers.now)) }
    {
        let mut place = place;
        for number in numbers {
            place = self.see(node, number, place)?;
        }
        Ok(place)
    }

    fn see_line(&mut self, decl: &'a Decl, place: Place) -> Result<Place, Memory>
        ensures place { IfOk result (λ p.
            p ≡ soonest place (bad_codes_by self.old (codes_in decl.now))) }
        ensures codes { OnOk result (self.new ≡ and_codes self.old (codes_in decl.now)) }
    {
        match decl {
            Decl::Handler { node, codes, .. } => self.see_all(node, codes.as_slice(), place),
            _ => Ok(place),
        }
    }
}

/// The least place of a number that is no code, or is there twice for a node.
pub fn bad_code(alloc: Global, decls: &[Decl]) -> Result<Place, Memory>
    ensures { IfOk result (λ p. p ≡ soonest None (bad_codes decls.now)) }
{
    let mut codes = Codes::new(alloc);
    let mut place = None;
    for decl in decls {
        place = codes.see_line(decl, place)?;
    }
    Ok(place)
}
