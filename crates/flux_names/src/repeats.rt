//! The row on names that are there twice.

ghost use Rattle.std.specs.Prelude.{◌≡◌, [], None, IfOk, OnOk};
ghost use Rattle.flux_syntax.specs.Words.{and_name};
ghost use Rattle.flux_syntax.specs.Least.{soonest};
ghost use Rattle.flux_names.specs.Rows.{is_patterned, repeated, twice_named};
ghost use Rattle.flux_names.specs.steps.Sorts.{word_of};
ghost use Rattle.flux_names.specs.steps.Repeats.{repeated_in, and_plain};

use crate::places::{Place, with_word};
use crate::sorts::Sort;
use flux_syntax::{Decl, Names};
use flux_values::Memory;
use std::alloc::Global;

fn is_patterned(decl: &Decl) -> bool
    ensures { result ≡ is_patterned decl.now }
{
    match decl {
        Decl::Flow { patterns, .. } => patterns.is_some(),
        _ => false,
    }
}

/// The names of the lines of one sort that were seen.
#[derive(Drop)]
struct Seen<'a> {
    names: Names<'a>,
    /// Those of the lines that aren't flows with pattern lists.
    plain: Names<'a>,
}

impl<'a> Seen<'a> {
    /// Sees a line. Its name counts for the place, where it repeats one before.
    fn see(&mut self, sort: Sort, decl: &'a Decl, place: Place) -> Result<Place, Memory>
        ensures place { IfOk result (λ p.
            p ≡ soonest place (repeated_in (word_of sort) self.old.names self.old.plain decl.now)) }
        ensures names { OnOk result
            (self.new.names ≡ and_name self.old.names (word_of sort decl.now)) }
        ensures plain { OnOk result
            (self.new.plain ≡ and_plain self.old.plain (word_of sort) decl.now) }
    {
        let Some(word) = sort.word(decl) else {
            return Ok(place);
        };
        let name = word.text.as_bytes();
        if is_patterned(decl) {
            let place = with_word(place, self.plain.has(name), word);
            self.names.add(name)?;
            Ok(place)
        } else {
            let place = with_word(place, self.names.has(name), word);
            self.names.add(name)?;
            self.plain.add(name)?;
            Ok(place)
        }
    }

    /// Sees lines, the first ones of all.
    fn see_all(&mut self, sort: Sort, decls: &'a [Decl], place: Place) -> Result<Place, Memory>
        requires names { self.old.names ≡ [] }
        requires plain { self.old.plain ≡ [] }
        ensures { IfOk result (λ p. p ≡ soonest place (repeated decls.now (word_of sort))) }
    {
        let mut place = place;
        for decl in decls {
            place = self.see(sort, decl, place)?;
        }
        Ok(place)
    }
}

/// With the names of the lines of one sort that repeat one before.
fn with_repeated(alloc: Global, place: Place, sort: Sort, decls: &[Decl]) -> Result<Place, Memory>
    ensures { IfOk result (λ p. p ≡ soonest place (repeated decls.now (word_of sort))) }
{
    let mut seen = Seen {
        names: Names::new(alloc),
        plain: Names::new(alloc),
    };
    seen.see_all(sort, decls, place)
}

/// The least place of a name that is there twice.
pub fn twice_named(alloc: Global, decls: &[Decl]) -> Result<Place, Memory>
    ensures { IfOk result (λ p. p ≡ soonest None (twice_named decls.now)) }
{
    let place = with_repeated(alloc, None, Sort::Naming, decls)?;
    let place = with_repeated(alloc, place, Sort::Defined, decls)?;
    let place = with_repeated(alloc, place, Sort::Sourced, decls)?;
    let place = with_repeated(alloc, place, Sort::Handled, decls)?;
    with_repeated(alloc, place, Sort::Sessioned, decls)
}
