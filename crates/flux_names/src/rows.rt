//! The rows of faults that look at each declaration by itself.

ghost use Rattle.std.specs.Prelude.{◌≡◌, None, IfOk};
ghost use Rattle.std.specs.List.{flat_map};
ghost use Rattle.flux_syntax.specs.Least.{soonest};
ghost use Rattle.flux_names.specs.steps.Rows.{row_words};

use crate::places::Place;
use crate::signatures::{with_not_in, with_predicates, with_session, with_types, with_unlike};
use crate::uses::{with_inner, with_not_sources, with_uses};
use flux_library::Library;
use flux_syntax::{Decl, Names};
use flux_values::Memory;
use std::alloc::Global;

/// The most nodes of a program.
pub const NODE_LIMIT: usize = 4_096;

/// The most classes of a program.
pub const CLASS_LIMIT: usize = 256;

/// The greatest code of a failure.
pub const CODE_LIMIT: u16 = 256;

/// A row that looks at each declaration by itself.
#[derive(Clone, Copy)]
pub enum Row {
    /// A name has neither signature nor flow.
    UnknownNode,
    /// The library has no kind for a parameter's type.
    UnknownType,
    /// A signature's library name isn't in the library.
    NotInLibrary,
    /// A signature's kinds differ in number or order from the library's.
    UnlikeLibrary,
    /// A predicate's function isn't in the library, or a pattern names none.
    UnknownPredicate,
    /// A session function isn't in the library.
    UnknownSession,
    /// The node of a `source` line isn't a source, or a `session` line's has no `source` line.
    NotASource,
    /// A source is where another node is wanted.
    SourceMisused,
}

/// The names in which rows look words up.
#[derive(Drop)]
pub struct Known<'r, 'a> {
    /// The names of nodes.
    pub nodes: &'r Names<'a>,
    /// The names of `typedef` lines.
    pub types: &'r Names<'a>,
    /// The concrete nodes with a source role.
    pub sources: &'r Names<'a>,
    /// The nodes of `source` lines.
    pub lines: &'r Names<'a>,
}

/// With the words of a declaration at which a row applies.
fn with_row<L: Library>(
    alloc: Global,
    library: &L,
    known: &Known,
    row: Row,
    decl: &Decl,
    place: Place,
) -> Result<Place, Memory>
    ensures { IfOk result (λ p.
        p ≡ soonest place (row_words (L.meaning library.now) known.now row decl.now)) }
{
    match row {
        Row::UnknownNode => Ok(with_uses(place, known.nodes, decl)),
        Row::UnknownType => with_types(alloc, library, decl, place),
        Row::NotInLibrary => with_not_in(alloc, library, decl, place),
        Row::UnlikeLibrary => with_unlike(alloc, library, decl, place),
        Row::UnknownPredicate => Ok(with_predicates(library, known.types, decl, place)),
        Row::UnknownSession => with_session(alloc, library, decl, place),
        Row::NotASource => Ok(with_not_sources(place, known.sources, known.lines, decl)),
        Row::SourceMisused => Ok(with_inner(place, known.sources, true, decl)),
    }
}

/// The least place at which a row applies in declarations.
pub fn least<L: Library>(
    alloc: Global,
    library: &L,
    known: &Known,
    row: Row,
    decls: &[Decl],
) -> Result<Place, Memory>
    ensures { IfOk result (λ p.
        p ≡ soonest None (flat_map (row_words (L.meaning library.now) known.now row) decls.now)) }
{
    let mut place = None;
    for decl in decls {
        place = with_row(alloc, library, known, row, decl, place)?;
    }
    Ok(place)
}
