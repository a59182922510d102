//! Declarations to a program, or the least fault.

ghost use Rattle.std.specs.Prelude.{◌≡◌, ◌≤◌, [], None, IfOk, IfErr};
ghost use Rattle.flux_model.specs.declared.programs.TheConstants.{COUNT_LIMIT};
ghost use Rattle.flux_syntax.specs.Counted.{words_of};
ghost use Rattle.flux_syntax.specs.Words.{names_of, first_words, defined, sourced};
ghost use Rattle.flux_syntax.specs.Least.{soonest, first_fault, IsLeastFault};
ghost use Rattle.flux_names.specs.Rows.{class_words, source_node, rows};
ghost use Rattle.flux_names.specs.Resolving.{IsResolved};
ghost use Rattle.flux_names.specs.steps.Sorts.{names_by};
ghost use Rattle.flux_names.specs.steps.Faults.{first_standing, too_many_of};

use crate::codes::bad_code;
use crate::places::{Place, with_words_behind};
use crate::programs::{Symbols, named_of};
use crate::repeats::twice_named;
use crate::rows::{CLASS_LIMIT, Known, NODE_LIMIT, Row, least};
use crate::signatures::add_source_nodes;
use flux_faults::{CheckFault, FaultKind};
use flux_library::Library;
use flux_model::Named;
use flux_syntax::{Decl, Names, fault_at};
use flux_values::{List, Memory};
use std::alloc::Global;

/// The first of the rows that applies, with its place.
fn first_standing(rows: &[(FaultKind, Place)]) -> Option<(FaultKind, u32)>
    ensures { result ≡ first_standing rows.now }
{
    for (kind, place) in rows {
        if let Some(at) = place {
            return Some((*kind, *at));
        }
    }
    None
}

/// The least place of a node or class beyond the limits.
fn too_many(symbols: &Symbols) -> Place
    ensures { result ≡
        soonest None (too_many_of symbols.now.nodes.words symbols.now.classes.words) }
{
    let place = with_words_behind(None, symbols.nodes.words.as_slice(), NODE_LIMIT);
    with_words_behind(place, symbols.classes.words.as_slice(), CLASS_LIMIT)
}

/// The least row that applies, at its least place, by the names in which rows look words up.
fn find_by<L: Library>(
    alloc: Global,
    symbols: &Symbols,
    known: &Known,
    decls: &[Decl],
    library: &L,
) -> Result<Option<(FaultKind, u32)>, Memory>
    requires nodes { known.now.nodes.now ≡ names_of decls.now }
    requires types { known.now.types.now ≡ names_by defined decls.now }
    requires sources { known.now.sources.now
        ≡ names_by (source_node (L.meaning library.now)) decls.now }
    requires lines { known.now.lines.now ≡ names_by sourced decls.now }
    requires words { symbols.now.nodes.words ≡ first_words decls.now }
    requires class_words { symbols.now.classes.words ≡ class_words decls.now }
    ensures { IfOk result (λ fault. fault ≡ first_fault (rows (L.meaning library.now) decls.now)) }
{
    let twice_named = twice_named(alloc, decls)?;
    let unknown_node = least(alloc, library, known, Row::UnknownNode, decls)?;
    let unknown_type = least(alloc, library, known, Row::UnknownType, decls)?;
    let not_in_library = least(alloc, library, known, Row::NotInLibrary, decls)?;
    let unlike_library = least(alloc, library, known, Row::UnlikeLibrary, decls)?;
    let unknown_predicate = least(alloc, library, known, Row::UnknownPredicate, decls)?;
    let unknown_session = least(alloc, library, known, Row::UnknownSession, decls)?;
    let not_a_source = least(alloc, library, known, Row::NotASource, decls)?;
    let source_misused = least(alloc, library, known, Row::SourceMisused, decls)?;
    let bad_code = bad_code(alloc, decls)?;
    Ok(first_standing(&[
        (FaultKind::TwiceNamed, twice_named),
        (FaultKind::UnknownNode, unknown_node),
        (FaultKind::UnknownType, unknown_type),
        (FaultKind::NotInLibrary, not_in_library),
        (FaultKind::UnlikeLibrary, unlike_library),
        (FaultKind::UnknownPredicate, unknown_predicate),
        (FaultKind::UnknownSession, unknown_session),
        (FaultKind::NotASource, not_a_source),
        (FaultKind::SourceMisused, source_misused),
        (FaultKind::TooMany, too_many(symbols)),
        (FaultKind::BadCode, bad_code),
    ]))
}

/// The least row that applies, at its least place.
fn find_fault<'a, L: Library>(
    alloc: Global,
    symbols: &Symbols<'a>,
    decls: &'a [Decl],
    library: &L,
) -> Result<Option<(FaultKind, u32)>, Memory>
    requires names { symbols.now.nodes.names ≡ names_of decls.now }
    requires words { symbols.now.nodes.words ≡ first_words decls.now }
    requires class_words { symbols.now.classes.words ≡ class_words decls.now }
    requires types { symbols.now.types ≡ names_by defined decls.now }
    requires sources { symbols.now.sources ≡ names_by sourced decls.now }
    ensures { IfOk result (λ fault. fault ≡ first_fault (rows (L.meaning library.now) decls.now)) }
{
    let mut sources = Names::new(alloc);
    add_source_nodes(alloc, library, decls, &mut sources)?;
    let known = Known {
        nodes: &symbols.nodes.names,
        types: &symbols.types,
        sources: &sources,
        lines: &symbols.sources,
    };
    find_by(alloc, symbols, &known, decls, library)
}

/// The program of declarations, or their least fault, by what they name, which symbols take in first.
fn resolve_by<'a, L: Library>(
    alloc: Global,
    symbols: &mut Symbols<'a>,
    decls: &'a [Decl],
    library: &L,
) -> Result<Named, CheckFault>
    requires none { symbols.old
        ≡ record {
          nodes = record { names = []; words = [] };
          classes = record { classes = []; words = [] };
          types = [];
          sources = [];
        } }
    requires few { words_of decls.now ≤ COUNT_LIMIT }
    ensures named { IfOk result (IsResolved (L.meaning library.now) decls.now) }
    ensures fault { IfErr result (IsLeastFault
        (first_fault (rows (L.meaning library.now) decls.now))) }
{
    symbols.fill(decls)?;
    match find_fault(alloc, symbols, decls, library)? {
        Some((kind, at)) => Err(fault_at(alloc, kind, at)),
        None => Ok(named_of(alloc, symbols, decls)?),
    }
}

/// The program of declarations with the places of its names, or the least of the faults 5 to 14, or 28
/// where none of these applies. A fault's place is that of a word of the declarations; it has no path.
pub fn resolve<L: Library>(
    alloc: Global,
    decls: &List<Decl>,
    library: &L,
) -> Result<Named, CheckFault>
    requires { words_of decls.now ≤ COUNT_LIMIT }
    ensures named { IfOk result (IsResolved (L.meaning library.now) decls.now) }
    ensures fault { IfErr result (IsLeastFault
        (first_fault (rows (L.meaning library.now) decls.now))) }
{
    let mut symbols = Symbols::new(alloc);
    resolve_by(alloc, &mut symbols, decls.as_slice(), library)
}
