//! The rows on what the library has: types, nodes, predicates and session functions.

ghost use Rattle.std.specs.Prelude.{◌≡◌, IfOk, OnOk, option_copied};
ghost use Rattle.std.specs.List.{flat_map, position_or_len};
ghost use Rattle.std.specs.Prelude.{◌≤◌, ◌==◌, length};
ghost use Rattle.flux_syntax.specs.Words.{spelling};
ghost use Rattle.flux_syntax.specs.ProgramOfText.{library_name};
ghost use Rattle.flux_syntax.specs.Least.{soonest};
ghost use Rattle.flux_names.specs.Rows.{unknown_type, unknown_types_in, library_node, not_in, same_kind, is_kind, have_kinds, are_like, unlike, pattern_words, not_among, unknown_function, unknown_predicates_in, unknown_session, is_source, source_node};
ghost use Rattle.flux_names.specs.steps.Sorts.{names_by_after};

use crate::places::{Place, with_listed, with_word};
use flux_library::Library;
use flux_syntax::{Decl, Names, Param, Word};
use flux_values::{Kind, Memory, Role, Sig};
use std::alloc::Global;

/// The library's part of a name: what is before the first `_`, or all of it.
pub fn library_name(name: &[u8]) -> &[u8]
    ensures value { result.now ≡ library_name name.now }
    ensures within { length result.now ≤ length name.now }
{
    &name[..library_name_length(name)]
}

fn library_name_length(name: &[u8]) -> usize
    ensures value { result ≡ position_or_len (λ b. b == 95) name.now }
    ensures within { result ≤ length name.now }
{
    name.iter().take_while(|byte| **byte != b'_').count()
}

/// The library's node of a name.
pub fn library_node<L: Library>(
    alloc: Global,
    library: &L,
    name: &Word,
) -> Result<Option<Sig>, Memory>
    ensures { IfOk result (λ node. node ≡ library_node (L.meaning library.now) name.now.text) }
{
    library.node(alloc, library_name(name.text.as_bytes()))
}

fn kind_of<L: Library>(alloc: Global, library: &L, param: &Param) -> Result<Option<Kind>, Memory>
    ensures { IfOk result (λ kind. kind ≡ (L.meaning library.now).kind (spelling param.now)) }
{
    let ty = param.spelling(alloc)?;
    Ok(library.kind(ty.as_bytes()))
}

// ---- types

fn with_type<L: Library>(
    alloc: Global,
    library: &L,
    param: &Param,
    place: Place,
) -> Result<Place, Memory>
    ensures { IfOk result (λ p.
        p ≡ soonest place (unknown_type (L.meaning library.now) param.now)) }
{
    let kind = kind_of(alloc, library, param)?;
    Ok(with_word(place, kind.is_none(), &param.ty))
}

fn with_params<L: Library>(
    alloc: Global,
    library: &L,
    params: &[Param],
    place: Place,
) -> Result<Place, Memory>
    ensures { IfOk result (λ p.
        p ≡ soonest place (flat_map (unknown_type (L.meaning library.now)) params.now)) }
{
    let mut place = place;
    for param in params {
        place = with_type(alloc, library, param, place)?;
    }
    Ok(place)
}

/// The library has no kind for a parameter's type.
pub fn with_types<L: Library>(
    alloc: Global,
    library: &L,
    decl: &Decl,
    place: Place,
) -> Result<Place, Memory>
    ensures { IfOk result (λ p.
        p ≡ soonest place (unknown_types_in (L.meaning library.now) decl.now)) }
{
    match decl {
        Decl::Signature { ins, outs, .. } => {
            let place = with_params(alloc, library, ins.as_slice(), place)?;
            with_params(alloc, library, outs.as_slice(), place)
        }
        _ => Ok(place),
    }
}

// ---- nodes

/// A signature's library name isn't in the library.
pub fn with_not_in<L: Library>(
    alloc: Global,
    library: &L,
    decl: &Decl,
    place: Place,
) -> Result<Place, Memory>
    ensures { IfOk result (λ p. p ≡ soonest place (not_in (L.meaning library.now) decl.now)) }
{
    match decl {
        Decl::Signature { name, .. } => {
            let node = library_node(alloc, library, name)?;
            Ok(with_word(place, node.is_none(), name))
        }
        _ => Ok(place),
    }
}

fn same_kind(a: Kind, b: Kind) -> bool
    ensures { result ≡ same_kind a b }
{
    match (a, b) {
        (Kind::Int, Kind::Int) => true,
        (Kind::Bool, Kind::Bool) => true,
        (Kind::Text, Kind::Text) => true,
        _ => false,
    }
}

fn is_kind(own: Option<Kind>, kind: Kind) -> bool
    ensures { result ≡ is_kind own kind }
{
    match own {
        Some(own) => same_kind(own, kind),
        None => false,
    }
}

fn have_kinds<L: Library>(
    alloc: Global,
    library: &L,
    params: &[Param],
    kinds: &[Kind],
) -> Result<bool, Memory>
    ensures { IfOk result (λ have. have ≡ have_kinds (L.meaning library.now) params.now kinds.now) }
{
    let mut rest = params;
    let mut left = kinds;
    while let [kind, others @ ..] = left {
        let [param, more @ ..] = rest else {
            return Ok(false);
        };
        if !is_kind(kind_of(alloc, library, param)?, *kind) {
            return Ok(false);
        }
        rest = more;
        left = others;
    }
    match rest {
        [] => Ok(true),
        _ => Ok(false),
    }
}

fn are_like<L: Library>(
    alloc: Global,
    library: &L,
    node: &Option<Sig>,
    ins: &[Param],
    outs: &[Param],
) -> Result<bool, Memory>
    ensures { IfOk result (λ like.
        like ≡ are_like (L.meaning library.now) node.now ins.now outs.now) }
{
    match node {
        Some(node) => {
            if have_kinds(alloc, library, ins, node.ins.as_slice())? {
                have_kinds(alloc, library, outs, node.outs.as_slice())
            } else {
                Ok(false)
            }
        }
        None => Ok(true),
    }
}

/// A signature's kinds differ in number or order from the library's.
pub fn with_unlike<L: Library>(
    alloc: Global,
    library: &L,
    decl: &Decl,
    place: Place,
) -> Result<Place, Memory>
    ensures { IfOk result (λ p. p ≡ soonest place (unlike (L.meaning library.now) decl.now)) }
{
    match decl {
        Decl::Signature { name, ins, outs } => {
            let node = library_node(alloc, library, name)?;
            let (ins, outs) = (ins.as_slice(), outs.as_slice());
            let like = are_like(alloc, library, &node, ins, outs)?;
            Ok(with_word(place, !like, name))
        }
        _ => Ok(place),
    }
}

// ---- predicates and session functions

fn with_patterns(place: Place, types: &Names, decl: &Decl) -> Place
    ensures { result ≡ soonest place (not_among types.now (pattern_words decl.now)) }
{
    let Decl::Flow {
        patterns: Some(patterns),
        ..
    } = decl
    else {
        return place;
    };
    let mut place = place;
    for pattern in patterns.as_slice() {
        place = with_listed(place, types, false, pattern.as_ref());
    }
    place
}

/// A predicate's function isn't in the library, or a pattern names none.
pub fn with_predicates<L: Library>(library: &L, types: &Names, decl: &Decl, place: Place) -> Place
    ensures { result ≡
        soonest place (unknown_predicates_in (L.meaning library.now) types.now decl.now) }
{
    let place = match decl {
        Decl::Typedef { function, .. } => {
            let kind = library.predicate(function.text.as_bytes());
            with_word(place, kind.is_none(), function)
        }
        _ => place,
    };
    with_patterns(place, types, decl)
}

/// A session function isn't in the library.
pub fn with_session<L: Library>(
    alloc: Global,
    library: &L,
    decl: &Decl,
    place: Place,
) -> Result<Place, Memory>
    ensures { IfOk result (λ p.
        p ≡ soonest place (unknown_session (L.meaning library.now) decl.now)) }
{
    match decl {
        Decl::Session { function, .. } => {
            let kinds = library.session(alloc, function.text.as_bytes())?;
            Ok(with_word(place, kinds.is_none(), function))
        }
        _ => Ok(place),
    }
}

// ---- sources

fn is_source(node: &Option<Sig>) -> bool
    ensures { result ≡ is_source node.now }
{
    match node {
        Some(node) => match node.role {
            Role::Plain => false,
            Role::Source | Role::HeadSource | Role::LineSource => true,
        },
        None => false,
    }
}

fn source_node<'a, L: Library>(
    alloc: Global,
    library: &L,
    decl: &'a Decl,
) -> Result<Option<&'a Word>, Memory>
    ensures { IfOk result (λ name.
        option_copied name ≡ source_node (L.meaning library.now) decl.now) }
{
    match decl {
        Decl::Signature { name, .. } => {
            let node = library_node(alloc, library, name)?;
            Ok(if is_source(&node) { Some(name) } else { None })
        }
        _ => Ok(None),
    }
}

/// Adds the names of the concrete nodes with a source role.
pub fn add_source_nodes<'a, L: Library>(
    alloc: Global,
    library: &L,
    decls: &'a [Decl],
    names: &mut Names<'a>,
) -> Result<(), Memory>
    ensures { OnOk result
        (names.new ≡
        names_by_after (source_node (L.meaning library.now)) names.old decls.now) }
{
    for decl in decls {
        names.add_word(source_node(alloc, library, decl)?)?;
    }
    Ok(())
}
