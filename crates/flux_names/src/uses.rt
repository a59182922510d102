//! The rows on names of nodes where they are used.

ghost use Rattle.std.specs.Prelude.{◌≡◌};
ghost use Rattle.flux_syntax.specs.Least.{soonest};
ghost use Rattle.flux_names.specs.Rows.{inner_names, used_names, not_among, not_sources_in};
ghost use Rattle.flux_names.specs.steps.Picks.{picked};

use crate::places::{Place, with_listed, with_pick, with_picks};
use crate::sorts::Sort;
use flux_syntax::{Decl, Names};

/// With the names where no source may be, of those that are among names, or aren't.
pub fn with_inner(place: Place, names: &Names, among: bool, decl: &Decl) -> Place
    ensures { result ≡ soonest place (picked among names.now (inner_names decl.now)) }
{
    match decl {
        Decl::Source { target, .. } => with_pick(place, names, among, target),
        Decl::Flow { members, .. } => with_picks(place, names, among, members.as_slice()),
        Decl::Handler { node, handler, .. } => {
            let place = with_pick(place, names, among, node);
            with_pick(place, names, among, handler)
        }
        Decl::Atomic { node, .. } => with_pick(place, names, among, node),
        _ => place,
    }
}

/// With the names that have neither signature nor flow.
pub fn with_uses(place: Place, names: &Names, decl: &Decl) -> Place
    ensures { result ≡ soonest place (not_among names.now (used_names decl.now)) }
{
    let place = with_listed(place, names, false, Sort::Sourced.word(decl));
    let place = with_listed(place, names, false, Sort::Sessioned.word(decl));
    with_inner(place, names, false, decl)
}

/// With the node of a `source` line that isn't a source, or that of a `session` line without a
/// `source` line.
pub fn with_not_sources(place: Place, sources: &Names, lines: &Names, decl: &Decl) -> Place
    ensures { result ≡ soonest place (not_sources_in sources.now lines.now decl.now) }
{
    let place = with_listed(place, sources, false, Sort::Sourced.word(decl));
    with_listed(place, lines, false, Sort::Sessioned.word(decl))
}
