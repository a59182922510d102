//! The rows on sources.

ghost use Rattle.std.specs.Prelude.{◌≡◌, fold, None, IfOk};
ghost use Rattle.flux_model.specs.Kinds.{sig_at};
ghost use Rattle.flux_types.specs.Rows.{word_sig, takes_all};
ghost use Rattle.flux_types.specs.steps.Passing.{target_places, session_passed};

use crate::comparing::{Place, have_kinds, unless};
use crate::words::{Signed, ins_of, outs_of};
use flux_library::Library;
use flux_model::{NodeSig, SourceLine, TypeText, same_types};
use flux_syntax::{Decl, Word, sooner};
use flux_values::Memory;
use std::alloc::Global;

/// Where the first source has its target that doesn't fit it. Each source line has its place.
pub fn target_places(sigs: &[NodeSig], lines: &[SourceLine], sites: &[u32]) -> Place
    ensures { result ≡ target_places (sig_at sigs.now) None lines.now sites.now }
{
    let mut place = None;
    let mut rest = lines;
    let mut left = sites;
    while let [line, others @ ..] = rest {
        let [at, more @ ..] = left else {
            return place;
        };
        let outs = outs_of(sigs, line.node.0 as usize);
        if !same_types(outs, ins_of(sigs, line.target.0 as usize)) {
            place = Some(sooner(place, *at));
        }
        rest = others;
        left = more;
    }
    place
}

/// Whether a session function takes these; one that the library doesn't have takes nothing.
fn takes_all<L: Library>(
    alloc: Global,
    library: &L,
    function: &Word,
    types: &[TypeText],
) -> Result<bool, Memory>
    ensures { IfOk result (λ takes. takes
        ≡ takes_all ((L.meaning library.now).session function.now.text) types.now) }
{
    match library.session(alloc, function.text.as_bytes())? {
        Some(kinds) => Ok(have_kinds(types, kinds.as_slice())),
        None => Ok(false),
    }
}

fn pass_session<L: Library>(
    alloc: Global,
    library: &L,
    signed: &Signed,
    place: Place,
    decl: &Decl,
) -> Result<Place, Memory>
    ensures { IfOk result (λ next. next ≡ session_passed (L.meaning library.now)
        (word_sig signed.now.names (sig_at signed.now.sigs.now)) place decl.now) }
{
    match decl {
        Decl::Session { source, function } => {
            let takes = takes_all(alloc, library, function, signed.outs(source))?;
            Ok(unless(takes, function, place))
        }
        _ => Ok(place),
    }
}

/// Where the first session function is that doesn't take what its source gives.
pub fn session_places<L: Library>(
    alloc: Global,
    library: &L,
    signed: &Signed,
    decls: &[Decl],
) -> Result<Place, Memory>
    ensures { IfOk result (λ place. place ≡ fold (session_passed (L.meaning library.now)
        (word_sig signed.now.names (sig_at signed.now.sigs.now))) None decls.now) }
{
    let mut place = None;
    for decl in decls {
        place = pass_session(alloc, library, signed, place, decl)?;
    }
    Ok(place)
}
