//! How the links of a program are read, by the role of its one source.

ghost use Rattle.std.specs.Prelude.{◌≡◌, ℕ, List, [], ◌∷◌, IfOk, IfSome, IfNone, MatchOption};
ghost use Rattle.flux_sources.specs.Sources.{role_of, IsLibraryNode, IsServed, IsNotServed};

use flux_doors::Framing;
use flux_library::{Library, Role};
use flux_model::{Body, Program, SourceLine};
use flux_values::Memory;
use std::alloc::Global;

/// The one source of a program.
fn one_source(program: &Program) -> Option<&SourceLine>
    ensures { MatchOption result ((line : SourceLine) → program.now.sources ≡ line ∷ [] → ⊥)
        (λ line. program.now.sources ≡ line.now ∷ []) }
{
    match program.sources.as_slice() {
        [line] => Some(line),
        _ => None,
    }
}

/// The library node of a source.
fn library_node<'a>(program: &'a Program, line: &SourceLine) -> Option<&'a [u8]>
    ensures { MatchOption result ((name : List ℕ) → IsLibraryNode program.now line.now name → ⊥)
        (λ name. IsLibraryNode program.now line.now name.now) }
{
    let node = program.nodes.as_slice().get(line.node.0 as usize)?;
    match &node.body {
        Body::Concrete(name) => Some(name.as_bytes()),
        Body::Abstract(_) => None,
    }
}

/// How links are read for a source of a role.
fn framing_for(role: Role) -> Option<Framing>
    ensures { MatchOption result ((framing : Framing) → role ≡ role_of framing → ⊥) (λ framing. role ≡ role_of framing) }
{
    match role {
        Role::HeadSource => Some(Framing::Head),
        Role::LineSource => Some(Framing::Line),
        Role::Source | Role::Plain => None,
    }
}

/// How the links of a program are read, if it can be served.
pub fn framing_of<L: Library>(
    alloc: Global,
    library: &L,
    program: &Program,
) -> Result<Option<Framing>, Memory>
    ensures served { IfOk result (λ framing. IfSome framing (IsServed (L.meaning library.now) program.now)) }
    ensures others { IfOk result (λ framing. IfNone framing (IsNotServed (L.meaning library.now) program.now)) }
{
    let Some(line) = one_source(program) else {
        return Ok(None);
    };
    let Some(name) = library_node(program, line) else {
        return Ok(None);
    };
    match library.node(alloc, name)? {
        Some(sig) => Ok(framing_for(sig.role)),
        None => Ok(None),
    }
}
