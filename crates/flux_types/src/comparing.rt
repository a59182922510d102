//! Kinds of types, and the least place where something doesn't hold.

ghost use Rattle.std.specs.Prelude.{◌≡◌};
ghost use Rattle.flux_types.specs.Rows.{same_kind, have_kinds, takes, unless};
ghost use Rattle.flux_syntax.specs.Least.{soonest};

use flux_model::TypeText;
use flux_syntax::{Word, sooner};
use flux_values::Kind;

/// The least place so far, from 0; None where there is none.
pub type Place = Option<u32>;

fn same_kind(a: Kind, b: Kind) -> bool
    ensures { result ≡ same_kind a b }
{
    match (a, b) {
        (Kind::Int, Kind::Int) => true,
        (Kind::Bool, Kind::Bool) => true,
        (Kind::Text, Kind::Text) => true,
        _ => false,
    }
}

/// Whether types are of these kinds, in number and order.
pub fn have_kinds(types: &[TypeText], kinds: &[Kind]) -> bool
    ensures { result ≡ have_kinds types.now kinds.now }
{
    let mut rest = types;
    let mut left = kinds;
    while let [ty, others @ ..] = rest {
        let [kind, more @ ..] = left else {
            return false;
        };
        if !same_kind(ty.kind, *kind) {
            return false;
        }
        rest = others;
        left = more;
    }
    left.is_empty()
}

/// Whether a predicate takes a kind; one that isn't known takes none.
pub fn takes(own: Option<Kind>, kind: Kind) -> bool
    ensures { result ≡ takes own kind }
{
    match own {
        Some(own) => same_kind(own, kind),
        None => false,
    }
}

/// The least place so far, or the word's, where something doesn't hold.
pub fn unless(holds: bool, word: &Word, place: Place) -> Place
    ensures { result ≡ soonest place (unless holds word.now) }
{
    if holds {
        place
    } else {
        Some(sooner(place, word.at))
    }
}
