//! The predicates by name.

ghost use Rattle.std.specs.Prelude.{◌≡◌};
ghost use Rattle.nodes_cache.specs.Cachings as cachings;

use flux_values::{Kind, Value};

/// The kind of what a predicate is asked of.
pub fn asked(name: &[u8]) -> Option<Kind>
    ensures { result ≡ cachings.asked name.now }
{
    if name == b"TestInCache".as_slice() {
        Some(Kind::Bool)
    } else {
        None
    }
}

/// Whether a value has a predicate.
pub fn holds(name: &[u8], arg: &Value) -> bool
    ensures { result ≡ cachings.holds name.now arg.now }
{
    match arg {
        Value::Bool(truth) if name == b"TestInCache".as_slice() => *truth,
        _ => false,
    }
}
