//! The predicates by name.

ghost use Rattle.std.specs.Prelude.{◌≡◌};
ghost use Rattle.nodes_web.specs.Webs as webs;

use flux_values::{Kind, Value};

/// The kind of what a predicate is asked of.
pub fn asked(name: &[u8]) -> Option<Kind>
    ensures { result ≡ webs.asked name.now }
{
    if name == b"IsGet".as_slice() || name == b"IsHead".as_slice() {
        Some(Kind::Text)
    } else {
        None
    }
}

/// Whether a value has a predicate.
pub fn holds(name: &[u8], arg: &Value) -> bool
    ensures { result ≡ webs.holds name.now arg.now }
{
    match arg {
        Value::Text(text) if name == b"IsGet".as_slice() => text.as_bytes() == b"GET".as_slice(),
        Value::Text(text) if name == b"IsHead".as_slice() => text.as_bytes() == b"HEAD".as_slice(),
        _ => false,
    }
}
