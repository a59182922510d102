//! The predicates by name.

ghost use Rattle.std.specs.Prelude.{◌≡◌};
ghost use Rattle.nodes_tracker.specs.Trackers as trackers;

use flux_values::{Kind, Value};

/// The kind of what a predicate is asked of.
pub fn asked(name: &[u8]) -> Option<Kind>
    ensures { result ≡ trackers.asked name.now }
{
    if name == b"IsScrape".as_slice() {
        Some(Kind::Text)
    } else {
        None
    }
}

/// Whether a value has a predicate.
pub fn holds(name: &[u8], arg: &Value) -> bool
    ensures { result ≡ trackers.holds name.now arg.now }
{
    match arg {
        Value::Text(text) => name == b"IsScrape".as_slice()
            && text.as_bytes() == b"scrape".as_slice(),
        _ => false,
    }
}
