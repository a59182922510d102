//! How constraints are held, and the order of classes.

ghost use Rattle.std.specs.Prelude.{◌≡◌};
ghost use Rattle.flux_model.specs.Modes as modes;

use crate::programs::Class;
use flux_values::Mode;
use std::cmp::Ordering;

/// Whether two modes are in conflict: one of them is a writer.
pub fn conflict(a: Mode, b: Mode) -> bool
    ensures { result ≡ modes.conflict a b }
{
    match (a, b) {
        (Mode::Reader, Mode::Reader) => false,
        (Mode::Reader, Mode::Writer) => true,
        (Mode::Writer, _) => true,
    }
}

/// Whether a mode is at least another: a reader is below a writer.
pub fn at_least(a: Mode, b: Mode) -> bool
    ensures { result ≡ modes.at_least a b }
{
    match (a, b) {
        (Mode::Writer, _) => true,
        (Mode::Reader, Mode::Reader) => true,
        (Mode::Reader, Mode::Writer) => false,
    }
}

/// The canonical order of classes: bytewise by name, and for equal names the program-wide class first.
pub fn class_order(a: &Class, b: &Class) -> Ordering
    ensures { result ≡ modes.class_cmp a.now b.now }
{
    a.name
        .as_bytes()
        .cmp(b.name.as_bytes())
        .then(a.session.cmp(&b.session))
}
