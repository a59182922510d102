//! The types that every library has.

ghost use Rattle.std.specs.Prelude.{◌≡◌};
ghost use Rattle.flux_library.specs.Types.{kind_spelled};

use flux_values::Kind;

/// The kind of a type as it is spelled: `int` and `long` are numbers, `text` and `char*` texts.
pub fn kind_spelled(ty: &[u8]) -> Option<Kind>
    ensures { result ≡ kind_spelled ty.now }
{
    if ty == b"int".as_slice() || ty == b"long".as_slice() {
        Some(Kind::Int)
    } else if ty == b"bool".as_slice() {
        Some(Kind::Bool)
    } else if ty == b"text".as_slice() || ty == b"char*".as_slice() {
        Some(Kind::Text)
    } else {
        None
    }
}
