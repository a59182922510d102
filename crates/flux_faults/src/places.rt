//! Lines and columns.

ghost use Rattle.std.specs.Prelude.{◌≡◌, ◌≤◌, ◌<◌, length};
ghost use Rattle.flux_faults.specs.Places.{line_of, column_of};
ghost use Rattle.flux_faults.specs.steps.Places.{next_place};

use crate::faults::Place;

/// A place that is shown is below this byte of the text: so its line and column can be counted.
pub const PLACE_LIMIT: u32 = 4_294_967_295;

/// The place of a byte of the text, or of its end. A byte is counted from 0.
pub fn place(text: &[u8], at: u32) -> Place
    requires inside { at ≤ length text.now }
    requires room { at < PLACE_LIMIT }
    ensures line { result.line ≡ line_of text.now at }
    ensures column { result.column ≡ column_of text.now at }
{
    let mut place = Place { line: 1, column: 1 };
    for byte in &text[..at as usize] {
        place = behind(place, *byte);
    }
    place
}

/// The place after a byte.
fn behind(place: Place, byte: u8) -> Place
    requires { (place.line < PLACE_LIMIT) × (place.column < PLACE_LIMIT) }
    ensures { result ≡ next_place place byte }
{
    if byte == b'\n' {
        Place {
            line: place.line + 1,
            column: 1,
        }
    } else {
        Place {
            line: place.line,
            column: place.column + 1,
        }
    }
}
