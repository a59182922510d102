//! Which numbers within bounds begin with some digits.

ghost use Rattle.std.specs.Prelude.{◌≤◌, ◌<◌, ◌↔◌, IsTrue};
ghost use Rattle.bencoding.specs.steps.Numbers.{Grows, Starts};

/// Whether a number with some digits more or none is within the bounds.
fn can_grow(number: u64, low: u64, high: u64) -> bool
    requires { low ≤ high }
    ensures { IsTrue result ↔ Grows number low high }
{
    number <= high && (low <= number || can_grow(number, low / 10, high / 10))
}

/// Whether some number within the bounds begins with this one's digits. Only 0 begins with 0.
pub fn begins_some(number: u64, low: u64, high: u64) -> bool
    ensures { IsTrue result ↔ Starts number low high }
{
    if number == 0 {
        low == 0
    } else {
        low <= high && can_grow(number, low, high)
    }
}
