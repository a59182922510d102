//! The number of a pool's workers, or of an event loop's helpers.

ghost use Rattle.std.specs.Prelude.{◌≤◌};

/// How many workers a pool has, or how many helpers an event loop, from 1 to 16.
#[derive(Clone, Copy, PartialEq, Eq)]
pub struct Workers {
    pub count: u8,
    pub ghost some: { 1 ≤ count },
    pub ghost few: { count ≤ 16 },
}
