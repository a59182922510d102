//! What a seat knows.

use flow_core::Core;
use flux_library::Library;

/// What a seat knows of its hall. No value of it is made.
pub enum View<L: Library> {
    /// Nothing: the seat was joined to another.
    Spent,
    /// The core that the hall was made with, how many moves the seat has made, and whether it has the turn.
    Seated {
        base: Core<L>,
        moves: u64,
        has_turn: bool,
    },
}
