//! What a seat knows.

use flow_core::Core;
use flow_model::Entry;
use flux_library::Library;
use std::collections::LinkedList;

/// What a seat knows of what it shares, unless it was joined to another. No value of it is made.
pub struct Known<L: Library> {
    /// The core that all was made with.
    pub base: Core<L>,
    /// How many moves the seat has made.
    pub moves: u64,
    pub has_turn: bool,
    /// The journal that it last saw.
    pub seen: LinkedList<Entry>,
    /// What a seat had seen that was joined to it, until its next step puts the two together; otherwise nothing.
    pub aside: LinkedList<Entry>,
    /// The places in the journal of the entries that its own turns added.
    pub places: LinkedList<u64>,
}

/// What a seat knows. No value of it is made.
pub enum View<L: Library> {
    /// Nothing: the seat was joined to another.
    Spent,
    Seated(Known<L>),
}
