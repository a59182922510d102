//! What a pass knows.

use std::collections::LinkedList;

/// A number, and its place in the list of all numbers that were put. No value of it is made.
pub struct Placed {
    pub place: u64,
    pub number: u32,
}

/// What a pass knows of its queue. No value of it is made.
pub enum View {
    /// The queue is being opened, and has the numbers below this one.
    Opening {
        next: u32,
    },
    /// The queue was opened with so many numbers.
    Working {
        flows: u32,
        /// The number that the pass holds.
        held: Option<u32>,
        /// How often it has put, taken or been split.
        moves: u64,
        /// What it has put, and what it has taken.
        puts: LinkedList<Placed>,
        takes: LinkedList<Placed>,
    },
}
