//! One core for many threads, which have it in turn, and what each of them has seen of its journal.
//!
//! A thread with a seat tries for the turn by one step on one word, and with the turn it has the core. A seat knows the
//! journal that it last saw, and the places there of the entries that its own turns added; both are facts alone, and
//! take no bytes. `specs/Rule` is the rule that every step of every thread keeps. So there is one journal for all: what
//! a turn finds begins with all that its seat had seen, whatever the others did; of two seats that are joined, one had
//! seen a front of what the other had; and no place is with two seats. No clause says in which order seats that showed
//! each other nothing had their turns. `try_turn` never waits, and hands the seat back by that one step, which its
//! count of moves shows.
#![tactic(auto)]

mod laws;
mod rules;
mod seats;
mod shared;
mod views;

pub use laws::{places_fit, rule_fits};
pub use seats::{Held, SharedSeat, SharedTurn};
pub use shared::Shared;
