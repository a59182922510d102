//! The hall: one core for many threads, which have it in turn.
//!
//! A thread with a seat tries for the turn by one step on one word, and with the turn it has the core. `specs/Rule` is
//! the rule that every step of every thread keeps; so a turn always finds a core with the setup of the one that the
//! hall was made with, and a journal that goes on from it, whatever the others did. `try_turn` never waits, and hands
//! the seat back by that one step, which the seat's count of moves shows.
#![tactic(auto)]

mod halls;
mod laws;
mod rules;
mod seats;
mod views;

pub use halls::Hall;
pub use laws::{rule_fits, steps_fit};
pub use seats::{HallSeat, HallTurn, Held};
