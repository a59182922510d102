//! The orders in which flows go on: by turns, as the event loop or a script lets them, and on simulated processors.
//!
//! It says what the orders are. That they are kept is proved of the runtimes and of the simulator, each in its own crate;
//! whoever only says in which order a journal came needs none of these.
#![tactic(auto)]

mod runs;

pub use runs::Run;
