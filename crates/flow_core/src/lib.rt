//! The core: what runs flows over one setup, a move at a time, and keeps their journal legal.
//!
//! Where the flows are is the state's; the core adds the journal and the calls that are begun and not finished.
//! `step` lets a flow make its next event, wait, or begin a call; `finish` takes a call's answer, which may have been
//! made anywhere; `step_at_once` makes a call where it comes. Each call is one move or none, and a refused call changes
//! nothing. `specs/States` says what a core is seen as and what it keeps at every moment, and `specs/Moves` what each
//! call does.
#![tactic(auto)]

mod calls;
mod cores;
mod fields;
mod gates;
mod jobs;
mod laws;
mod moves;
mod runtimes;
mod sameness;

pub use calls::{CallDone, Job};
pub use cores::{AtOnce, Core, Finish, Step};
pub use flow_state::{BlockedTake, Inputs, Readiness, Setup};
pub use gates::{Gate, OpenGate};
pub use laws::{calls_are_moves, none_live_is_whole, runs_are_legal};
pub use runtimes::{Runtime, Stopped};
