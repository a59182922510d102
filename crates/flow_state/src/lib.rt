//! The state of flows that run by their plans: where each flow is, who holds and waits for each key, and the
//! cells. It is the transition system alone: it keeps no journal, and nothing that grows with one.
//!
//! Contracts see a `State` as its setup and the list of entries that were made, and it is exactly where these
//! lead. `next` tells what comes next for a flow, `holder`, `ahead` and `blocker` who blocks its take; `make`, `wait`
//! and `answer` add one entry, and a call that is refused for want of memory changes nothing. `specs/States` says what
//! a state is seen as and what it keeps at every moment, and `specs/Moves` what each call adds.
#![tactic(auto)]

mod answers;
mod coming;
mod fields;
mod ghost_logs;
mod inputs;
mod keys;
mod made;
mod moves;
mod places;
mod queries;
mod readiness;
mod reads;
mod setups;
mod starts;
mod states;
mod takes;
mod turns;
mod uses;

pub use coming::Coming;
pub use inputs::Inputs;
pub use readiness::{BlockedTake, Readiness};
pub use setups::Setup;
pub use states::State;
