//! Simulated processors: how a program's flows would run on N of them, in whole ticks.
//!
//! Only calls take time: so many ticks as their node costs, each on a processor of its own. All else is done at once. `Rule` of
//! `flow_orders` says which entry comes when and which call runs when, of the whole journal: whatever a tick can do without a
//! call is done at it, by the lowest flow first, and a call waits only where all processors are taken. No processor is idle for
//! nothing, and the last tick is at most what all calls cost.
#![tactic(auto)]

mod clock;
mod processors;
mod runs;
mod simulating;

pub use runs::Simulated;
pub use simulating::simulate;
