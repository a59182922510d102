//! One flow's place.

use flux_plan::Local;

/// A flow's place in its plan, its session's number, and whether it is in a line.
#[derive(Drop)]
pub struct Place {
    pub local: Local,
    pub session: u64,
    pub stands: bool,
}
