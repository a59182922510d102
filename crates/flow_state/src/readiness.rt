//! Whether a flow can go on, and where it is blocked.

use flow_model::Key;
use flux_model::Mode;

/// The take at which a flow is blocked, and whether it waits there already.
#[derive(Clone, Copy, PartialEq, Eq)]
pub struct BlockedTake {
    pub key: Key,
    pub mode: Mode,
    pub stands: bool,
}

/// What keeps a flow from its next event: that it has had its `end`, that it is blocked, or nothing that the entries tell.
#[derive(Clone, Copy, PartialEq, Eq)]
pub enum Readiness {
    Ended,
    Blocked(BlockedTake),
    Free,
}
