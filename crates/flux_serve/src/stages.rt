//! How far the flows of a worker have come.

/// How far a flow has come, or all flows of a worker.
#[derive(Clone, Copy)]
pub enum Stage {
    /// It has had its `end`.
    Ended,
    /// Its next take is blocked.
    Waits,
    /// It may go on.
    Went,
    /// The core is halted, and all workers end.
    Halted,
}
