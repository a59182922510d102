//! What is kept reads back. Each law is the contract of a function that does nothing.

ghost use Rattle.nodes_tracker.specs.Swarms.{KeptReadsBack, NothingElseReads};

/// A swarm that is kept reads back as it was.
pub fn kept_reads_back()
    ensures { KeptReadsBack }
{}

/// A text that keeps no swarm counts as empty.
pub fn nothing_else_reads()
    ensures { NothingElseReads }
{}
