//! How long a flow stays blocked.

ghost use Rattle.flow_waits.specs.steps.Staying.{BlockedStay, WritersBlock, FreshAreAlike};
ghost use Rattle.flow_waits.specs.steps.Aside.{CallsKeepCovers};

/// A blocked flow stays blocked while other flows go on, until one drops the key.
pub fn blocked_stay()
    ensures { BlockedStay }
{}

/// A flow that waits at a key after a writer is blocked.
pub fn writers_block()
    ensures { WritersBlock }
{}

/// Flows at one take that are in no line are blocked alike.
pub fn fresh_are_alike()
    ensures { FreshAreAlike }
{}

/// Candidates that cover all flows still do where others have finished calls since the last look.
pub fn calls_keep_covers()
    ensures { CallsKeepCovers }
{}
