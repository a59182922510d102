//! Calls, which are run outside the turn.

ghost use Rattle.std.specs.Prelude.{IfOk};
ghost use Rattle.flow_turns.specs.Turns.{IsAnswerTo};

use flow_core::{CallDone, Gate, Job};
use flux_library::Library;
use flux_values::Memory;
use std::alloc::Global;

/// Runs a call, with the gate before and after it. It needs no core.
pub fn run<L: Library, G: Gate>(
    alloc: Global,
    job: &Job<L>,
    gate: &G,
) -> Result<CallDone<L>, Memory>
    ensures { IfOk result (IsAnswerTo job.now) }
{
    gate.before(job.flow(), job.node());
    let made = job.run(alloc);
    gate.after(job.flow(), job.node());
    made
}
