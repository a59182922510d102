//! The runtime.

ghost use Rattle.std.specs.Prelude.{◌≡◌, ◌≤◌, IfOk, IfErr};
ghost use Rattle.flow_core.specs.Runs.{GoesOn, GoesOnLegally, GoesToEnd};
ghost use Rattle.flow_turns.specs.Workers.{IsOver};

use crate::desks::Desk;
use crate::workers::{Office, workers};
use flow_core::{Core, Gate, Stopped};
use flow_turns::{give_up, is_over, settle, share};
use flux_library::Library;
use std::marker::{Send, Sync};
use std::sync::Wait;
use std::thread::Threads;

/// Drives a core by a number of workers, from 1 to 16.
#[derive(Clone, Copy)]
pub struct Pool {
    pub workers: u8,
    pub ghost some: { 1 ≤ workers },
    pub ghost few: { workers ≤ 16 },
}

impl Pool {
    /// Drives a core to its end. What a runtime promises, it promises too, for whatever order the workers' turns have.
    pub fn drive<L: Library + Send + Sync, G: Gate + Sync, R: Threads + Wait + Sync>(
        &mut self,
        rt: &R,
        core: Core<L>,
        gate: &G,
    ) -> Result<Core<L>, Stopped<L>>
        ensures ok { IfOk result (GoesToEnd L.meaning core) }
        ensures err { IfErr result (λ stopped. GoesOnLegally L.meaning core stopped.core) }
        ensures same { self.new ≡ self.old }
    {
        let halted = core.is_halted();
        let mut core = core;
        core.resume();
        settle(rounds(rt, core, self.workers, gate), halted)
    }
}

/// Round after round, until no flow is live or the core is halted. Workers end only then, so one round is all.
fn rounds<L: Library + Send + Sync, G: Gate + Sync, R: Threads + Wait + Sync>(
    rt: &R,
    core: Core<L>,
    count: u8,
    gate: &G,
) -> Core<L>
    ensures on { GoesOn core result }
    ensures over { IsOver result }
{
    let mut core = core;
    for _ in rt.forever() {
        if is_over(&core) {
            return core;
        }
        core = round(rt, core, count, gate);
    }
    unreachable!()
}

/// So many workers, each in a thread of its own, until all have ended.
fn round<L: Library + Send + Sync, G: Gate + Sync, R: Threads + Wait + Sync>(
    rt: &R,
    core: Core<L>,
    count: u8,
    gate: &G,
) -> Core<L>
    ensures { GoesOn core result }
{
    if core.flows() == 0 {
        return core;
    }
    match (Desk::new(rt, &core), workers(core.alloc(), count)) {
        (Ok(desk), Ok(workers)) => share(rt, core, &Office::new(desk), workers, gate),
        _ => give_up(core),
    }
}
