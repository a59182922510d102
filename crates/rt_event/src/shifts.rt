//! A drive by the loop and helpers, in threads of their own.

ghost use Rattle.std.specs.Prelude.{◌≡◌, IfOk, IfErr};
ghost use Rattle.flow_core.specs.Runs.{GoesOn, GoesOnLegally, GoesToEnd};
ghost use Rattle.flow_turns.specs.Workers.{IsOver};

use crate::bells::Bells;
use crate::parts::parts;
use flow_core::{Core, Gate, Stopped};
use flow_turns::{give_up, is_over, settle, share};
use flux_library::Library;
use std::marker::{Send, Sync};
use std::sync::Wait;
use std::thread::Threads;

/// Drives a core to its end by the loop and so many helpers.
pub fn drive_with_helpers<L: Library + Send + Sync, G: Gate + Sync, R: Threads + Wait + Sync>(
    rt: &R,
    core: Core<L>,
    helpers: u8,
    gate: &G,
) -> Result<Core<L>, Stopped<L>>
    ensures ok { IfOk result (GoesToEnd L.meaning core) }
    ensures err { IfErr result (λ stopped. GoesOnLegally L.meaning core stopped.core) }
{
    let halted = core.is_halted();
    let mut core = core;
    core.resume();
    settle(all_shifts(rt, core, helpers, gate), halted)
}

/// Shift after shift, until no flow is live or the core is halted. Loop and helpers end only then, so one shift is all.
fn all_shifts<L: Library + Send + Sync, G: Gate + Sync, R: Threads + Wait + Sync>(
    rt: &R,
    core: Core<L>,
    helpers: u8,
    gate: &G,
) -> Core<L>
    ensures on { GoesOn core result }
    ensures over { IsOver result }
{
    let mut core = core;
    for _ in rt.forever() {
        if is_over(&core) {
            return core;
        }
        core = shift(rt, core, helpers, gate);
    }
    unreachable!()
}

/// The loop and so many helpers, each in a thread of its own, until all have ended.
fn shift<L: Library + Send + Sync, G: Gate + Sync, R: Threads + Wait + Sync>(
    rt: &R,
    core: Core<L>,
    helpers: u8,
    gate: &G,
) -> Core<L>
    ensures { GoesOn core result }
{
    match (parts(&core, helpers), Bells::new(rt, &core, helpers)) {
        (Ok(parts), Ok(bells)) => share(rt, core, &bells, parts, gate),
        _ => give_up(core),
    }
}
