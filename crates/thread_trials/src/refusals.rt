//! A library that answers want of memory once.

use crate::burdens::Burden;
use crate::runs::{Came, Driver, came_of, drive, run_core, run_of};
use flow_core::{Core, OpenGate};
use flux_library::Library;
use plain_journals::Given;
use rt_all::AnyRuntime;
use rt_event::EventLoop;
use rt_perflow::PerFlow;
use rt_pool::Pool;
use std::alloc::Global;
use std::marker::{Send, Sync};
use std::sync::Wait;
use std::thread::Threads;
use trial_ends::Trouble;
use trial_programs::{COUNTING, Flows, LEFT_OUT, Watched, open};

/// What came of two drives.
#[derive(Clone, Copy)]
pub struct Drives {
    /// Whether the first stopped before its end, or might have come to it.
    pub first_is_right: bool,
    /// What came of the second. Its greatest put is what the flows have counted.
    pub came: Came,
}

/// The four flows that are driven.
const FLOWS: Flows = Flows {
    text: COUNTING,
    given: &[Given {
        source: 0,
        number: 1,
    }; 4],
};

/// Whether a drive may come to its end though a call is refused: the loop may run a helper's call too.
fn may_end(driver: Driver) -> bool {
    matches!(driver, Driver::Helpers(_))
}

/// Drives a core, and says whether it stopped before its end.
fn drive_on<L: Library + Send + Sync, R: Threads + Wait + Sync>(
    rt: &R,
    driver: Driver,
    core: Core<L>,
) -> (bool, Core<L>) {
    match drive(rt, driver, core, &OpenGate) {
        Ok(core) => (false, core),
        Err(stopped) => (true, stopped.core),
    }
}

/// Drives four flows, of which one call is refused, and then drives the core again.
pub fn driven_twice<R: Threads + Wait + Sync>(
    rt: &R,
    alloc: Global,
    driver: Driver,
    call: u64,
) -> Result<Drives, Trouble> {
    let watcher = Burden::refusing(call);
    let core = open(alloc, FLOWS.text, FLOWS.given, Watched { watcher })?;
    let (has_stopped, core) = drive_on(rt, driver, core);
    let run = run_core(rt, driver, core, &OpenGate)?;
    Ok(Drives {
        first_is_right: has_stopped || may_end(driver),
        came: came_of(alloc, FLOWS, &run, LEFT_OUT)?,
    })
}

/// The program's own runtime that drives so.
fn any_of(driver: Driver) -> AnyRuntime {
    match driver {
        Driver::Event => AnyRuntime::Event(EventLoop { helpers: 0 }),
        Driver::Helpers(helpers) => AnyRuntime::Event(EventLoop {
            helpers: helpers.min(16),
        }),
        Driver::PerFlow => AnyRuntime::PerFlow(PerFlow),
        Driver::Pool(workers) => AnyRuntime::Pool(Pool {
            workers: workers.clamp(1, 16),
        }),
    }
}

/// Drives four flows by the program's own runtime, of which one call is refused: where its threads stop, the thread that calls goes on.
pub fn driven_once<R: Threads + Wait + Sync>(
    rt: &R,
    alloc: Global,
    driver: Driver,
    call: u64,
) -> Result<Came, Trouble> {
    let watcher = Burden::refusing(call);
    let core = open(alloc, FLOWS.text, FLOWS.given, Watched { watcher })?;
    let mut runtime = any_of(driver);
    let run = run_of(runtime.drive_by_threads(rt, core, &OpenGate))?;
    came_of(alloc, FLOWS, &run, LEFT_OUT)
}
