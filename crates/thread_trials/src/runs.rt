//! Cores that are driven by threads.

use crate::entries::{calls_in, greatest_in};
use crate::gates::Holding;
use flow_core::{Core, Gate, OpenGate, Stopped};
use flow_model::Journal;
use flux_library::Library;
use nodes_counter::Counter;
use rt_event::EventLoop;
use rt_perflow::PerFlow;
use rt_pool::Pool;
use std::alloc::Global;
use std::marker::{Send, Sync};
use std::sync::Wait;
use std::thread::Threads;
use trial_ends::Trouble;
use trial_programs::{
    FREE, Flows, LEFT_OUT, NESTED, journal_of, numbers, numbers_of, open, text_of,
};

/// Which runtime.
#[derive(Clone, Copy)]
pub enum Driver {
    /// On the thread that calls.
    Event,
    /// The event loop with so many helpers.
    Helpers(u8),
    PerFlow,
    /// With so many workers.
    Pool(u8),
}

pub fn drive<L: Library + Send + Sync, G: Gate + Sync, R: Threads + Wait + Sync>(
    rt: &R,
    driver: Driver,
    core: Core<L>,
    gate: &G,
) -> Result<Core<L>, Stopped<L>> {
    match driver {
        Driver::Event => EventLoop { helpers: 0 }.drive_alone(core, gate),
        Driver::Helpers(helpers) => EventLoop {
            helpers: helpers.min(16),
        }
        .drive_by_threads(rt, core, gate),
        Driver::PerFlow => PerFlow.drive(rt, core, gate),
        Driver::Pool(workers) => Pool {
            workers: workers.clamp(1, 16),
        }
        .drive(rt, core, gate),
    }
}

/// What flows did that were driven to their ends.
#[derive(Drop)]
pub struct Run {
    pub journal: Journal,
    /// How many flows have ended.
    pub ended: u32,
}

/// What flows did whose core was driven to its end.
pub fn run_of<L: Library>(driven: Result<Core<L>, Stopped<L>>) -> Result<Run, Trouble> {
    match driven {
        Ok(core) => {
            let ended = core.flows().saturating_sub(core.live());
            let journal = journal_of(core);
            Ok(Run { journal, ended })
        }
        Err(stopped) => {
            drop(journal_of(stopped.core));
            Err(Trouble::Memory)
        }
    }
}

/// Drives a core to its end.
pub fn run_core<L: Library + Send + Sync, G: Gate + Sync, R: Threads + Wait + Sync>(
    rt: &R,
    driver: Driver,
    core: Core<L>,
    gate: &G,
) -> Result<Run, Trouble> {
    run_of(drive(rt, driver, core, gate))
}

/// A core of the text's program with a flow for each number is driven to its end.
fn run_flows<G: Gate + Sync, R: Threads + Wait + Sync>(
    rt: &R,
    alloc: Global,
    driver: Driver,
    flows: Flows,
    gate: &G,
) -> Result<Run, Trouble> {
    let core = open(alloc, flows.text, flows.given, Counter)?;
    run_core(rt, driver, core, gate)
}

/// What came of flows that were driven to their ends.
#[derive(Clone, Copy)]
pub struct Came {
    /// How many flows have ended.
    pub ended: u32,
    /// The greatest number that a call put into a cell, or 0.
    pub greatest: i64,
    /// How many calls were made.
    pub calls: u64,
    /// Whether the auditor upholds the journal.
    pub is_upheld: bool,
}

/// What came of a run of flows. So many lines are left out of its journal, one at a time.
pub fn came_of(alloc: Global, flows: Flows, run: &Run, left_out: usize) -> Result<Came, Trouble> {
    let entries = run.journal.entries.as_slice();
    Ok(Came {
        ended: run.ended,
        greatest: greatest_in(entries),
        calls: calls_in(entries),
        is_upheld: flows.uphold(alloc, &run.journal, left_out)?,
    })
}

/// Drives so many flows of a text's program.
pub fn drive_many<G: Gate + Sync, R: Threads + Wait + Sync>(
    rt: &R,
    alloc: Global,
    driver: Driver,
    text: &[u8],
    count: u32,
    gate: &G,
    left_out: usize,
) -> Result<Came, Trouble> {
    let given = numbers(alloc, count)?;
    let flows = Flows {
        text,
        given: given.as_slice(),
    };
    drive_flows(rt, alloc, driver, flows, gate, left_out)
}

fn drive_flows<G: Gate + Sync, R: Threads + Wait + Sync>(
    rt: &R,
    alloc: Global,
    driver: Driver,
    flows: Flows,
    gate: &G,
    left_out: usize,
) -> Result<Came, Trouble> {
    let run = run_flows(rt, alloc, driver, flows, gate)?;
    came_of(alloc, flows, &run, left_out)
}

/// Whether the journal of driven flows is what plain lists say that it must be, and the auditor upholds it, without one of so many
/// lines too.
fn keep_rules<R: Threads + Wait + Sync>(
    rt: &R,
    alloc: Global,
    driver: Driver,
    flows: Flows,
    left_out: usize,
) -> Result<bool, Trouble> {
    let run = run_flows(rt, alloc, driver, flows, &OpenGate)?;
    flows.keep_rules(alloc, &run.journal, left_out)
}

/// Of so many drives, how many made a journal that keeps each rule. Of the first one lines are left out.
fn kept_of<R: Threads + Wait + Sync>(
    rt: &R,
    alloc: Global,
    driver: Driver,
    flows: Flows,
    times: u32,
) -> Result<u32, Trouble> {
    let mut kept: u32 = 0;
    for time in 0..times {
        let left_out = if time == 0 { LEFT_OUT } else { 0 };
        if keep_rules(rt, alloc, driver, flows, left_out)? {
            kept = kept.saturating_add(1);
        }
    }
    Ok(kept)
}

/// The same of a seed's program.
fn kept_by_seed<R: Threads + Wait + Sync>(
    rt: &R,
    alloc: Global,
    driver: Driver,
    seed: u32,
    times: u32,
) -> Result<u32, Trouble> {
    let text = text_of(alloc, seed)?;
    let given = numbers_of(alloc, seed)?;
    let flows = Flows {
        text: text.as_bytes(),
        given: given.as_slice(),
    };
    kept_of(rt, alloc, driver, flows, times)
}

/// The programs of so many seeds, each driven so often: how many journals keep each rule.
pub fn kept<R: Threads + Wait + Sync>(
    rt: &R,
    alloc: Global,
    driver: Driver,
    seeds: u32,
    times: u32,
) -> Result<u32, Trouble> {
    let mut kept: u32 = 0;
    for seed in 0..seeds {
        kept = kept.saturating_add(kept_by_seed(rt, alloc, driver, seed, times)?);
    }
    Ok(kept)
}

/// Whether so many flows through nested nodes made a journal that keeps each rule.
pub fn nested_kept<R: Threads + Wait + Sync>(
    rt: &R,
    alloc: Global,
    driver: Driver,
    count: u32,
) -> Result<bool, Trouble> {
    let given = numbers(alloc, count)?;
    let flows = Flows {
        text: NESTED,
        given: given.as_slice(),
    };
    keep_rules(rt, alloc, driver, flows, LEFT_OUT)
}

/// Whether the first call of two flows was held until the other flow called, and the auditor upholds the journal.
pub fn calls_held<R: Threads + Wait + Sync>(
    rt: &R,
    alloc: Global,
    driver: Driver,
) -> Result<bool, Trouble> {
    let gate = Holding::new();
    let came = drive_many(rt, alloc, driver, FREE, 2, &gate, LEFT_OUT)?;
    Ok(came.is_upheld && gate.was_met())
}
