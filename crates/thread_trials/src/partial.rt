//! Cores of which one flow holds a key that all others want.

use crate::runs::{Came, Driver, came_of, run_core};
use flow_core::{Core, OpenGate};
use flux_model::FlowNo;
use nodes_counter::Counter;
use std::alloc::Global;
use std::marker::Sync;
use std::sync::Wait;
use std::thread::Threads;
use trial_ends::Trouble;
use trial_programs::{COUNTING, Flows, numbers, open};

/// Lets a flow make its first event, which takes the key.
fn step_first(core: &mut Core<Counter>, holder: u32) -> Result<(), Trouble> {
    if holder >= core.flows() {
        return Err(Trouble::Wrong);
    }
    let _took = core.step(FlowNo(holder))?;
    Ok(())
}

/// Drives so many flows that count in one cell, of which one holds it from the start.
pub fn drive_held<R: Threads + Wait + Sync>(
    rt: &R,
    alloc: Global,
    driver: Driver,
    count: u32,
    holder: u32,
) -> Result<Came, Trouble> {
    let given = numbers(alloc, count)?;
    let flows = Flows {
        text: COUNTING,
        given: given.as_slice(),
    };
    let mut core = open(alloc, COUNTING, given.as_slice(), Counter)?;
    step_first(&mut core, holder)?;
    came_of(alloc, flows, &run_core(rt, driver, core, &OpenGate)?, 0)
}
