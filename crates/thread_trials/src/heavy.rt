//! Flows whose calls take long, for the benches.

use crate::runs::{Driver, run_core};
use crate::stopwatches::Stopwatch;
use flux_model::NodeNo;
use flux_values::{List, Memory};
use nodes_counter::Counter;
use plain_journals::Given;
use std::alloc::Global;
use std::marker::Sync;
use std::sync::Wait;
use std::thread::Threads;
use std::time::Clock;
use trial_ends::Trouble;
use trial_programs::{COUNTING, FREE, NESTED, open};

/// Half of the flows count in one cell, and the others take nothing.
const HALVES: &[u8] =
    b"Tick () => (int n);\nPass (int n) => (int n);\nAdd (int n) => (int n);\ntypedef negative IsNegative;\nsource Tick => Load;\nLoad:[negative] = Pass;\nLoad:[_] = Add;\natomic Add:{counter};\n";

/// What flows do whose calls take long.
#[derive(Clone, Copy)]
pub enum Shape {
    /// They take nothing.
    Free,
    /// All count in one cell.
    OneKey,
    /// Half of them count in one cell.
    Halves,
    /// Readers, writers and sessions within nested flows. Its three nodes cost one, two and three times as much.
    Nested,
}

impl Shape {
    fn text(self) -> &'static [u8] {
        match self {
            Shape::Free => FREE,
            Shape::OneKey => COUNTING,
            Shape::Halves => HALVES,
            Shape::Nested => NESTED,
        }
    }

    /// What the source gives to a flow.
    fn number(self, flow: u32) -> i64 {
        match self {
            Shape::Halves if flow % 2 == 1 => -1,
            Shape::Free | Shape::OneKey | Shape::Halves => 1,
            Shape::Nested => (1 + 7 * flow as i64) % 10,
        }
    }

    /// How many times as much as the cheapest one a node's call costs.
    pub fn weight(self, node: NodeNo) -> u64 {
        match self {
            Shape::Free | Shape::OneKey | Shape::Halves => 1,
            Shape::Nested => u64::from(node.0),
        }
    }
}

/// A load of heavy calls.
#[derive(Clone, Copy)]
pub struct Load {
    pub shape: Shape,
    pub flows: u32,
    /// The cheapest call multiplies so often.
    pub rounds: u64,
}

impl Load {
    fn given(&self, alloc: Global) -> Result<List<Given>, Memory> {
        let mut given = List::new(alloc);
        for flow in 0..self.flows {
            given.add(Given {
                source: 0,
                number: self.shape.number(flow),
            })?;
        }
        Ok(given)
    }
}

/// What came of a load.
#[derive(Clone, Copy)]
pub struct Heavy {
    /// How many flows have ended.
    pub ended: u32,
    /// Within so many microseconds half of the pauses between two calls ended, and 99 of 100.
    pub pauses: [u64; 2],
}

/// Drives a load to its end.
pub fn drive_load<R: Threads + Wait + Sync + Clock>(
    rt: &R,
    alloc: Global,
    driver: Driver,
    load: Load,
) -> Result<Heavy, Trouble> {
    let given = load.given(alloc)?;
    let core = open(alloc, load.shape.text(), given.as_slice(), Counter)?;
    let gate = Stopwatch::new(rt, alloc, load)?;
    let run = run_core(rt, driver, core, &gate)?;
    Ok(Heavy {
        ended: run.ended,
        pauses: [gate.within(50), gate.within(99)],
    })
}
