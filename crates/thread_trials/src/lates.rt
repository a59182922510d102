//! A call that is run twice, since the first run of it is held until the second has ended.

use crate::runs::{Came, Driver, drive_many};
use flow_core::Gate;
use flux_model::{FlowNo, NodeNo};
use std::alloc::Global;
use std::marker::Sync;
use std::sync::Wait;
use std::sync::atomic::{AtomicU64, Ordering};
use std::thread;
use std::thread::Threads;
use trial_ends::Trouble;
use trial_programs::{COUNTING, LEFT_OUT};

/// A run that is held looks so often, at most.
const MOST_LOOKS: u64 = 100_000_000;

/// Holds the first run of a call until another run has ended.
#[derive(Drop)]
pub struct Outrun {
    begun: AtomicU64,
    ended: AtomicU64,
}

impl Outrun {
    pub fn new() -> Outrun {
        Outrun {
            begun: AtomicU64::new(0),
            ended: AtomicU64::new(0),
        }
    }

    /// How many runs have ended.
    pub fn ended(&self) -> u64 {
        self.ended.load(Ordering::SeqCst)
    }

    fn hold(&self) {
        for _ in 0..MOST_LOOKS {
            if self.ended() != 0 {
                return;
            }
            thread::yield_now();
        }
    }
}

impl Gate for Outrun {
    fn before(&self, _flow: FlowNo, _node: NodeNo) {
        if self.begun.fetch_add(1, Ordering::SeqCst) == 0 {
            self.hold();
        }
    }

    fn after(&self, _flow: FlowNo, _node: NodeNo) {
        let _ = self.ended.fetch_add(1, Ordering::SeqCst);
    }
}

/// What came of flows whose first call was run twice.
#[derive(Clone, Copy)]
pub struct Lates {
    /// Their greatest put is what they have counted.
    pub came: Came,
    /// How many answers came when the call had one.
    pub late: u64,
}

/// Drives flows that count in one cell, of which the first call is run twice.
pub fn late_of<R: Threads + Wait + Sync>(
    rt: &R,
    alloc: Global,
    driver: Driver,
    flows: u32,
) -> Result<Lates, Trouble> {
    let gate = Outrun::new();
    let came = drive_many(rt, alloc, driver, COUNTING, flows, &gate, LEFT_OUT)?;
    let late = gate.ended().saturating_sub(came.calls);
    Ok(Lates { came, late })
}
