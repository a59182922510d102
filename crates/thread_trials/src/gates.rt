//! A gate that holds the first call until another flow calls.

use flow_core::Gate;
use flux_model::{FlowNo, NodeNo};
use std::sync::atomic::{AtomicU64, Ordering};
use std::thread;

/// The first call looks so often, at most.
const MOST_LOOKS: u64 = 100_000_000;

/// No call was made yet.
const NONE: u64 = 0;

/// A call of another flow was made while the first one was held.
const MET: u64 = u64::MAX;

/// The first call went on alone.
const ALONE: u64 = u64::MAX - 1;

/// Holds the first call until a call of another flow was made.
#[derive(Drop)]
pub struct Holding {
    /// One more than the number of the flow whose call is held, or what came of that.
    held: AtomicU64,
}

impl Holding {
    pub fn new() -> Holding {
        Holding {
            held: AtomicU64::new(NONE),
        }
    }

    /// Whether another flow called while the first call was held.
    pub fn was_met(&self) -> bool {
        self.held.load(Ordering::SeqCst) == MET
    }

    /// Puts one number in another's place, if that is there.
    fn swap(&self, old: u64, new: u64) -> bool {
        let swapped = self
            .held
            .compare_exchange(old, new, Ordering::SeqCst, Ordering::SeqCst);
        swapped.is_ok()
    }

    fn hold(&self, own: u64) {
        for _ in 0..MOST_LOOKS {
            if self.was_met() {
                return;
            }
            thread::yield_now();
        }
        let _ = self.swap(own, ALONE);
    }
}

impl Gate for Holding {
    fn before(&self, flow: FlowNo, _node: NodeNo) {
        let own = u64::from(flow.0) + 1;
        if self.swap(NONE, own) {
            self.hold(own);
            return;
        }
        let held = self.held.load(Ordering::SeqCst);
        if held != own && held < ALONE {
            let _ = self.swap(held, MET);
        }
    }

    fn after(&self, _flow: FlowNo, _node: NodeNo) {}
}
