//! Two links of one batch: the first one adds, and the second one asks.

use crate::crowds::COUNTER;
use crate::doors::TellingDoor;
use crate::serving::{door_of, link_of, serve_text};
use flow_core::Gate;
use flux_doors::MemoryLink;
use flux_model::{FlowNo, NodeNo};
use flux_serve::ServeEnd;
use flux_values::{List, Memory};
use std::alloc::Global;
use std::marker::Sync;
use std::sync::Wait;
use std::sync::atomic::{AtomicU64, Ordering};
use std::thread::Threads;
use std::time::Duration;
use trial_ends::Trouble;

/// Holds the first call of each of two flows until the other one makes a call, and the second call of flow 1 until a word is raised.
#[derive(Drop)]
struct Holding<'a, R> {
    rt: &'a R,
    word: &'a AtomicU64,
    looks: u32,
    /// How many calls flow 0 and flow 1 have made, and how many were let go in time.
    zero: AtomicU64,
    one: AtomicU64,
    kept: AtomicU64,
}

impl<R: Wait> Holding<'_, R> {
    /// Waits until a word isn't 0, for so many looks at most.
    fn hold(&self, word: &AtomicU64) {
        let bed = AtomicU64::new(0);
        for _ in 0..self.looks {
            if word.load(Ordering::SeqCst) != 0 {
                let _ = self.kept.fetch_add(1, Ordering::SeqCst);
                return;
            }
            bed.park_timeout(self.rt, 0, Duration::from_millis(1));
        }
    }
}

impl<R: Wait> Gate for Holding<'_, R> {
    fn before(&self, flow: FlowNo, _node: NodeNo) {
        let (own, other) = if flow.0 == 0 {
            (&self.zero, &self.one)
        } else {
            (&self.one, &self.zero)
        };
        match own.fetch_add(1, Ordering::SeqCst) {
            0 => self.hold(other),
            1 if flow.0 == 1 => self.hold(self.word),
            _ => {}
        }
    }

    fn after(&self, _flow: FlowNo, _node: NodeNo) {}
}

/// The two links.
fn links_of(alloc: Global) -> Result<List<MemoryLink>, Memory> {
    let mut links = List::new(alloc);
    links.add(link_of(alloc, b"add 5\n", 0, 0)?)?;
    links.add(link_of(alloc, b"get\n", 0, 0)?)?;
    Ok(links)
}

/// What is said of two links that were taken back, where so many calls were let go in time.
fn judge(back: &[MemoryLink], kept: u64) -> &'static str {
    if kept != 3 {
        return "not in time";
    }
    for link in back {
        if link.written() != b"5\n".as_slice() {
            return "another reply";
        }
    }
    "right"
}

/// Whether three calls were let go in time, the last one when the first link was written to, and both links got the sum.
pub fn serve_pair<R: Threads + Wait + Sync>(
    rt: &R,
    alloc: Global,
    workers: u8,
    looks: u32,
) -> Result<&'static str, Trouble> {
    let word = AtomicU64::new(0);
    let mut door = TellingDoor {
        door: door_of(alloc, links_of(alloc)?)?,
        word: Some(&word),
    };
    let gate = Holding {
        rt,
        word: &word,
        looks,
        zero: AtomicU64::new(0),
        one: AtomicU64::new(0),
        kept: AtomicU64::new(0),
    };
    match serve_text(rt, alloc, COUNTER, &mut door, workers, &gate, 1)? {
        ServeEnd::Memory => Err(Trouble::Memory),
        _ => Ok(judge(door.door.taken_back(), gate.kept.load(Ordering::SeqCst))),
    }
}
