//! The calls of nodes, as a gate sees them and as a printed journal has them.

use flow_core::Gate;
use flux_model::{FlowNo, NodeNo};
use flux_values::Bytes;
use std::sync::Wait;
use std::sync::atomic::{AtomicBool, AtomicU32, AtomicU64, Ordering};
use std::time::Duration;

/// No call has begun.
const NONE: u64 = 0;

/// A call of another flow began while the first call was held.
const MET: u64 = u64::MAX;

/// The first call went on, and none of another flow had begun.
const ALONE: u64 = u64::MAX - 1;

/// How long the first call sleeps between two looks, in milliseconds.
const SLEEP: u64 = 1;

/// A gate that counts calls, and keeps whether one began before another ended. It may hold the first call
/// until one of another flow begins.
#[derive(Drop)]
pub struct CountingGate<'a, R> {
    rt: &'a R,
    begun: AtomicU64,
    ended: AtomicU64,
    flow: AtomicU32,
    node: AtomicU32,
    mixed_up: AtomicBool,
    /// How often the first call looks for one of another flow, at most.
    looks: u64,
    /// `NONE`, then one more than the number of the flow whose call is held, then `MET` or `ALONE`.
    held: AtomicU64,
}

impl<'a, R: Wait> CountingGate<'a, R> {
    /// A gate that holds the first call for so many looks at most.
    pub fn new(rt: &'a R, looks: u64) -> CountingGate<'a, R> {
        CountingGate {
            rt,
            begun: AtomicU64::new(0),
            ended: AtomicU64::new(0),
            flow: AtomicU32::new(0),
            node: AtomicU32::new(0),
            mixed_up: AtomicBool::new(false),
            looks,
            held: AtomicU64::new(NONE),
        }
    }

    /// Whether a call of another flow began while the first call was held.
    pub fn was_met(&self) -> bool {
        self.held.load(Ordering::SeqCst) == MET
    }

    /// Puts one number in another's place, if that is there.
    fn swap(&self, old: u64, new: u64) -> bool {
        let swapped = self
            .held
            .compare_exchange(old, new, Ordering::SeqCst, Ordering::SeqCst);
        swapped.is_ok()
    }

    /// Holds the first call. The begin of one of another flow lets it go.
    fn meet(&self, flow: FlowNo) {
        let own = u64::from(flow.0) + 1;
        if self.swap(NONE, own) {
            self.hold(own);
            return;
        }
        let held = self.held.load(Ordering::SeqCst);
        if held != own && held < ALONE {
            let _ = self.swap(held, MET);
        }
    }

    /// Waits until a call of another flow began, and for no more looks than were said. It sleeps between them, since what giving a
    /// processor away takes depends on what else runs: from less than a microsecond to some milliseconds.
    fn hold(&self, own: u64) {
        let bed = AtomicU64::new(0);
        for _ in 0..self.looks {
            if self.was_met() {
                return;
            }
            bed.park_timeout(self.rt, 0, Duration::from_millis(SLEEP));
        }
        let _ = self.swap(own, ALONE);
    }

    /// How many calls it saw; none where not each had its end. Where calls don't run beside each other, each end was reported
    /// right after its own begin, of the same flow and node.
    pub fn calls(&self, beside: bool) -> Option<u64> {
        let begun = self.begun.load(Ordering::SeqCst);
        let ended = self.ended.load(Ordering::SeqCst);
        if begun == ended && (beside || !self.mixed_up.load(Ordering::SeqCst)) {
            Some(begun)
        } else {
            None
        }
    }
}

impl<R: Wait> Gate for CountingGate<'_, R> {
    fn before(&self, flow: FlowNo, node: NodeNo) {
        let before = self.begun.fetch_add(1, Ordering::SeqCst);
        if before != self.ended.load(Ordering::SeqCst) {
            self.mixed_up.store(true, Ordering::SeqCst);
        }
        self.flow.store(flow.0, Ordering::SeqCst);
        self.node.store(node.0, Ordering::SeqCst);
        self.meet(flow);
    }

    fn after(&self, flow: FlowNo, node: NodeNo) {
        let own = self.flow.load(Ordering::SeqCst) == flow.0
            && self.node.load(Ordering::SeqCst) == node.0;
        let before = self.ended.fetch_add(1, Ordering::SeqCst);
        if !own || self.begun.load(Ordering::SeqCst) != before.wrapping_add(1) {
            self.mixed_up.store(true, Ordering::SeqCst);
        }
    }
}

/// Whether a line of a printed journal is a call.
fn is_call(line: &[u8]) -> bool {
    let mut words = line.splitn(3, |byte| *byte == b' ');
    match (words.next(), words.next()) {
        (Some(number), Some(event)) => is_number(number) && event == b"call".as_slice(),
        _ => false,
    }
}

/// How many calls a printed journal has.
pub fn calls_in(journal: &[u8]) -> u64 {
    let mut calls: u64 = 0;
    for line in journal.split(|byte| *byte == b'\n') {
        if is_call(line) {
            calls = calls.saturating_add(1);
        }
    }
    calls
}

/// Whether a journal is printed, or a log.
pub fn has_journal(words: &[Bytes]) -> bool {
    is_command(words, b"run") || is_command(words, b"serve")
}

/// Whether the words begin with a command's name.
pub fn is_command(words: &[Bytes], name: &[u8]) -> bool {
    words.first().is_some_and(|word| word.as_bytes() == name)
}

fn is_number(word: &[u8]) -> bool {
    !word.is_empty() && word.iter().all(|byte| byte.is_ascii_digit())
}
