//! A gate whose calls take long, and that measures the pauses between them.

use crate::heavy::Load;
use flow_core::Gate;
use flux_model::{FlowNo, NodeNo};
use flux_values::Memory;
use std::alloc::Global;
use std::sync::atomic::{AtomicU64, Ordering};
use std::time::Clock;

/// Longer pauses, in microseconds, are counted as this one.
const LONGEST: usize = 10_000;

/// Computes in each call. Where one call is made at a time, it counts the pauses from one call's end to the next one's beginning.
#[derive(Drop)]
pub struct Stopwatch<'a, C> {
    clock: &'a C,
    load: Load,
    /// What was computed last.
    computed: AtomicU64,
    /// When the last call ended, in microseconds; 0 before.
    ended: AtomicU64,
    /// How many pauses took so many microseconds.
    pauses: Vec<AtomicU64>,
}

impl<'a, C: Clock> Stopwatch<'a, C> {
    pub fn new(clock: &'a C, alloc: Global, load: Load) -> Result<Stopwatch<'a, C>, Memory> {
        let mut pauses = Vec::new(alloc);
        for _ in 0..=LONGEST {
            pauses.push(AtomicU64::new(0))?;
        }
        Ok(Stopwatch {
            clock,
            load,
            computed: AtomicU64::new(0),
            ended: AtomicU64::new(0),
            pauses,
        })
    }

    /// The time in microseconds, or 0 where the clock can't be read.
    fn now(&self) -> u64 {
        match self.clock.monotonic() {
            Ok(time) => u64::try_from(time.as_micros()).unwrap_or(0),
            Err(_) => 0,
        }
    }

    fn compute(&self, rounds: u64) {
        let mut value: u64 = 1;
        for round in 0..rounds {
            value = value
                .wrapping_mul(6_364_136_223_846_793_005)
                .wrapping_add(round);
        }
        self.computed.store(value, Ordering::SeqCst);
    }

    fn count(&self, pause: u64) {
        let place = usize::try_from(pause).unwrap_or(LONGEST).min(LONGEST);
        if let Some(count) = self.pauses.get(place) {
            let _ = count.fetch_add(1, Ordering::SeqCst);
        }
    }

    fn counted(&self) -> u64 {
        let mut all: u64 = 0;
        for count in self.pauses.iter() {
            all = all.saturating_add(count.load(Ordering::SeqCst));
        }
        all
    }

    /// Within so many microseconds so many of 100 pauses ended.
    pub fn within(&self, percent: u64) -> u64 {
        let wanted = self.counted().saturating_mul(percent) / 100;
        let mut seen: u64 = 0;
        let mut place: u64 = 0;
        for count in self.pauses.iter() {
            seen = seen.saturating_add(count.load(Ordering::SeqCst));
            if seen >= wanted {
                return place;
            }
            place = place.saturating_add(1);
        }
        place
    }
}

impl<'a, C: Clock> Gate for Stopwatch<'a, C> {
    fn before(&self, _flow: FlowNo, node: NodeNo) {
        let ended = self.ended.load(Ordering::SeqCst);
        if ended != 0 {
            self.count(self.now().saturating_sub(ended));
        }
        self.compute(
            self.load
                .rounds
                .saturating_mul(self.load.shape.weight(node)),
        );
    }

    fn after(&self, _flow: FlowNo, _node: NodeNo) {
        self.ended.store(self.now(), Ordering::SeqCst);
    }
}
