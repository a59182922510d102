//! How a thread that has nothing to do gives its processor away.

use std::sync::Wait;
use std::sync::atomic::AtomicU64;
use std::thread;
use std::time::Duration;

/// So many pauses only let others go first.
const YIELDS: u32 = 16;

/// So many where a turn is awaited. Turns are short, and a sleep is longer than some of them.
const YIELDS_FOR_TURN: u32 = 128;

/// The first sleep has so many microseconds, and each later one twice as many.
const FIRST_SLEEP: u64 = 8;

/// The longest sleep, in microseconds.
const LONGEST_SLEEP: u64 = 1_000;

/// The pauses that a thread makes in a row.
#[derive(Clone, Copy, Drop)]
pub struct Pause {
    /// So many more only let others go first.
    yields: u32,
    sleep: u64,
}

impl Pause {
    pub fn new() -> Pause {
        Pause {
            yields: YIELDS,
            sleep: FIRST_SLEEP,
        }
    }

    /// Pauses of a thread that waits for a turn.
    pub fn for_turn() -> Pause {
        Pause {
            yields: YIELDS_FOR_TURN,
            sleep: FIRST_SLEEP,
        }
    }

    /// Lets others go first, and later sleeps, longer each time, for up to a millisecond.
    pub fn rest<R: Wait>(&mut self, rt: &R) {
        if self.yields > 0 {
            self.yields -= 1;
            thread::yield_now();
            return;
        }
        let bed = AtomicU64::new(0);
        bed.park_timeout(rt, 0, Duration::from_micros(self.sleep));
        self.sleep = (self.sleep.saturating_mul(2)).min(LONGEST_SLEEP);
    }
}
