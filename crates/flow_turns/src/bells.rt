//! Bells, which wake workers that have nothing to do.

use std::sync::Wait;
use std::sync::atomic::{AtomicU64, Ordering};
use std::time::Duration;

/// Rung when there may be something to do. A worker notes how often the bell was rung before it looks for something, and
/// sleeps only if it hasn't been rung since. So no ringing is missed; no clause says so.
#[derive(Drop)]
pub struct Bell {
    rung: AtomicU64,
    sleepers: AtomicU64,
}

impl Bell {
    pub fn new() -> Bell {
        Bell {
            rung: AtomicU64::new(0),
            sleepers: AtomicU64::new(0),
        }
    }

    /// How often it was rung, modulo 2^32.
    pub fn rung(&self) -> u32 {
        (self.rung.load(Ordering::SeqCst) % 4_294_967_296) as u32
    }

    /// Wakes a worker, if one sleeps.
    pub fn ring(&self) {
        let _ = self.rung.fetch_add(1, Ordering::SeqCst);
        if self.sleepers.load(Ordering::SeqCst) > 0 {
            self.rung.wake_one();
        }
    }

    /// Sleeps until the bell is rung, for so many milliseconds at most, unless it has been rung more often than this already.
    pub fn sleep<R: Wait>(&self, rt: &R, rung: u32, milliseconds: u64) {
        let _ = self.sleepers.fetch_add(1, Ordering::SeqCst);
        self.rung
            .park_timeout(rt, rung, Duration::from_millis(milliseconds));
        let _ = self.sleepers.fetch_sub(1, Ordering::SeqCst);
    }
}
