//! Calls of which one is refused.

use std::sync::atomic::{AtomicU64, Ordering};
use trial_programs::Watcher;

/// One of the calls is refused.
#[derive(Drop)]
pub struct Burden {
    /// The number of the call that is refused, counted from the next one as 1; with 0 none is.
    left: AtomicU64,
}

impl Burden {
    /// The call of this number, from 1, is refused.
    pub fn refusing(call: u64) -> Burden {
        Burden {
            left: AtomicU64::new(call),
        }
    }
}

impl Watcher for Burden {
    fn refuses(&self) -> bool {
        self.left.load(Ordering::SeqCst) != 0 && self.left.fetch_sub(1, Ordering::SeqCst) == 1
    }
}
