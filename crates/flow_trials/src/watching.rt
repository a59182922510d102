//! Calls of nodes that are watched from both sides: by a gate, which sees each, and by the library that makes them.

use flow_core::{Core, Gate};
use flow_waits::drain_by;
use flux_library::Library;
use flux_model::{FlowNo, NodeNo};
use std::sync::atomic::{AtomicBool, AtomicU32, Ordering};
use trial_ends::Trouble;
use trial_programs::Watcher;

/// The calls so far. The gate sees each, it is made once, and the gate sees it again.
#[derive(Drop)]
pub struct Calls {
    told: AtomicBool,
    made: AtomicBool,
    ended: AtomicU32,
    mixed_up: AtomicBool,
}

impl Calls {
    pub fn new() -> Calls {
        Calls {
            told: AtomicBool::new(false),
            made: AtomicBool::new(false),
            ended: AtomicU32::new(0),
            mixed_up: AtomicBool::new(false),
        }
    }

    fn note(&self, right: bool) {
        if !right {
            self.mixed_up.store(true, Ordering::SeqCst);
        }
    }

    /// A call is made. It gives how many ended before.
    fn make(&self) -> u32 {
        let again = self.made.swap(true, Ordering::SeqCst);
        self.note(!again && self.told.load(Ordering::SeqCst));
        self.ended.load(Ordering::SeqCst)
    }

    /// How many calls there were. It is wrong where one was not seen before and after, was made twice, or has no end yet.
    pub fn count(&self) -> Result<u32, Trouble> {
        let open = self.told.load(Ordering::SeqCst) || self.made.load(Ordering::SeqCst);
        if open || self.mixed_up.load(Ordering::SeqCst) {
            Err(Trouble::Wrong)
        } else {
            Ok(self.ended.load(Ordering::SeqCst))
        }
    }
}

impl Gate for Calls {
    fn before(&self, _flow: FlowNo, _node: NodeNo) {
        let again = self.told.swap(true, Ordering::SeqCst);
        self.note(!again && !self.made.load(Ordering::SeqCst));
    }

    fn after(&self, _flow: FlowNo, _node: NodeNo) {
        let told = self.told.swap(false, Ordering::SeqCst);
        let made = self.made.swap(false, Ordering::SeqCst);
        self.note(told && made);
        let _ = self.ended.fetch_add(1, Ordering::SeqCst);
    }
}

/// Tells of each call that is made, and refuses one.
#[derive(Drop)]
pub struct Refusing<'a> {
    pub calls: &'a Calls,
    /// The call that is refused, by the number of those before it.
    pub refused: u32,
}

impl<'a> Watcher for Refusing<'a> {
    fn refuses(&self) -> bool {
        self.calls.make() == self.refused
    }
}

/// Drives a core by the loop of the runtimes, with its gate notified, and once more where a call was refused.
pub fn drain_twice<L: Library>(core: &mut Core<L>, calls: &Calls) -> Result<(), Trouble> {
    if drain_by(core, calls).is_ok() {
        return Ok(());
    }
    let _ = calls.count()?;
    Ok(drain_by(core, calls)?)
}
