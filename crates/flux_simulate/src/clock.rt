//! What a simulation has come to.

ghost use Rattle.std.specs.Prelude.{◌≡◌, ◌∷◌, ◌++◌, [], OnOk, OnErr};

use crate::processors::Running;
use flow_orders::Run;
use flow_waits::Numbers;
use flux_values::{List, Memory};
use std::alloc::Global;

/// The tick, what was noted so far, and the calls that are begun: those that run, and those that wait.
#[derive(Drop)]
pub struct Clock {
    pub tick: u64,
    /// The ticks of all entries.
    pub at: List<u64>,
    /// The runs that have stopped.
    pub ended: List<Run>,
    /// How many calls can run at once.
    pub processors: u32,
    pub running: Running,
    /// The numbers of the flows whose calls wait for a processor.
    pub waiting: Numbers,
}

impl Clock {
    /// Before anything is done.
    pub fn new(alloc: Global, processors: u32) -> Clock
        ensures { result ≡ record {
          tick = 0;
          at = [];
          ended = [];
          processors = processors;
          running = [];
          waiting = [];
        } }
    {
        Clock {
            tick: 0,
            at: List::new(alloc),
            ended: List::new(alloc),
            processors,
            running: Running::new(alloc),
            waiting: Numbers::new(alloc),
        }
    }

    /// Notes the tick of an entry.
    pub fn note(&mut self) -> Result<(), Memory>
        ensures ok { OnOk result (self.new ≡ record self.old { at = self.old.at ++ self.old.tick ∷ [] }) }
        ensures err { OnErr result (self.new ≡ self.old) }
    {
        self.at.add(self.tick)
    }

    /// Notes the entry of a call, and its run.
    pub fn note_end(&mut self, run: Run) -> Result<(), Memory>
        ensures ok { OnOk result (self.new ≡ record self.old {
          at = self.old.at ++ self.old.tick ∷ [];
          ended = self.old.ended ++ run ∷ [];
        }) }
        ensures processors { self.new.processors ≡ self.old.processors }
    {
        self.note()?;
        self.ended.add(run)
    }
}
