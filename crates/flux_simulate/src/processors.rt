//! The calls that run on processors.

ghost use Rattle.std.specs.Prelude.{◌≡◌, ◌<◌, ◌∷◌, ◌++◌, [], length, OnOk, OnErr, MatchOption, IsTrue, ◌↔◌};
ghost use Rattle.flux_simulate.specs.steps.Changes.{StopsBefore, IsFirstOf, TakesNext, TakesDue};

use flow_orders::Run;
use flux_values::Memory;
use std::alloc::Global;
use std::marker::Model;

/// Runs in no order, seen as their list.
#[derive(Drop)]
pub struct Running {
    runs: Vec<Run>,
}

impl Model for Running {
    ghost use Rattle.std.specs.Prelude.{List};
    ghost use Rattle.flow_orders.specs.declared.runs.Run.{Run};

    ghost Value = { List Run };

    ghost view = { λ r. r.runs.items };
}

/// Whether a run stops before another, or with it and is of a lower flow.
fn stops_before(one: &Run, other: &Run) -> bool
    ensures { IsTrue result ↔ StopsBefore one.now other.now }
{
    one.stop < other.stop || (one.stop == other.stop && one.flow.0 < other.flow.0)
}

/// The place of the run that stops first; of those that stop then, the one of the lowest flow.
fn first_to_stop(runs: &[Run]) -> usize
    requires { 0 < length runs.now }
    ensures { IsFirstOf runs.now (length runs.now) result }
{
    let mut first = 0;
    for place in 1..runs.len() {
        if stops_before(&runs[place], &runs[first]) {
            first = place;
        }
    }
    first
}

impl Running {
    pub fn new(alloc: Global) -> Running
        ensures { result ≡ [] }
    {
        Running {
            runs: Vec::new(alloc),
        }
    }

    pub fn len(&self) -> usize
        ensures { result ≡ length self.now }
    {
        self.runs.len()
    }

    pub fn add(&mut self, run: Run) -> Result<(), Memory>
        ensures ok { OnOk result (self.new ≡ self.old ++ run ∷ []) }
        ensures err { OnErr result (self.new ≡ self.old) }
    {
        self.runs.push(run)?;
        Ok(())
    }

    /// Takes out the run that stops first; of those that stop then, the one of the lowest flow.
    pub fn take_next(&mut self) -> Option<Run>
        ensures { MatchOption result ((self.old ≡ []) × (self.new ≡ [])) (TakesNext self.old self.new) }
    {
        if self.runs.is_empty() {
            return None;
        }
        let place = first_to_stop(self.runs.as_slice());
        Some(self.runs.remove(place))
    }

    /// The same, where that run stops by a tick.
    pub fn take_due(&mut self, tick: u64) -> Option<Run>
        ensures { TakesDue self.old self.new tick result }
    {
        if self.runs.is_empty() {
            return None;
        }
        let place = first_to_stop(self.runs.as_slice());
        if self.runs[place].stop > tick {
            return None;
        }
        Some(self.runs.remove(place))
    }
}
