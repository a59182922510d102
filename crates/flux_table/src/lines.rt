//! The line of a key: who waits there, first come first, with a set of the readers and one of the writers, in which
//! the lowest of them is found.

ghost use Rattle.std.specs.Prelude.{◌≡◌, ◌++◌, ◌∷◌, [], ◌↔◌, ◌==◌, List, OnOk, OnErr, IsTrue, IsFalse};
ghost use Rattle.std.specs.List.{position};
ghost use Rattle.flux_table.specs.declared.locks.Waiter.{Waiter};
ghost use Rattle.flux_table.specs.Locks.{StandsNowhere};
ghost use Rattle.flux_table.specs.Blockers.{StandsAgainst, IsLowestOf, IsEither, line_before};
ghost use Rattle.flux_table.specs.Changes.{line_without};
ghost use Rattle.flux_table.specs.Lines.{has, HasThose, IsKept};

use crate::locks::Waiter;
use crate::queues::Queue;
use flux_model::{FlowNo, Mode, conflict};
use flux_values::Memory;
use std::alloc::Global;
use std::collections::BTreeSet;
use std::marker::Model;

/// Those that wait for a key, first come first. Each flow waits there once, and is also in one of two sets, that of
/// the readers or that of the writers, so that the lowest is found without a walk.
#[derive(Drop)]
pub struct Line {
    order: Queue,
    readers: BTreeSet<FlowNo>,
    writers: BTreeSet<FlowNo>,
}

impl Model for Line {
    ghost use Rattle.std.specs.Prelude.{List};
    ghost use Rattle.flux_table.specs.declared.locks.Waiter.{Waiter};
    ghost use Rattle.flux_table.specs.Lines.{IsKept};

    ghost Value = { List Waiter };

    ghost view = { λ l. l.order };

    ghost invariant = { λ l. IsKept l.order l.readers l.writers };
}

impl Line {
    /// No flow waits.
    pub fn new(alloc: Global) -> Line
        ensures { result ≡ [] }
    {
        Line {
            order: Queue::new(alloc),
            readers: BTreeSet::new(alloc),
            writers: BTreeSet::new(alloc),
        }
    }

    /// Whether no flow waits.
    pub fn is_empty(&self) -> bool
        ensures { IsTrue result ↔ (self.now ≡ []) }
    {
        self.order.is_empty()
    }

    /// The waiters in order.
    pub fn waiters(&self) -> &[Waiter]
        ensures { result.now ≡ self.now }
    {
        self.order.as_slice()
    }

    /// Puts a flow at the end.
    pub fn push(&mut self, waiter: Waiter) -> Result<(), Memory>
        requires { StandsNowhere self.old waiter.flow.0 }
        ensures ok { OnOk result (self.new ≡ self.old ++ waiter ∷ []) }
        ensures err { OnErr result (self.new ≡ self.old) }
    {
        match waiter.mode {
            Mode::Reader => push_with(&mut self.order, &mut self.readers, waiter),
            Mode::Writer => push_with(&mut self.order, &mut self.writers, waiter),
        }
    }

    /// Takes a flow out, where it waits there.
    pub fn leave(&mut self, flow: FlowNo)
        ensures { self.new ≡ line_without self.old flow.0 }
    {
        if self.order.is_empty() || !take_out(&mut self.readers, &mut self.writers, flow) {
            return;
        }
        if let Some(place) = place_of(self.order.as_slice(), flow) {
            self.order.remove(place);
        }
    }

    /// The lowest-numbered flow in conflict with a mode that waits before a flow, or in all of the line. Only for a
    /// flow that waits there after others is the line walked, from its front up to the flow.
    pub fn lowest_against(&self, flow: FlowNo, mode: Mode) -> Option<FlowNo>
        ensures { IsLowestOf (λ other. StandsAgainst (line_before self.now flow.0) other mode) result }
    {
        let line = self.order.as_slice();
        if line.first()?.flow == flow {
            return None;
        }
        if self.stands(flow) {
            return stander_against(line, flow, mode);
        }
        self.lowest_of_all(mode)
    }

    /// Whether a flow waits there.
    fn stands(&self, flow: FlowNo) -> bool
        ensures { IsFalse result ↔ StandsNowhere self.now flow.0 }
    {
        self.writers.contains(&flow) || self.readers.contains(&flow)
    }

    /// The lowest-numbered flow in conflict with a mode that waits anywhere there.
    fn lowest_of_all(&self, mode: Mode) -> Option<FlowNo>
        ensures { IsLowestOf (λ other. StandsAgainst self.now other mode) result }
    {
        match mode {
            Mode::Reader => lowest_of(&self.writers),
            Mode::Writer => lower(lowest_of(&self.readers), lowest_of(&self.writers)),
        }
    }
}

/// The lower-numbered of two flows.
pub(crate) fn lower(a: Option<FlowNo>, b: Option<FlowNo>) -> Option<FlowNo>
    ensures { IsLowestOf (IsEither a b) result }
{
    match (a, b) {
        (Some(a), Some(b)) => Some(if b < a { b } else { a }),
        (Some(a), None) => Some(a),
        (None, b) => b,
    }
}

/// The lowest-numbered flow in conflict with a mode that waits before a flow, or in all of the line.
fn stander_against(line: &[Waiter], flow: FlowNo, mode: Mode) -> Option<FlowNo>
    ensures { IsLowestOf (λ other. StandsAgainst (line_before line.now flow.0) other mode) result }
{
    let mut lowest = None;
    for waiter in line {
        if waiter.flow == flow {
            return lowest;
        }
        if conflict(waiter.mode, mode) {
            lowest = lower(lowest, Some(waiter.flow));
        }
    }
    lowest
}

/// The first place of a flow in a line.
fn place_of(line: &[Waiter], flow: FlowNo) -> Option<usize>
    ensures { result ≡ position (λ waiter. waiter.flow.0 == flow.0) line.now }
{
    line.iter().position(|waiter| waiter.flow == flow)
}

/// The lowest-numbered flow of a set.
fn lowest_of(flows: &BTreeSet<FlowNo>) -> Option<FlowNo>
    ensures { IsLowestOf (λ flow. IsTrue (has flows.now flow)) result }
{
    flows.first().copied()
}

/// Puts a flow at the end of a line, and into the set of the flows that wait there in its mode.
fn push_with(line: &mut Queue, flows: &mut BTreeSet<FlowNo>, waiter: Waiter) -> Result<(), Memory>
    requires nowhere { StandsNowhere line.old waiter.flow.0 }
    requires flows { HasThose flows.old line.old waiter.mode }
    ensures ok { OnOk result (line.new ≡ line.old ++ waiter ∷ []) }
    ensures err { OnErr result (line.new ≡ line.old) }
    ensures flows { HasThose flows.new line.new waiter.mode }
{
    flows.insert(waiter.flow)?;
    match line.push(waiter) {
        Ok(()) => Ok(()),
        Err(refused) => {
            let _ = flows.remove(&waiter.flow);
            Err(refused)
        }
    }
}

/// Removes a flow that is no longer in a line from the set that has it, and answers whether one had it.
fn take_out(readers: &mut BTreeSet<FlowNo>, writers: &mut BTreeSet<FlowNo>, flow: FlowNo) -> bool
    ensures stands { (line : List Waiter) → IsKept line readers.old writers.old
        → IsFalse result ↔ StandsNowhere line flow.0 }
    ensures kept { (line : List Waiter) → IsKept line readers.old writers.old
        → IsKept (line_without line flow.0) readers.new writers.new }
{
    writers.remove(&flow) || readers.remove(&flow)
}
