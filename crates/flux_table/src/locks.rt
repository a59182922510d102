//! One key: the flows that hold it, and the line of those that wait.

ghost use Rattle.std.specs.Prelude.{◌≡◌, ◌++◌, ◌∷◌, [], ◌↔◌, IfOk, OnOk, OnErr, Some, None, IsTrue};
ghost use Rattle.flux_table.specs.Locks.{held_by, StandsNowhere};
ghost use Rattle.flux_table.specs.Blockers.{Blocks, HoldsAgainst, IsHeldAgainst, IsAhead, IsLowestOf};
ghost use Rattle.flux_table.specs.Changes.{one_more, one_less, with_held, line_without};

use crate::lines::{Line, lower};
use flux_model::{FlowNo, Mode, conflict};
use flux_values::Memory;
use std::alloc::Global;
use std::collections::BTreeMap;
use std::marker::Model;

/// How a flow holds a key: in the greatest mode of its takes that aren't released, and how many these are.
#[derive(Clone, Copy, PartialEq, Eq)]
pub struct Held {
    pub mode: Mode,
    pub count: u64,
}

/// A flow in a line, with the mode that it waits for.
#[derive(Clone, Copy, PartialEq, Eq)]
pub struct Waiter {
    pub flow: FlowNo,
    pub mode: Mode,
}

/// The holders of a key, no two of them in conflict, and its line, first come first. Each flow waits there once, and
/// no holder does.
#[derive(Drop)]
pub struct Lock {
    holders: BTreeMap<FlowNo, Held>,
    line: Line,
}

impl Model for Lock {
    ghost use Rattle.flux_table.specs.Locks.{LockState, IsOrderly, held_by};

    ghost Value = { LockState };

    ghost view = { λ l. record { holders = l.holders.entries; line = l.line } };

    ghost invariant = { λ l. IsOrderly (held_by l.holders.entries) l.line };
}

impl Lock {
    /// No holders and an empty line.
    pub fn new(alloc: Global) -> Lock
        ensures { result ≡ record { holders = []; line = [] } }
    {
        Lock {
            holders: BTreeMap::new(alloc),
            line: Line::new(alloc),
        }
    }

    /// How a flow holds the key.
    pub fn held_by(&self, flow: FlowNo) -> Option<Held>
        ensures { result ≡ held_by self.now.holders flow.0 }
    {
        self.holders.get(&flow).copied()
    }

    /// Whether no flow holds the key or waits for it.
    pub fn is_idle(&self) -> bool
        ensures { IsTrue result ↔ (self.now ≡ record { holders = []; line = [] }) }
    {
        self.holders.is_empty() && self.line.is_empty()
    }

    /// The flows that wait, first come first.
    pub fn line(&self) -> &[Waiter]
        ensures { result.now ≡ self.now.line }
    {
        self.line.waiters()
    }

    /// The lowest-numbered flow that blocks a flow from the key in a mode.
    pub fn blocker(&self, flow: FlowNo, mode: Mode) -> Option<FlowNo>
        ensures { IsLowestOf (λ other. Blocks (held_by self.now.holders) self.now.line other flow.0 mode) result }
    {
        match self.holders.get(&flow) {
            Some(_) => None,
            None => lower(
                self.holder_against(mode),
                self.line.lowest_against(flow, mode),
            ),
        }
    }

    /// The lowest-numbered holder in conflict with a mode, where this flow doesn't hold the key.
    pub fn held_against(&self, flow: FlowNo, mode: Mode) -> Option<FlowNo>
        ensures { IsLowestOf (λ other. IsHeldAgainst (held_by self.now.holders) other flow.0 mode) result }
    {
        match self.holders.get(&flow) {
            Some(_) => None,
            None => self.holder_against(mode),
        }
    }

    /// The lowest-numbered flow in conflict with a mode that waits ahead of a flow.
    pub fn ahead(&self, flow: FlowNo, mode: Mode) -> Option<FlowNo>
        ensures { IsLowestOf (λ other.
            IsAhead (held_by self.now.holders) self.now.line other flow.0 mode) result }
    {
        match self.holders.get(&flow) {
            Some(_) => None,
            None => self.line.lowest_against(flow, mode),
        }
    }

    /// The lowest-numbered holder in conflict with a mode: where there is one, all holders are.
    fn holder_against(&self, mode: Mode) -> Option<FlowNo>
        ensures { IsLowestOf (λ other. HoldsAgainst (held_by self.now.holders) other mode) result }
    {
        let (flow, held) = self.holders.first_key_value()?;
        if conflict(held.mode, mode) {
            Some(*flow)
        } else {
            None
        }
    }
}

impl Lock {
    /// The flow gets the key: it is taken out of the line, and holds the key once more.
    pub fn take(&mut self, flow: FlowNo, mode: Mode) -> Result<(), Memory>
        requires { IsLowestOf (λ other. Blocks (held_by self.old.holders) self.old.line other flow.0 mode) None }
        ensures holders { OnOk result (held_by self.new.holders ≡ with_held (held_by self.old.holders) flow.0
            (Some (one_more (held_by self.old.holders flow.0) mode))) }
        ensures line { OnOk result (self.new.line ≡ line_without self.old.line flow.0) }
        ensures err { OnErr result (self.new ≡ self.old) }
    {
        let held = more(self.held_by(flow), mode)?;
        self.holders.insert(flow, held)?;
        self.line.leave(flow);
        Ok(())
    }

    /// The flow is at the end of the line.
    pub fn wait(&mut self, flow: FlowNo, mode: Mode) -> Result<(), Memory>
        requires free { held_by self.old.holders flow.0 ≡ None }
        requires stands { StandsNowhere self.old.line flow.0 }
        ensures holders { self.new.holders ≡ self.old.holders }
        ensures line { OnOk result (self.new.line ≡ self.old.line ++ record { flow = flow; mode = mode } ∷ []) }
        ensures err { OnErr result (self.new ≡ self.old) }
    {
        self.line.push(Waiter { flow, mode })
    }

    /// The flow holds the key once less.
    pub fn release(&mut self, flow: FlowNo)
        ensures holders { held_by self.new.holders ≡ with_held (held_by self.old.holders) flow.0
            (one_less (held_by self.old.holders flow.0)) }
        ensures line { self.new.line ≡ self.old.line }
    {
        match fewer(self.held_by(flow)) {
            Some(fewer) => {
                if let Some(held) = self.holders.get_mut(&flow) {
                    *held = fewer;
                }
            }
            None => {
                let _ = self.holders.remove(&flow);
            }
        }
    }
}

/// One take more.
fn more(held: Option<Held>, mode: Mode) -> Result<Held, Memory>
    ensures { IfOk result (λ more. more ≡ one_more held mode) }
{
    match held {
        Some(held) => Ok(Held {
            mode: held.mode,
            count: held.count.checked_add(1).ok_or(Memory)?,
        }),
        None => Ok(Held { mode, count: 1 }),
    }
}

/// One take less, or none.
fn fewer(held: Option<Held>) -> Option<Held>
    ensures { result ≡ one_less held }
{
    match held {
        Some(held) if held.count > 1 => Some(Held {
            mode: held.mode,
            count: held.count - 1,
        }),
        _ => None,
    }
}
