//! The table of all keys.

ghost use Rattle.std.specs.Prelude.{◌≡◌, [], IfOk, OnOk, OnErr, IsSome, option_map};
ghost use Rattle.flux_table.specs.Tables.{holders_of, lines_of};
ghost use Rattle.flux_table.specs.Blockers.{Blocks, IsHeldAgainst, IsAhead, IsLowestOf, MayTake, MayWait};
ghost use Rattle.flux_table.specs.Changes.{Takes, Waits, Releases, blocker_in, Follows};

use crate::locks::{Lock, Waiter};
use flow_model::Key;
use flux_model::{FlowNo, Mode};
use flux_values::Memory;
use std::alloc::Global;
use std::collections::BTreeMap;
use std::marker::Model;

/// What a try answers: the flow got the key, or another flow is before it.
#[derive(Clone, Copy, PartialEq, Eq)]
pub enum Taken {
    Got,
    Busy { holder: FlowNo },
}

/// Who holds each key, and who waits for it. A key is kept as long as a flow does either, and no longer.
pub struct Table {
    locks: BTreeMap<Key, Lock>,
    alloc: Global,
}

impl Drop for Table {
    fn drop(self) {
        let Table { locks, alloc } = self;
    }
}

impl Model for Table {
    ghost use Rattle.flux_table.specs.Tables.{Locks, AreInUse};

    ghost Value = { Locks };

    ghost view = { λ t. t.locks.entries };

    ghost invariant = { λ t. AreInUse t.locks.entries };
}

impl Table {
    /// No flow holds a key or waits for one.
    pub fn new(alloc: Global) -> Table
        ensures { result ≡ [] }
    {
        Table {
            locks: BTreeMap::new(alloc),
            alloc,
        }
    }

    /// Lets a flow take a key, or names the lowest-numbered flow that blocks it.
    pub fn try_take(&mut self, flow: FlowNo, key: Key, mode: Mode) -> Result<Taken, Memory>
        requires { MayTake (holders_of self.old) (lines_of self.old) flow.0 key mode }
        ensures answer { IfOk result (λ taken. IsLowestOf (λ other. Blocks (holders_of self.old key)
            (lines_of self.old key) other flow.0 mode) (blocker_in taken)) }
        ensures change { IfOk result (λ taken. Follows taken self.old self.new flow.0 key mode) }
        ensures err { OnErr result (self.new ≡ self.old) }
    {
        if let Some(holder) = self.holder(flow, key, mode) {
            return Ok(Taken::Busy { holder });
        }
        self.take(flow, key, mode)?;
        Ok(Taken::Got)
    }

    /// Puts a flow at the end of a key's line.
    pub fn wait(&mut self, flow: FlowNo, key: Key, mode: Mode) -> Result<(), Memory>
        requires { MayWait (holders_of self.old) (lines_of self.old) flow.0 key }
        ensures ok { OnOk result (Waits self.old self.new flow key mode) }
        ensures err { OnErr result (self.new ≡ self.old) }
    {
        match self.locks.get_mut(&key) {
            Some(lock) => lock.wait(flow, mode),
            None => {
                let mut lock = Lock::new(self.alloc);
                lock.wait(flow, mode)?;
                self.locks.insert(key, lock)?;
                Ok(())
            }
        }
    }

    /// Ends one take of a key by a flow. A flow that has none left doesn't hold the key.
    pub fn release(&mut self, flow: FlowNo, key: Key)
        requires { IsSome (holders_of self.old key flow.0) }
        ensures { Releases self.old self.new flow.0 key }
    {
        let Some(lock) = self.locks.get_mut(&key) else {
            return;
        };
        lock.release(flow);
        if lock.is_idle() {
            drop(self.locks.remove(&key));
        }
    }

    /// How a flow holds a key: the greatest mode of its takes that aren't released.
    pub fn holds(&self, flow: FlowNo, key: Key) -> Option<Mode>
        ensures { result ≡ option_map (λ held. held.mode) (holders_of self.now key flow.0) }
    {
        Some(self.locks.get(&key)?.held_by(flow)?.mode)
    }

    /// The lowest-numbered flow that blocks a flow from a key, which `try_take` would name.
    pub fn holder(&self, flow: FlowNo, key: Key, mode: Mode) -> Option<FlowNo>
        requires { MayTake (holders_of self.now) (lines_of self.now) flow.0 key mode }
        ensures { IsLowestOf (λ other. Blocks (holders_of self.now key) (lines_of self.now key) other flow.0 mode)
            result }
    {
        self.locks.get(&key)?.blocker(flow, mode)
    }

    /// The lowest-numbered flow that holds a key in conflict, where this flow doesn't hold it.
    pub fn held_against(&self, flow: FlowNo, key: Key, mode: Mode) -> Option<FlowNo>
        ensures { IsLowestOf (λ other. IsHeldAgainst (holders_of self.now key) other flow.0 mode) result }
    {
        self.locks.get(&key)?.held_against(flow, mode)
    }

    /// The lowest-numbered flow that waits in a key's line in conflict, ahead of this flow.
    pub fn ahead(&self, flow: FlowNo, key: Key, mode: Mode) -> Option<FlowNo>
        ensures { IsLowestOf (λ other.
            IsAhead (holders_of self.now key) (lines_of self.now key) other flow.0 mode) result }
    {
        self.locks.get(&key)?.ahead(flow, mode)
    }

    /// The flows that wait for a key, first come first.
    pub fn line(&self, key: Key) -> &[Waiter]
        ensures { result.now ≡ lines_of self.now key }
    {
        match self.locks.get(&key) {
            Some(lock) => lock.line(),
            None => &[],
        }
    }

    /// Lets a flow take a key from which no other flow blocks it.
    pub fn take(&mut self, flow: FlowNo, key: Key, mode: Mode) -> Result<(), Memory>
        requires may { MayTake (holders_of self.old) (lines_of self.old) flow.0 key mode }
        requires free { IsLowestOf (λ other. Blocks (holders_of self.old key) (lines_of self.old key) other flow.0
            mode) None }
        ensures ok { OnOk result (Takes self.old self.new flow.0 key mode) }
        ensures err { OnErr result (self.new ≡ self.old) }
    {
        match self.locks.get_mut(&key) {
            Some(lock) => lock.take(flow, mode),
            None => {
                let mut lock = Lock::new(self.alloc);
                lock.take(flow, mode)?;
                self.locks.insert(key, lock)?;
                Ok(())
            }
        }
    }
}
