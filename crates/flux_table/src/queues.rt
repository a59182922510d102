//! Waiters in order; the first is mostly taken out without a move of the others.

ghost use Rattle.std.specs.Prelude.{◌≡◌, ◌+◌, ◌++◌, ◌∷◌, [], ◌<◌, ◌≤◌, ◌↔◌, OnOk, OnErr, IsTrue, length, drop, remove};

use crate::locks::Waiter;
use flux_values::Memory;
use std::alloc::Global;
use std::marker::Model;

/// Waiters in order, first come first. Those that have left from the front still take room, as much as those that are
/// there at most.
#[derive(Drop)]
pub struct Queue {
    all: Vec<Waiter>,
    gone: usize,
}

impl Model for Queue {
    ghost use Rattle.std.specs.Prelude.{◌+◌, ◌≤◌, List, length, drop};
    ghost use Rattle.flux_table.specs.declared.locks.Waiter.{Waiter};

    ghost Value = { List Waiter };

    ghost view = { λ q. drop q.gone q.all.items };

    ghost invariant = { λ q. q.gone + q.gone ≤ length q.all.items };
}

impl Queue {
    /// No waiters.
    pub fn new(alloc: Global) -> Queue
        ensures { result ≡ [] }
    {
        Queue {
            all: Vec::new(alloc),
            gone: 0,
        }
    }

    /// Whether no waiters are left.
    pub fn is_empty(&self) -> bool
        ensures { IsTrue result ↔ (self.now ≡ []) }
    {
        self.as_slice().is_empty()
    }

    /// The waiters that are left.
    pub fn as_slice(&self) -> &[Waiter]
        ensures { result.now ≡ self.now }
    {
        &self.all[self.gone..]
    }

    /// Puts a waiter at the end.
    pub fn push(&mut self, waiter: Waiter) -> Result<(), Memory>
        ensures ok { OnOk result (self.new ≡ self.old ++ waiter ∷ []) }
        ensures err { OnErr result (self.new ≡ self.old) }
    {
        self.all.push(waiter)?;
        Ok(())
    }

    /// Takes one out. Those after it move up; where it is the first, only now and then.
    pub fn remove(&mut self, place: usize)
        requires { place < length self.old }
        ensures { self.new ≡ remove self.old place }
    {
        if place == 0 {
            self.gone += 1;
        } else {
            let _ = self.all.remove(self.gone + place);
        }
        close_up(&mut self.all, &mut self.gone);
    }
}

/// Moves those that are left up to the front, where more are gone.
fn close_up(all: &mut Vec<Waiter>, gone: &mut usize)
    requires { gone.old ≤ length all.old.items }
    ensures left { drop gone.new all.new.items ≡ drop gone.old all.old.items }
    ensures room { gone.new + gone.new ≤ length all.new.items }
{
    let left = all.len() - *gone;
    if *gone > left {
        all.rotate_left(*gone);
        all.truncate(left);
        *gone = 0;
    }
}
