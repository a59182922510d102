//! Passes: what a thread needs to put and to take.

ghost use Rattle.std.specs.Prelude.{◌↔◌, IsTrue, IsSome};

use crate::queues::FlowQueue;
use crate::views::View;
use crossbeam_queue::Pass;
use std::marker::Model;
use std::snapshot::Snapshot;

/// The right to put into a queue and to take from it, with the number that it holds. It takes no bytes of its own.
#[derive(Drop)]
pub struct QueuePass {
    pub(crate) pass: Pass<u32, View>,
    pub(crate) queue: Snapshot<FlowQueue>,
    pub(crate) held: Option<u32>,
}

impl Model for QueuePass {
    ghost use Rattle.flow_queue.specs.States.{PassState, pass_code};

    ghost Value = { PassState };

    ghost coded = { pass_code };

    ghost use Rattle.flow_queue.specs.Rule.{known_by, moves_of, puts_of, takes_of, IsPassIn};

    ghost view = { λ p. record {
      queue = p.queue.value;
      held = p.held;
      moves = moves_of (known_by p.pass);
      puts = puts_of (known_by p.pass);
      takes = takes_of (known_by p.pass);
    } };

    ghost invariant = { λ p. IsPassIn p.queue.value p.held p.pass };
}

impl QueuePass {
    /// Whether it holds a number.
    pub fn holds(&self) -> bool
        ensures { IsTrue result ↔ IsSome self.now.held }
    {
        self.held.is_some()
    }
}
