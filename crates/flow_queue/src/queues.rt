//! The queue.

ghost use Rattle.std.specs.Prelude.{◌≡◌, ◌<◌, IsSome, IfOk, IfSome, IfNone};
ghost use Rattle.crossbeam_queue.specs.Passes.{view, IsPassOf, IsSamePass, ruled_capacity};
ghost use Rattle.flow_queue.specs.Calls.{IsFirstPass, PutsBack, TakesFront, WasEmpty, AreSplit};
ghost use Rattle.flow_queue.specs.declared.views.View.TheVariants.{Opening};

use crate::passes::QueuePass;
use crate::rules::{Opens, Puts, QueueRule, Splits, Takes};
use crate::views::View;
use crossbeam_queue::{Pass, RuledArrayQueue};
use flux_model::FlowNo;
use flux_values::Memory;
use std::alloc::Global;
use std::marker::Model;
use std::snapshot::Snapshot;
use std::sync::Wait;

/// The numbers of flows that can be stepped, first in first out. No number is in it twice, nor in it and held.
pub struct FlowQueue {
    queue: RuledArrayQueue<u32, View, QueueRule>,
    flows: u32,
}

impl Drop for FlowQueue {
    fn drop(self) {
        let FlowQueue { queue, flows } = self;
    }
}

impl Model for FlowQueue {
    ghost use Rattle.std.specs.Prelude.{◌≡◌};
    ghost use Rattle.crossbeam_queue.specs.Passes.{ruled_capacity};
    ghost use Rattle.flow_queue.specs.States.{QueueState, queue_code};

    ghost Value = { QueueState };

    ghost coded = { queue_code };

    ghost view = { λ q. record { id = q.queue.table.shared.table_id; flows = q.flows } };

    ghost invariant = { λ q. ruled_capacity q.queue ≡ q.flows };
}

impl FlowQueue {
    /// A queue with the numbers below `flows`, and its first pass.
    pub fn new<R: Wait>(rt: &R, alloc: Global, flows: u32) -> Result<(FlowQueue, QueuePass), Memory>
        requires { 0 < flows }
        ensures { IfOk result (λ made. IsFirstPass flows made.0 made.1) }
    {
        let (queue, mut pass) = RuledArrayQueue::ruled(alloc, flows as usize)?;
        open(rt, &queue, &mut pass, flows);
        let _spare = queue.another::<Opens>(&mut pass);
        let queue = FlowQueue { queue, flows };
        let known = Snapshot::of(&queue);
        Ok((
            queue,
            QueuePass {
                pass,
                queue: known,
                held: None,
            },
        ))
    }

    /// With how many numbers it was opened.
    pub fn flows(&self) -> u32
        ensures { result ≡ self.now.flows }
    {
        self.flows
    }

    /// Puts the number that a pass holds at the back.
    pub fn put<R: Wait>(&self, rt: &R, pass: &mut QueuePass)
        requires queue { pass.old.queue ≡ self.now }
        requires held { IsSome pass.old.held }
        ensures { PutsBack pass.old pass.new }
    {
        let Some(number) = pass.held else {
            unreachable!()
        };
        let Ok(()) = self.queue.push_as::<Puts, R>(rt, &mut pass.pass, number) else {
            unreachable!()
        };
        pass.held = None;
    }

    /// Takes the number at the front, or None where there is none. A number that the pass held before is given up. The
    /// clause of None says that the rule lets the queue hold nothing then; that it did no clause says.
    pub fn take<R: Wait>(&self, rt: &R, pass: &mut QueuePass) -> Option<FlowNo>
        requires { pass.old.queue ≡ self.now }
        ensures some { IfSome result (λ flow. TakesFront pass.old flow pass.new) }
        ensures none { IfNone result (WasEmpty pass.old pass.new) }
    {
        let number = self.queue.pop_as::<Takes, R>(rt, &mut pass.pass)?;
        pass.held = Some(number);
        Some(FlowNo(number))
    }

    /// Makes two passes of one. The new one holds no number.
    pub fn split(&self, pass: QueuePass) -> (QueuePass, QueuePass)
        requires { pass.queue ≡ self.now }
        ensures { AreSplit pass result.0 result.1 }
    {
        let QueuePass {
            mut pass,
            queue,
            held,
        } = pass;
        let other = self.queue.another::<Splits>(&mut pass);
        let known = Snapshot::of(self);
        (
            QueuePass { pass, queue, held },
            QueuePass {
                pass: other,
                queue: known,
                held: None,
            },
        )
    }
}

/// Puts the numbers below `flows`.
fn open<R: Wait>(
    rt: &R,
    queue: &RuledArrayQueue<u32, View, QueueRule>,
    pass: &mut Pass<u32, View>,
    flows: u32,
)
    requires queue { IsPassOf queue.now pass.old }
    requires room { ruled_capacity queue.now ≡ flows }
    requires first { view pass.old ≡ Opening 0 }
    ensures queue { IsSamePass pass.old pass.new }
    ensures opened { view pass.new ≡ Opening flows }
{
    for number in 0..flows {
        let Ok(()) = queue.push_as::<Opens, R>(rt, pass, number) else {
            unreachable!()
        };
    }
}
