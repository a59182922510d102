//! The loop where it has helpers.

ghost use Rattle.std.specs.Prelude.{◌<◌, length, IfSome};
ghost use Rattle.flow_core.specs.Runs.{GoesOn};
ghost use Rattle.rt_event.specs.Calls.{IsLowestCall};
ghost use Rattle.flow_turns.specs.Workers.{RunsIn, EndsIn};

use crate::bells::{Bells, await_bell};
use crate::parts::call_of;
use crate::ready::Ready;
use flow_core::Core;
use flow_turns::{Next, TurnEnd, go_on};
use flux_library::Library;
use flux_model::FlowNo;
use flux_values::Memory;
use std::sync::Wait;

/// In one turn at most so many flows go on.
const FLOWS_A_TURN: u32 = 8;

/// After so many turns in a row in which the journal didn't grow, the loop runs a call itself.
const TURNS_WITHOUT_ENTRY: u32 = 1_000;

/// The lowest flow whose call is begun.
fn lowest_call<L: Library>(core: &Core<L>) -> Option<FlowNo>
    ensures flow { IfSome result (λ flow. flow.0 < length core.now.setup.items) }
    ensures lowest { IsLowestCall core.now result }
{
    for number in 0..core.flows() {
        let flow = FlowNo(number);
        if core.is_calling(flow) {
            return Some(flow);
        }
    }
    None
}

/// The loop beside its helpers. It makes all events but calls, and begins calls.
#[derive(Drop)]
pub struct Lead {
    ready: Ready,
    /// How often its bell had been rung before its last turn.
    rung: u32,
    /// The length of the journal when it was seen to grow last.
    length: usize,
    /// How many more turns without an entry the loop waits for the helpers.
    patience: u32,
}

impl Lead {
    pub fn new<L: Library>(core: &Core<L>) -> Result<Lead, Memory> {
        Ok(Lead {
            ready: Ready::all(core)?,
            rung: 0,
            length: core.journal().entries.len(),
            patience: TURNS_WITHOUT_ENTRY,
        })
    }

    /// A turn: flows go on up to their calls. Where the journal doesn't grow any more, the lowest begun call, once more.
    pub fn turn<L: Library, R: Wait>(
        &mut self,
        rt: &R,
        bells: &Bells,
        core: &mut Core<L>,
    ) -> Next<L>
        ensures on { GoesOn core.old core.new }
        ensures runs { RunsIn core.new.setup result }
        ensures ends { EndsIn core.new result }
    {
        self.rung = bells.lead.rung();
        if self.advance(rt, bells, core).is_err() {
            core.halt();
            return Next::Ends;
        }
        if self.has_grown(core) {
            return Next::Goes;
        }
        if self.waits_on() {
            return Next::Rests;
        }
        match lowest_call(core) {
            Some(flow) => call_of(core, flow),
            None => Next::Rests,
        }
    }

    /// Waits until an answer was handed in, and for a millisecond at most: it counts its turns without an entry.
    pub fn rest<R: Wait>(&self, rt: &R, bells: &Bells) {
        await_bell(rt, &bells.lead, self.rung, 1);
    }

    /// Lets flows that are ready go on.
    fn advance<L: Library, R: Wait>(
        &mut self,
        rt: &R,
        bells: &Bells,
        core: &mut Core<L>,
    ) -> Result<(), Memory>
        ensures { GoesOn core.old core.new }
    {
        for _flow in 0..FLOWS_A_TURN {
            let Some(flow) = self.ready.next(core)? else {
                return Ok(());
            };
            match go_on(core, flow) {
                TurnEnd::Went => self.ready.add(flow)?,
                TurnEnd::Halted => return Err(Memory),
                TurnEnd::Calls(_) => bells.post(rt, flow),
                TurnEnd::Ended | TurnEnd::Waits(_) => {}
            }
        }
        Ok(())
    }

    /// Whether the journal has grown since this was asked last.
    fn has_grown<L: Library>(&mut self, core: &Core<L>) -> bool {
        let length = core.journal().entries.len();
        if length == self.length {
            return false;
        }
        self.length = length;
        self.patience = TURNS_WITHOUT_ENTRY;
        true
    }

    /// Whether the loop still waits for the helpers.
    fn waits_on(&mut self) -> bool {
        if self.patience > 0 {
            self.patience -= 1;
            return true;
        }
        self.patience = TURNS_WITHOUT_ENTRY;
        false
    }
}
