//! Helpers, which run calls.

ghost use Rattle.std.specs.Prelude.{◌<◌};
ghost use Rattle.flow_core.specs.Runs.{GoesOn};
ghost use Rattle.flow_turns.specs.Workers.{RunsIn, EndsIn};

use crate::bells::{Bells, await_bell};
use crate::parts::call_of;
use flow_core::Core;
use flow_turns::Next;
use flux_library::Library;
use std::sync::Wait;

/// A helper with nothing to do looks again after so many milliseconds, though its bell wasn't rung.
const LONGEST_SLEEP: u64 = 100;

/// A helper. It serves each flow whose number, modulo the number of helpers, is its own one.
#[derive(Clone, Copy, Drop)]
pub struct Helper {
    number: u32,
    /// How often its bell had been rung before its last turn.
    rung: u32,
    /// Whether it runs a call after its last turn, and so hands an answer in before the next.
    runs: bool,
}

impl Helper {
    /// The helper of a number.
    pub fn new(number: u8) -> Helper {
        Helper {
            number: u32::from(number),
            rung: 0,
            runs: false,
        }
    }

    /// A turn: the lowest begun call of the flows that it serves, once more.
    pub fn turn<L: Library, R: Wait>(
        &mut self,
        rt: &R,
        bells: &Bells,
        core: &mut Core<L>,
    ) -> Next<L>
        ensures on { GoesOn core.old core.new }
        ensures runs { RunsIn core.new.setup result }
        ensures ends { EndsIn core.new result }
    {
        if self.runs {
            bells.lead.ring();
        }
        let next = self.next_call(rt, bells, core);
        self.runs = matches!(next, Next::Runs(_));
        next
    }

    fn next_call<L: Library, R: Wait>(
        &mut self,
        rt: &R,
        bells: &Bells,
        core: &mut Core<L>,
    ) -> Next<L>
        ensures on { GoesOn core.old core.new }
        ensures runs { RunsIn core.new.setup result }
        ensures ends { EndsIn core.new result }
    {
        let Some(board) = bells.board(self.number) else {
            return Next::Rests;
        };
        self.rung = board.bell.rung();
        match board.take_lowest(rt) {
            Some(flow) if flow.0 < core.flows() => call_of(core, flow),
            _ => Next::Rests,
        }
    }

    /// Waits until a call is begun that it serves.
    pub fn rest<R: Wait>(&self, rt: &R, bells: &Bells) {
        if let Some(board) = bells.board(self.number) {
            await_bell(rt, &board.bell, self.rung, LONGEST_SLEEP);
        }
    }
}
