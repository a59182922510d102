//! Flows that may go on, as far as the loop knows.

ghost use Rattle.std.specs.Prelude.{◌<◌, length, IfOk, IfSome};
ghost use Rattle.std.specs.Bool.{OnTrue};

use flow_core::Core;
use flow_model::Event;
use flux_library::Library;
use flux_model::{FlowNo, Mode};
use flux_table::Waiter;
use flux_values::Memory;
use std::collections::VecDeque;

/// Flows that are to be looked at, first come first. A flow whose call is begun is looked at again once the journal has the call, and
/// one that waits in a line once its key is dropped: so for an entry it takes no look at all flows.
#[derive(Drop)]
pub struct Ready {
    flows: VecDeque<FlowNo>,
    /// So many entries of the journal are known.
    known: usize,
}

/// Whether a flow may make an event: it has not ended, and its call isn't begun.
fn may_go<L: Library>(core: &Core<L>, flow: FlowNo) -> bool
    ensures { OnTrue result (flow.0 < length core.now.setup.items) }
{
    flow.0 < core.flows() && !core.is_ended(flow) && !core.is_calling(flow)
}

impl Ready {
    /// All flows, with the journal as it is.
    pub fn all<L: Library>(core: &Core<L>) -> Result<Ready, Memory> {
        let mut flows = VecDeque::new(core.alloc());
        for flow in 0..core.flows() {
            flows.push_back(FlowNo(flow))?;
        }
        Ok(Ready {
            flows,
            known: core.journal().entries.len(),
        })
    }

    pub fn add(&mut self, flow: FlowNo) -> Result<(), Memory> {
        Ok(self.flows.push_back(flow)?)
    }

    /// The next flow that may make an event, if its next take isn't blocked.
    pub fn next<L: Library>(&mut self, core: &Core<L>) -> Result<Option<FlowNo>, Memory>
        ensures { IfOk result (λ found. IfSome found (λ flow. flow.0 < length core.now.setup.items)) }
    {
        self.learn(core)?;
        while let Some(flow) = self.flows.pop_front() {
            if may_go(core, flow) {
                return Ok(Some(flow));
            }
        }
        Ok(None)
    }

    /// Takes up the flows that new entries of the journal let go on.
    fn learn<L: Library>(&mut self, core: &Core<L>) -> Result<(), Memory> {
        let entries = core.journal().entries.as_slice();
        if self.known >= entries.len() {
            return Ok(());
        }
        for entry in &entries[self.known..] {
            match &entry.event {
                Event::Call(_) => self.add(entry.flow)?,
                Event::Drop(key) => self.add_line(core.line(key.key()))?,
                _ => {}
            }
        }
        self.known = entries.len();
        Ok(())
    }

    /// Takes up the first flows of a line, to the first writer.
    fn add_line(&mut self, line: &[Waiter]) -> Result<(), Memory> {
        for waiter in line {
            self.add(waiter.flow)?;
            if waiter.mode == Mode::Writer {
                break;
            }
        }
        Ok(())
    }
}
