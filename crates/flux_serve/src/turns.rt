//! What a flow does in its worker's turn.

ghost use Rattle.std.specs.Prelude.{◌≡◌, ◌<◌, length};
ghost use Rattle.flow_core.specs.Runs.{GoesOn};
ghost use Rattle.flux_serve.specs.steps.Turns.{LeadsTo};

use crate::stages::Stage;
use flow_core::{Core, Job};
use flow_turns::{TurnEnd, go_on};
use flux_batches::copy_of_reply;
use flux_library::Library;
use flux_model::FlowNo;
use flux_values::Memory;
use std::alloc::Global;

/// What a flow's turn leads to.
#[derive(Drop)]
pub enum Next<L: Library> {
    /// Its call is run outside the turn.
    Runs(Job<L>),
    /// It has its `end`, and this reply is written.
    Replies(Vec<u8>),
    Stands(Stage),
}

/// A flow's turn. Want of memory halts the core.
pub fn go<L: Library>(alloc: Global, core: &mut Core<L>, flow: FlowNo) -> Next<L>
    ensures on { GoesOn core.old core.new }
    ensures next { LeadsTo core.new flow result }
{
    if flow.0 >= core.flows() {
        return Next::Stands(Stage::Halted);
    }
    match go_on(core, flow) {
        TurnEnd::Calls(job) => Next::Runs(job),
        TurnEnd::Halted => Next::Stands(Stage::Halted),
        TurnEnd::Waits(_) => Next::Stands(Stage::Waits),
        TurnEnd::Ended | TurnEnd::Went => reply_of_ended(alloc, core, flow),
    }
}

/// The reply of a flow, if it has its `end`.
fn reply_of_ended<L: Library>(alloc: Global, core: &mut Core<L>, flow: FlowNo) -> Next<L>
    requires { flow.0 < length core.old.setup.items }
    ensures on { GoesOn core.old core.new }
    ensures next { LeadsTo core.new flow result }
{
    if !core.is_ended(flow) {
        return Next::Stands(Stage::Went);
    }
    match copy_of_reply(alloc, core.journal().entries.as_slice(), flow) {
        Ok(reply) => Next::Replies(reply),
        Err(Memory) => {
            core.halt();
            Next::Stands(Stage::Halted)
        }
    }
}
