//! The parts of a drive with helpers.

ghost use Rattle.std.specs.Prelude.{◌≡◌, ◌+◌, ◌<◌, IfOk, length, vec_len};
ghost use Rattle.flow_core.specs.Runs.{GoesOn};
ghost use Rattle.flow_turns.specs.Workers.{RunsIn, RunsOwn, EndsIn};

use crate::bells::Bells;
use crate::helpers::Helper;
use crate::leads::Lead;
use flow_core::Core;
use flow_turns::{Next, Worker, is_over};
use flux_library::Library;
use flux_model::FlowNo;
use flux_values::Memory;
use std::sync::Wait;

/// The loop, or a helper.
#[derive(Drop)]
pub enum Part {
    Lead(Lead),
    Helper(Helper),
}

impl Worker<Bells> for Part {
    /// It ends where no flow is live or the core is halted.
    fn turn<L: Library, R: Wait>(&mut self, rt: &R, bells: &Bells, core: &mut Core<L>) -> Next<L>
        ensures on { GoesOn core.old core.new }
        ensures runs { RunsIn core.new.setup result }
        ensures ends { EndsIn core.new result }
    {
        if is_over(core) {
            bells.ring_all();
            return Next::Ends;
        }
        match self {
            Part::Lead(lead) => lead.turn(rt, bells, core),
            Part::Helper(helper) => helper.turn(rt, bells, core),
        }
    }

    fn rest<R: Wait>(&self, rt: &R, bells: &Bells) {
        match self {
            Part::Lead(lead) => lead.rest(rt, bells),
            Part::Helper(helper) => helper.rest(rt, bells),
        }
    }
}

/// The call that a flow has begun, once more; a call that was finished meanwhile is passed over. Want of memory halts the core.
pub fn call_of<L: Library>(core: &mut Core<L>, flow: FlowNo) -> Next<L>
    requires { flow.0 < length core.old.setup.items }
    ensures on { GoesOn core.old core.new }
    ensures runs { RunsIn core.new.setup result }
    ensures own { RunsOwn core.new flow result }
    ensures ends { EndsIn core.new result }
{
    match core.recall(flow) {
        Ok(Some(job)) => Next::Runs(job),
        Ok(None) => Next::Goes,
        Err(Memory) => {
            core.halt();
            Next::Ends
        }
    }
}

/// So many helpers, and after them the loop: where no thread can be made, the last one is run first, and drives all flows.
pub fn parts<L: Library>(core: &Core<L>, helpers: u8) -> Result<Vec<Part>, Memory>
    ensures { IfOk result (λ parts. vec_len parts ≡ helpers + 1) }
{
    let mut parts = Vec::new(core.alloc());
    for number in 0..helpers {
        parts.push(Part::Helper(Helper::new(number)))?;
    }
    parts.push(Part::Lead(Lead::new(core)?))?;
    Ok(parts)
}
