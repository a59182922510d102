//! Groups of flows, each flow with a leaf of its own.

ghost use Rattle.std.specs.Prelude.{◌≡◌, ◌-◌, IfOk, vec_len};
ghost use Rattle.flow_core.specs.Runs.{GoesOn};
ghost use Rattle.flow_turns.specs.Workers.{RunsIn, IsOver};

use crate::groups::{Group, Stage};
use flow_core::{Core, Gate};
use flow_turns::{Next, TurnEnd, Worker, freed_since, give_up, go_on, is_over, share};
use flux_library::Library;
use flux_model::FlowNo;
use flux_values::Memory;
use std::alloc::Global;
use std::marker::{Send, Sync};
use std::sync::Wait;
use std::thread::Threads;

/// So many flows run at once, at most.
const GROUP: u32 = 64;

/// A leaf whose flow waits looks again after so many milliseconds, though its bell wasn't rung.
const LONGEST_SLEEP: u64 = 100;

/// A leaf whose flow waits for one whose leaf has had no turn yet rests so often, at most.
const RESTS_FOR_EXPECTED: u8 = 10;

/// All groups, again and again, until no flow is live or the core is halted. A second round is for flows that waited for one
/// of a later group.
pub fn rounds<L: Library + Send + Sync, G: Gate + Sync, R: Threads + Wait + Sync>(
    rt: &R,
    core: Core<L>,
    gate: &G,
) -> Core<L>
    ensures on { GoesOn core result }
    ensures over { IsOver result }
{
    let mut core = core;
    for _ in rt.forever() {
        if is_over(&core) {
            return core;
        }
        core = groups(rt, core, gate);
    }
    unreachable!()
}

/// Group after group.
fn groups<L: Library + Send + Sync, G: Gate + Sync, R: Threads + Wait + Sync>(
    rt: &R,
    core: Core<L>,
    gate: &G,
) -> Core<L>
    ensures { GoesOn core result }
{
    let flows = core.flows();
    let mut core = core;
    let mut first = 0;
    while first < flows {
        let end = first + (flows - first).min(GROUP);
        core = group(rt, core, first, end, gate);
        first = end;
    }
    core
}

/// A leaf for each flow from `first` up to `end`.
fn leaves(alloc: Global, first: u32, end: u32) -> Result<Vec<Leaf>, Memory>
    ensures { IfOk result (λ leaves. vec_len leaves ≡ end - first) }
{
    let mut leaves = Vec::new(alloc);
    for number in first..end {
        leaves.push(Leaf {
            flow: FlowNo(number),
            rung: 0,
            rests: RESTS_FOR_EXPECTED,
        })?;
    }
    Ok(leaves)
}

/// One group: a leaf for each flow, in threads of their own.
fn group<L: Library + Send + Sync, G: Gate + Sync, R: Threads + Wait + Sync>(
    rt: &R,
    core: Core<L>,
    first: u32,
    end: u32,
    gate: &G,
) -> Core<L>
    ensures { GoesOn core result }
{
    let alloc = core.alloc();
    match (leaves(alloc, first, end), Group::new(alloc, first, end)) {
        (Ok(leaves), Ok(group)) => share(rt, core, &group, leaves, gate),
        _ => give_up(core),
    }
}

/// Lets one flow go on.
#[derive(Clone, Copy, Drop)]
pub struct Leaf {
    flow: FlowNo,
    /// How often its bell had been rung before its last turn.
    rung: u32,
    /// So often more it rests for a leaf that has had no turn.
    rests: u8,
}

impl Leaf {
    /// Whether it rests, since its flow waits for one that can go on before the group is over: one with a leaf in this group
    /// that works, or is expected to.
    fn rests_for(&mut self, group: &Group, blocker: FlowNo) -> bool {
        match group.stage(blocker) {
            Stage::Works => true,
            Stage::Returned => false,
            Stage::Expected => {
                let rests = self.rests > 0;
                self.rests = self.rests.saturating_sub(1);
                rests
            }
        }
    }
}

impl Worker<Group> for Leaf {
    /// It ends where its flow has ended or the core is halted, and where its flow waits for one that can't go on before the
    /// group is over.
    fn turn<L: Library, R: Wait>(&mut self, _rt: &R, group: &Group, core: &mut Core<L>) -> Next<L>
        ensures on { GoesOn core.old core.new }
        ensures runs { RunsIn core.new.setup result }
    {
        let flow = self.flow;
        let Some(place) = group.place(flow) else {
            return Next::Ends;
        };
        if flow.0 >= core.flows() {
            return Next::Ends;
        }
        place.begin();
        self.rung = place.bell.rung();
        let known = core.journal().entries.len();
        let end = go_on(core, flow);
        if wake_freed(group, core, known).is_err() {
            core.halt();
            group.leave(flow);
            return Next::Ends;
        }
        match end {
            TurnEnd::Waits(blocker) if self.rests_for(group, blocker) => Next::Rests,
            TurnEnd::Waits(_) | TurnEnd::Halted => {
                group.leave(flow);
                Next::Ends
            }
            TurnEnd::Ended => Next::Ends,
            TurnEnd::Went => Next::Goes,
            TurnEnd::Calls(job) => Next::Runs(job),
        }
    }

    fn rest<R: Wait>(&self, rt: &R, group: &Group) {
        if let Some(place) = group.place(self.flow) {
            place.bell.sleep(rt, self.rung, LONGEST_SLEEP);
        }
    }
}

/// Wakes the leaves of the flows that the entries from a place on may free.
fn wake_freed<L: Library>(group: &Group, core: &Core<L>, known: usize) -> Result<(), Memory> {
    for flow in freed_since(core, known)? {
        group.wake(flow);
    }
    Ok(())
}
