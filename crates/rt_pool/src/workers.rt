//! Workers.

ghost use Rattle.std.specs.Prelude.{◌≡◌, ◌<◌, IfOk, IfSome, vec_len};
ghost use Rattle.flow_core.specs.Runs.{GoesOn};
ghost use Rattle.flow_turns.specs.Workers.{RunsIn, EndsIn};

use crate::desks::Desk;
use flow_core::Core;
use flow_turns::{Bell, Next, TurnEnd, Worker, freed_since, go_on, is_over};
use flux_library::Library;
use flux_model::FlowNo;
use flux_values::Memory;
use std::alloc::Global;
use std::sync::{Mutex, Wait};

/// In one turn a worker lets at most so many flows go on.
const FLOWS_A_TURN: u32 = 8;

/// A worker lets a flow go on in so many turns, at most, before it puts its number back.
const TURNS_IN_A_ROW: u32 = 20;

/// A worker with nothing to do looks again after so many milliseconds, though its bell wasn't rung.
const LONGEST_SLEEP: u64 = 100;

/// What workers share beside the core. The desk is used in the turn alone, so nobody waits for its lock.
#[derive(Drop)]
pub struct Office {
    desk: Mutex<Desk>,
    bell: Bell,
}

impl Office {
    pub fn new(desk: Desk) -> Office {
        Office {
            desk: Mutex::new(desk),
            bell: Bell::new(),
        }
    }
}

/// A flow that a worker lets go on.
#[derive(Clone, Copy, Drop)]
struct Current {
    flow: FlowNo,
    /// In so many turns more.
    turns: u32,
}

/// A worker of the pool.
#[derive(Clone, Copy, Drop)]
pub struct PoolWorker {
    current: Option<Current>,
    /// How often the bell had been rung before the worker's last turn.
    rung: u32,
}

/// So many workers.
pub fn workers(alloc: Global, count: u8) -> Result<Vec<PoolWorker>, Memory>
    ensures { IfOk result (λ workers. vec_len workers ≡ count) }
{
    let mut workers = Vec::new(alloc);
    for _ in 0..count {
        workers.push(PoolWorker {
            current: None,
            rung: 0,
        })?;
    }
    Ok(workers)
}

impl Worker<Office> for PoolWorker {
    /// It ends where no flow is live or the core is halted.
    fn turn<L: Library, R: Wait>(&mut self, rt: &R, office: &Office, core: &mut Core<L>) -> Next<L>
        ensures on { GoesOn core.old core.new }
        ensures runs { RunsIn core.new.setup result }
        ensures ends { EndsIn core.new result }
    {
        self.rung = office.bell.rung();
        let mut desk = office.desk.lock(rt);
        let next = self.advance(rt, &mut desk, core);
        if desk.has_flows() || matches!(next, Next::Ends) {
            office.bell.ring();
        }
        next
    }

    fn rest<R: Wait>(&self, rt: &R, office: &Office) {
        office.bell.sleep(rt, self.rung, LONGEST_SLEEP);
    }
}

impl PoolWorker {
    /// Lets flows go on, one after the other, until one has to give the turn away.
    fn advance<L: Library, R: Wait>(
        &mut self,
        rt: &R,
        desk: &mut Desk,
        core: &mut Core<L>,
    ) -> Next<L>
        ensures on { GoesOn core.old core.new }
        ensures runs { RunsIn core.new.setup result }
        ensures ends { EndsIn core.new result }
    {
        for _flow in 0..FLOWS_A_TURN {
            let Some(flow) = self.next_flow(rt, desk, core.flows()) else {
                return if is_over(core) {
                    Next::Ends
                } else {
                    Next::Rests
                };
            };
            let known = core.journal().entries.len();
            let end = go_on(core, flow);
            if free_since(desk, core, known).is_err() {
                core.halt();
                return Next::Ends;
            }
            match end {
                TurnEnd::Ended => self.current = None,
                TurnEnd::Waits(_) => {
                    desk.park(flow);
                    self.current = None;
                }
                TurnEnd::Calls(job) => return Next::Runs(job),
                TurnEnd::Went => return Next::Goes,
                TurnEnd::Halted => return Next::Ends,
            }
        }
        Next::Goes
    }

    /// The flow that it lets go on: the same as before, for so many turns, or the desk's next.
    fn next_flow<R: Wait>(&mut self, rt: &R, desk: &mut Desk, flows: u32) -> Option<FlowNo>
        ensures { IfSome result (λ flow. flow.0 < flows) }
    {
        if let Some(current) = self.current {
            if current.turns > 0 {
                self.current = Some(Current {
                    flow: current.flow,
                    turns: current.turns - 1,
                });
                return (current.flow.0 < flows).then_some(current.flow);
            }
            desk.put_back(rt, current.flow);
        }
        let flow = desk.take(rt)?;
        self.current = Some(Current {
            flow,
            turns: TURNS_IN_A_ROW,
        });
        (flow.0 < flows).then_some(flow)
    }
}

/// Frees the flows that the entries from a place on may let go on.
fn free_since<L: Library>(desk: &mut Desk, core: &Core<L>, known: usize) -> Result<(), Memory> {
    for flow in freed_since(core, known)? {
        desk.free(flow)?;
    }
    Ok(())
}
