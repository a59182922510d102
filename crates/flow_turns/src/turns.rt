//! What a flow does in one turn.

ghost use Rattle.std.specs.Prelude.{◌≡◌, ◌<◌, true, false, length, IsSome, IfOk, MatchBool};
ghost use Rattle.flow_core.specs.States.{begun_by};
ghost use Rattle.flow_turns.specs.Turns.{AddsOwn, ComesTo, IsAnsweredBy, HandsIn, IsOwnCall, TakesAnswer};

use flow_core::{CallDone, Core, Job, Step};
use flux_library::Library;
use flux_model::FlowNo;
use flux_values::Memory;

/// In one turn a flow makes at most so many events.
const EVENTS_A_TURN: u32 = 64;

/// What a flow came to in a turn.
#[derive(Drop)]
pub enum TurnEnd<L: Library> {
    /// It has had its `end`.
    Ended,
    /// Its next take is blocked, and this is the lowest flow that blocks it.
    Waits(FlowNo),
    /// Its call is begun.
    Calls(Job<L>),
    /// It made events, and may go on.
    Went,
    /// Nothing: the core is halted, now or before.
    Halted,
}

/// Lets a flow go on within a turn, unless the core is halted: up to its call, a wait or its end, and by 64 events at
/// most. Want of memory halts the core.
pub fn go_on<L: Library>(core: &mut Core<L>, flow: FlowNo) -> TurnEnd<L>
    requires { flow.0 < length core.old.setup.items }
    ensures comes { ComesTo L.meaning core.old core.new flow result }
    ensures own { AddsOwn core.old core.new flow }
{
    if core.is_halted() {
        return TurnEnd::Halted;
    }
    match step_on(core, flow) {
        Ok(end) => end,
        Err(Memory) => {
            core.halt();
            TurnEnd::Halted
        }
    }
}

/// The same, on a core that isn't halted.
fn step_on<L: Library>(core: &mut Core<L>, flow: FlowNo) -> Result<TurnEnd<L>, Memory>
    requires flow { flow.0 < length core.old.setup.items }
    requires on { core.old.halted ≡ false }
    ensures comes { IfOk result (ComesTo L.meaning core.old core.new flow) }
    ensures own { AddsOwn core.old core.new flow }
{
    for event in 0..EVENTS_A_TURN {
        match core.step(flow)? {
            Step::Ended => return Ok(TurnEnd::Ended),
            Step::Waits { holder, .. } => return Ok(TurnEnd::Waits(holder)),
            Step::Calling => return Ok(TurnEnd::Calls(begun_call(core, flow)?)),
            Step::Job(job) => {
                // Asked for what it promises: that each flow has a place for its begun call.
                let _journal = core.journal();
                return Ok(TurnEnd::Calls(job));
            }
            Step::Went => {}
        }
    }
    Ok(TurnEnd::Went)
}

/// The call that a flow has begun.
fn begun_call<L: Library>(core: &Core<L>, flow: FlowNo) -> Result<Job<L>, Memory>
    requires flow { flow.0 < length core.now.setup.items }
    requires begun { IsSome (begun_by core.now flow.0) }
    ensures { IfOk result (IsOwnCall core.now flow) }
{
    let Some(job) = core.recall(flow)? else {
        unreachable!()
    };
    Ok(job)
}

/// Takes the answer of a flow's call, and says whether the core goes on. A call that wanted memory halts it, and so does want
/// of memory here.
pub fn take_answer<L: Library>(
    core: &mut Core<L>,
    flow: FlowNo,
    made: Result<CallDone<L>, Memory>,
) -> bool
    requires { IfOk made (IsAnsweredBy L.meaning core.old flow) }
    ensures own { AddsOwn core.old core.new flow }
    ensures goes { MatchBool result (TakesAnswer L.meaning core.old core.new flow made)
        (core.new ≡ record core.old { halted = true }) }
{
    let goes = match made {
        Ok(done) => hand_in(core, flow, &done),
        Err(Memory) => false,
    };
    if !goes {
        core.halt();
    }
    goes
}

/// Hands an answer in, and says whether there was memory for it.
fn hand_in<L: Library>(core: &mut Core<L>, flow: FlowNo, done: &CallDone<L>) -> bool
    requires { IsAnsweredBy L.meaning core.old flow done.now }
    ensures own { AddsOwn core.old core.new flow }
    ensures finished { MatchBool result (HandsIn L.meaning core.old core.new flow done.now) (core.new ≡ core.old) }
{
    match core.finish(done) {
        Ok(_) => true,
        Err(Memory) => false,
    }
}
