//! A flow's turn: its next move, with its call made.

ghost use Rattle.std.specs.Prelude.{◌≡◌, ◌<◌, length, IfOk, OnOk, OnErr, IsSome};
ghost use Rattle.flow_core.specs.States.{setup_in, begun_by};
ghost use Rattle.flow_waits.specs.Turns.{TakesTurn};
ghost use Rattle.flow_core.specs.Runs.{LeavesOthers};
ghost use Rattle.flow_waits.specs.Driven.{IsJobOf, MakesCall};

use flow_core::{AtOnce, Core, Gate, Job};
use flux_library::Library;
use flux_model::FlowNo;
use flux_values::Memory;

/// What a flow made of its turn.
#[derive(Clone, Copy)]
pub enum Turn {
    /// Nothing: it has had its `end`.
    Ended,
    /// Nothing: it is in the line of the key that it would take.
    InLine,
    /// The wait at its take.
    Waited,
    /// Its call.
    Called,
    /// Another event.
    Went,
}

/// Lets a flow make its next move. A call is run at once, begun before or not, and the gate is called before and
/// after it.
pub fn take_turn<L: Library, G: Gate>(
    core: &mut Core<L>,
    gate: &G,
    flow: FlowNo,
) -> Result<Turn, Memory>
    requires { flow.0 < length core.old.setup.items }
    ensures ok { IfOk result (TakesTurn (setup_in L.meaning core.old) core.old.entries flow core.new.entries) }
    ensures err { OnErr result (core.new.entries ≡ core.old.entries) }
    ensures others { LeavesOthers core.old core.new flow }
{
    let before = core.journal().entries.len();
    match core.step_at_once(gate, flow)? {
        AtOnce::Ended => Ok(Turn::Ended),
        AtOnce::Waits { .. } => {
            let after = core.journal();
            Ok(if after.entries.len() == before {
                Turn::InLine
            } else {
                Turn::Waited
            })
        }
        AtOnce::Went => Ok(Turn::Went),
        AtOnce::Called => Ok(Turn::Called),
        AtOnce::Calling => {
            call_again(core, gate, flow)?;
            Ok(Turn::Called)
        }
    }
}

/// Runs a call that was begun before, and finishes it.
fn call_again<L: Library, G: Gate>(core: &mut Core<L>, gate: &G, flow: FlowNo) -> Result<(), Memory>
    requires flow { flow.0 < length core.old.setup.items }
    requires begun { IsSome (begun_by core.old flow.0) }
    ensures ok { OnOk result (MakesCall (setup_in L.meaning core.old) core.old.entries flow core.new.entries) }
    ensures err { OnErr result (core.new.entries ≡ core.old.entries) }
    ensures others { LeavesOthers core.old core.new flow }
{
    match core.recall(flow)? {
        Some(job) => call(core, gate, &job),
        None => Ok(()),
    }
}

/// Runs a begun call, and finishes it.
fn call<L: Library, G: Gate>(core: &mut Core<L>, gate: &G, job: &Job<L>) -> Result<(), Memory>
    requires { IsJobOf core.old job.now }
    ensures ok { OnOk result (MakesCall (setup_in L.meaning core.old) core.old.entries job.now.flow core.new.entries) }
    ensures err { OnErr result (core.new.entries ≡ core.old.entries) }
    ensures others { LeavesOthers core.old core.new job.now.flow }
{
    gate.before(job.flow(), job.node());
    let done = job.run(core.alloc());
    gate.after(job.flow(), job.node());
    let _ = core.finish(&done?)?;
    Ok(())
}
