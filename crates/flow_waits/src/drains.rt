//! The lowest flow that can go on, and how all flows come to their ends by it.

ghost use Rattle.std.specs.Prelude.{ℕ, MatchOption, OnOk};
ghost use Rattle.flow_model.specs.Events.{IsLive};
ghost use Rattle.flux_laws.specs.Going.{IsLowest};
ghost use Rattle.flow_core.specs.States.{setup_in};
ghost use Rattle.flow_core.specs.Runs.{GoesOnLegally};
ghost use Rattle.flow_orders.specs.Drains.{DrainsTo};

use crate::candidates::Candidates;
use crate::turns::take_turn;
use flow_core::{Core, Gate, OpenGate};
use flux_library::Library;
use flux_model::FlowNo;
use flux_values::Memory;

/// The lowest-numbered flow that has not ended and isn't blocked. There is one wherever a flow is live.
pub fn enabled<L: Library>(core: &Core<L>) -> Option<FlowNo>
    ensures { MatchOption result ((flow : ℕ) → IsLive (setup_in L.meaning core.now) core.now.entries flow → ⊥)
        (λ lowest. IsLowest (setup_in L.meaning core.now) core.now.entries lowest.0) }
{
    // Asked for what it promises: that the journal is legal.
    let _journal = core.journal();
    for number in 0..core.flows() {
        let flow = FlowNo(number);
        if !core.is_ended(flow) && !core.blocked(flow) {
            return Some(flow);
        }
    }
    None
}

/// Lets the flow that `enabled` names make its next event, again and again, until none is live. Calls that are begun
/// already are run too.
pub fn drain<L: Library>(core: &mut Core<L>) -> Result<(), Memory>
    ensures ok { OnOk result (DrainsTo (setup_in L.meaning core.old) core.old.entries core.new.entries) }
    ensures legal { GoesOnLegally L.meaning core.old core.new }
{
    drain_by(core, &OpenGate)
}

/// `drain`, with a gate that is called before and after each call of a node.
pub fn drain_by<L: Library, G: Gate>(core: &mut Core<L>, gate: &G) -> Result<(), Memory>
    ensures ok { OnOk result (DrainsTo (setup_in L.meaning core.old) core.old.entries core.new.entries) }
    ensures legal { GoesOnLegally L.meaning core.old core.new }
{
    // Asked for what it promises: that the journal is legal.
    let _journal = core.journal();
    let mut candidates = Candidates::new(core)?;
    while let Some(flow) = candidates.first(core, 0)? {
        let _ = take_turn(core, gate, flow)?;
        candidates.update(core, 0)?;
    }
    Ok(())
}
