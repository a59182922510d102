//! The event loop.

ghost use Rattle.std.specs.Prelude.{◌≡◌, ◌<◌, ◌≤◌, List, [], ◌∷◌, ◌++◌, length, IfOk, IfErr, OnOk, OnErr};
ghost use Rattle.flux_model.specs.declared.items.FlowNo.{FlowNo};
ghost use Rattle.flow_model.specs.declared.journals.Entry.{Entry};
ghost use Rattle.flow_model.specs.declared.journals.Event.{Event};
ghost use Rattle.flux_laws.specs.Growth.{is_end};
ghost use Rattle.flow_core.specs.States.{setup_in};
ghost use Rattle.flow_core.specs.Runs.{LeavesOthers, GoesOnLegally, GoesToEnd};
ghost use Rattle.flow_orders.specs.Round.{IsRound};
ghost use Rattle.rt_event.specs.steps.Owners.{Stays, Leads, MakesTurn};

use crate::shifts::drive_with_helpers;
use flow_core::{Core, Gate, Runtime, Stopped};
use flow_model::Event;
use flow_waits::{Candidates, Turn, take_turn};
use flux_library::Library;
use flux_model::FlowNo;
use flux_values::Memory;
use std::marker::{Send, Sync};
use std::sync::Wait;
use std::thread::Threads;

/// Drives a core by an event loop with a number of helpers, from 0 to 16, which run the calls. Without helpers the loop runs
/// them itself.
#[derive(Clone, Copy)]
pub struct EventLoop {
    pub helpers: u8,
    pub ghost few: { helpers ≤ 16 },
}

impl EventLoop {
    /// Drives a core to its end, without a handle for threads: the loop runs all calls itself, as it does without helpers.
    pub fn drive_alone<L: Library, G: Gate>(
        &mut self,
        core: Core<L>,
        gate: &G,
    ) -> Result<Core<L>, Stopped<L>>
        ensures ok { IfOk result (GoesToEnd L.meaning core) }
        ensures err { IfErr result (λ stopped. GoesOnLegally L.meaning core stopped.core) }
        ensures round { IfOk result (λ driven. IsRound (setup_in L.meaning core) core.entries driven.entries) }
        ensures helpers { self.new ≡ self.old }
    {
        let mut core = core;
        match round(&mut core, gate) {
            Ok(()) => Ok(core),
            Err(Memory) => Err(Stopped { core }),
        }
    }

    /// Drives a core to its end, by threads where there are helpers. What a runtime promises, it promises too, for whatever
    /// order the turns of loop and helpers have; the order of the journal, where there are no helpers.
    pub fn drive_by_threads<L: Library + Send + Sync, G: Gate + Sync, R: Threads + Wait + Sync>(
        &mut self,
        rt: &R,
        core: Core<L>,
        gate: &G,
    ) -> Result<Core<L>, Stopped<L>>
        ensures ok { IfOk result (GoesToEnd L.meaning core) }
        ensures err { IfErr result (λ stopped. GoesOnLegally L.meaning core stopped.core) }
        ensures round { IfOk result (λ driven. self.old.helpers ≡ 0
            → IsRound (setup_in L.meaning core) core.entries driven.entries) }
        ensures helpers { self.new ≡ self.old }
    {
        if self.helpers == 0 {
            return self.drive_alone(core, gate);
        }
        drive_with_helpers(rt, core, self.helpers, gate)
    }
}

/// No impl of the trait can start threads: where the event loop is met as a trait's, it drives alone.
impl Runtime for EventLoop {
    ghost ready = { λ _. Unit {0} };

    fn drive<L: Library, G: Gate, Rt: Threads + Wait + Sync>(
        &mut self,
        _rt: &Rt,
        core: Core<L>,
        gate: &G,
    ) -> Result<Core<L>, Stopped<L>>
        requires { Unit {0} }
        ensures again { Unit {0} }
        ensures ok { IfOk result (GoesToEnd L.meaning core) }
        ensures err { IfErr result (λ stopped. GoesOnLegally L.meaning core stopped.core) }
        ensures still { OnErr result (self.new ≡ self.old) }
        ensures round { IfOk result (λ driven. IsRound (setup_in L.meaning core) core.entries driven.entries) }
        ensures helpers { self.new ≡ self.old }
    {
        self.drive_alone(core, gate)
    }
}

/// One owner after another, an entry at a time.
fn round<L: Library, G: Gate>(core: &mut Core<L>, gate: &G) -> Result<(), Memory>
    ensures ok { OnOk result (IsRound (setup_in L.meaning core.old) core.old.entries core.new.entries) }
    ensures legal { GoesOnLegally L.meaning core.old core.new }
{
    // Asked for what it promises: that the journal is legal.
    let _journal = core.journal();
    let mut candidates = Candidates::new(core)?;
    let mut from = 0;
    let mut on_turn = None;
    while let Some(owner) = next_owner(core, &mut candidates, on_turn, from)? {
        let ends = own_turn(core, gate, owner)?;
        from = owner.0 + 1;
        candidates.update(core, from)?;
        on_turn = (!ends).then_some(owner);
    }
    Ok(())
}

/// The flow whose turn it is: the one that is on turn, or else the first that can go on.
fn next_owner<L: Library>(
    core: &Core<L>,
    candidates: &mut Candidates,
    on_turn: Option<FlowNo>,
    from: u32,
) -> Result<Option<FlowNo>, Memory>
    requires { Stays (setup_in L.meaning core.now) core.now.entries candidates.old from on_turn }
    ensures { IfOk result (Leads (setup_in L.meaning core.now) core.now.entries candidates.new from on_turn) }
{
    match on_turn {
        Some(owner) => Ok(Some(owner)),
        None => candidates.first(core, from),
    }
}

/// Whether the last entry is an `end`.
fn last_is_end<L: Library>(core: &Core<L>) -> bool
    ensures { (before : List Entry) (flow : FlowNo) (event : Event)
        → core.now.entries ≡ before ++ record { flow = flow; event = event } ∷ [] → result ≡ is_end event }
{
    let Some(entry) = core.journal().entries.last() else {
        return false;
    };
    matches!(entry.event, Event::End(_))
}

/// Lets a flow make its next move, and says whether its turn is over.
fn own_turn<L: Library, G: Gate>(
    core: &mut Core<L>,
    gate: &G,
    owner: FlowNo,
) -> Result<bool, Memory>
    requires { owner.0 < length core.old.setup.items }
    ensures ok { IfOk result (MakesTurn (setup_in L.meaning core.old) core.old.entries owner core.new.entries) }
    ensures err { OnErr result (core.new.entries ≡ core.old.entries) }
    ensures others { LeavesOthers core.old core.new owner }
{
    match take_turn(core, gate, owner)? {
        Turn::Went => Ok(last_is_end(core)),
        _ => Ok(true),
    }
}
