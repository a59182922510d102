//! The scripted runtime.

ghost use Rattle.std.specs.Prelude.{◌≡◌, IfOk, IfErr, OnOk, OnErr};
ghost use Rattle.flow_core.specs.States.{setup_in};
ghost use Rattle.flow_core.specs.Runs.{LeavesOthers, GoesOnLegally, GoesToEnd};
ghost use Rattle.flow_orders.specs.Follow.{IsTurn, IsFollow};

use flow_core::{Core, Gate, Runtime, Stopped};
use flow_waits::{drain_by, take_turn};
use flux_library::Library;
use flux_model::FlowNo;
use flux_values::{List, Memory};
use std::marker::Sync;
use std::sync::Wait;
use std::thread::Threads;

/// Drives a core by a list of flows' numbers.
pub struct Script {
    pub numbers: List<FlowNo>,
}

impl Drop for Script {
    fn drop(self) {
        let Script { numbers } = self;
    }
}

impl Script {
    /// Drives a core to its end, without a handle for threads.
    pub fn drive_alone<L: Library, G: Gate>(
        &mut self,
        core: Core<L>,
        gate: &G,
    ) -> Result<Core<L>, Stopped<L>>
        ensures ok { IfOk result (GoesToEnd L.meaning core) }
        ensures err { IfErr result (λ stopped. GoesOnLegally L.meaning core stopped.core) }
        ensures follow { IfOk result (λ driven. IsFollow (setup_in L.meaning core) core.entries self.old.numbers
            driven.entries) }
        ensures numbers { self.new ≡ self.old }
    {
        let mut core = core;
        match follow(&self.numbers, &mut core, gate) {
            Ok(()) => Ok(core),
            Err(Memory) => Err(Stopped { core }),
        }
    }
}

impl Runtime for Script {
    ghost ready = { λ _. Unit {0} };

    fn drive<L: Library, G: Gate, Rt: Threads + Wait + Sync>(
        &mut self,
        _rt: &Rt,
        core: Core<L>,
        gate: &G,
    ) -> Result<Core<L>, Stopped<L>>
        requires { Unit {0} }
        ensures again { Unit {0} }
        ensures ok { IfOk result (GoesToEnd L.meaning core) }
        ensures err { IfErr result (λ stopped. GoesOnLegally L.meaning core stopped.core) }
        ensures still { OnErr result (self.new ≡ self.old) }
        ensures follow { IfOk result (λ driven. IsFollow (setup_in L.meaning core) core.entries self.old.numbers
            driven.entries) }
        ensures numbers { self.new ≡ self.old }
    {
        self.drive_alone(core, gate)
    }
}

/// The turns of listed flows, and then the others.
fn follow<L: Library, G: Gate>(
    numbers: &List<FlowNo>,
    core: &mut Core<L>,
    gate: &G,
) -> Result<(), Memory>
    ensures ok { OnOk result (IsFollow (setup_in L.meaning core.old) core.old.entries numbers.now core.new.entries) }
    ensures legal { GoesOnLegally L.meaning core.old core.new }
{
    // Asked for what it promises: that the journal is legal.
    let _journal = core.journal();
    for number in numbers.as_slice() {
        give_turn(core, gate, *number)?;
    }
    drain_by(core, gate)
}

/// Lets a flow make its next move, if there is such a flow.
fn give_turn<L: Library, G: Gate>(core: &mut Core<L>, gate: &G, flow: FlowNo) -> Result<(), Memory>
    ensures ok { OnOk result (IsTurn (setup_in L.meaning core.old) core.old.entries flow core.new.entries) }
    ensures err { OnErr result (core.new.entries ≡ core.old.entries) }
    ensures others { LeavesOthers core.old core.new flow }
{
    if flow.0 < core.flows() {
        let _ = take_turn(core, gate, flow)?;
    }
    Ok(())
}
