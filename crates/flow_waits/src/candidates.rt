//! Candidates: the flows that are looked at for one that can go on.
//!
//! Flows that are found blocked are no longer looked at, until an entry may have freed them. Those that are in a
//! line are found there; of those that don't, the first at a key in a mode is enough, since they are blocked alike.
//! So what is done after each entry doesn't grow with the number of flows.

ghost use Rattle.std.specs.Prelude.{◌≡◌, ℕ, ◌||◌, List, IfOk, OnOk, MatchOption};
ghost use Rattle.flow_model.specs.Events.{IsLive};
ghost use Rattle.flow_core.specs.States.{setup_in};
ghost use Rattle.flow_waits.specs.steps.Waking.{has};
ghost use Rattle.flow_waits.specs.steps.Aside.{beside};
ghost use Rattle.flow_waits.specs.steps.Covers.{Covers, IsChosen, Lags, StayAwake, FallsAsleep, Parks, WakesFirst, Wakes, served_of, WakesLine};

mod idle;

use crate::numbers::Numbers;
use crate::parked_flows::ParkedFlows;
use flow_core::{BlockedTake, Core, Readiness};
use flow_model::{Event, Key};
use flux_library::Library;
use flux_model::{FlowNo, Mode};
use flux_table::Waiter;
use flux_values::Memory;
pub use idle::Idlers;
use std::alloc::Global;
use std::marker::Model;

/// The flows of a core that are looked at, and those that needn't be. After want of memory it is of no more use.
pub struct Candidates {
    ready: Numbers,
    readers: ParkedFlows,
    writers: ParkedFlows,
}

impl Drop for Candidates {
    fn drop(self) {
        let Candidates {
            ready,
            readers,
            writers,
        } = self;
    }
}

impl Model for Candidates {
    ghost use Rattle.flow_waits.specs.steps.Covers.{Pools};

    ghost Value = { Pools };

    ghost view = { λ c. record { ready = c.ready; readers = c.readers; writers = c.writers } };
}

impl Candidates {
    /// Looks at each flow.
    pub fn new<L: Library>(core: &Core<L>) -> Result<Candidates, Memory>
        ensures { IfOk result (λ pools. (from : ℕ)
            → Covers (setup_in L.meaning core.now) core.now.entries pools from) }
    {
        let mut ready = Numbers::new(core.alloc());
        for flow in 0..core.flows() {
            ready.add(flow)?;
        }
        Ok(Candidates {
            ready,
            readers: ParkedFlows::new(core.alloc()),
            writers: ParkedFlows::new(core.alloc()),
        })
    }

    /// The first flow, from a number on upward and then from 0 on, that has not ended and isn't blocked.
    pub fn first<L: Library>(&mut self, core: &Core<L>, from: u32) -> Result<Option<FlowNo>, Memory>
        requires { Covers (setup_in L.meaning core.now) core.now.entries self.old from }
        ensures first { IfOk result (λ found. MatchOption found
            ((flow : ℕ) → IsLive (setup_in L.meaning core.now) core.now.entries flow → ⊥)
            (λ flow. IsChosen (setup_in L.meaning core.now) core.now.entries self.new from flow.0)) }
        ensures covers { OnOk result (Covers (setup_in L.meaning core.now) core.now.entries self.new from) }
    {
        // Asked for what it promises: that the journal is legal.
        let _journal = core.journal();
        while let Some(number) = self.ready.first_from(from) {
            let flow = FlowNo(number);
            match core.readiness(flow) {
                Readiness::Ended => self.ready.remove(number),
                Readiness::Blocked(stop) => self.park(number, stop)?,
                Readiness::Free => return Ok(Some(flow)),
            }
        }
        Ok(None)
    }

    /// Takes in the last entry, which is of a flow that is looked at.
    pub fn update<L: Library>(&mut self, core: &Core<L>, from: u32) -> Result<(), Memory>
        requires { Lags (setup_in L.meaning core.now) core.now.entries self.old from }
        ensures covers { OnOk result (Covers (setup_in L.meaning core.now) core.now.entries self.new from) }
        ensures ready { OnOk result (StayAwake (setup_in L.meaning core.now) core.now.entries self.old self.new) }
    {
        self.follow(core, from)
    }

    /// Looks at the flows that the last entry may have freed, and no longer at the flow of a wait. Others may be beside
    /// them.
    fn follow<L: Library>(&mut self, core: &Core<L>, from: u32) -> Result<(), Memory>
        ensures covers { (aside : List ℕ)
            → Lags (setup_in L.meaning core.now) core.now.entries (beside self.old aside) from
            → OnOk result (Covers (setup_in L.meaning core.now) core.now.entries (beside self.new aside) from) }
        ensures ready { (aside : List ℕ)
            → Lags (setup_in L.meaning core.now) core.now.entries (beside self.old aside) from
            → OnOk result (StayAwake (setup_in L.meaning core.now) core.now.entries self.old self.new) }
    {
        let Some(entry) = core.journal().entries.last() else {
            return Ok(());
        };
        match &entry.event {
            Event::Take(key, mode) => self.wake(key.key(), *mode, from),
            Event::Drop(key) => {
                let key = key.key();
                self.wake(key, Mode::Reader, from)?;
                self.wake(key, Mode::Writer, from)?;
                self.wake_line(core.line(key))
            }
            Event::Wait(_, _) => {
                self.pass_over(entry.flow.0);
                Ok(())
            }
            _ => Ok(()),
        }
    }

    /// No longer looks at a flow that is in a line.
    fn pass_over(&mut self, flow: u32)
        ensures { FallsAsleep self.old self.new flow }
    {
        self.ready.remove(flow);
    }

    /// No longer looks at a flow that is blocked.
    fn park(&mut self, flow: u32, stop: BlockedTake) -> Result<(), Memory>
        ensures ok { OnOk result (Parks self.old self.new flow stop) }
    {
        if !stop.stands {
            match stop.mode {
                Mode::Reader => self.readers.add(stop.key, flow)?,
                Mode::Writer => self.writers.add(stop.key, flow)?,
            }
        }
        self.ready.remove(flow);
        Ok(())
    }

    /// Looks at the first flow that is parked at a key in a mode.
    fn wake(&mut self, key: Key, mode: Mode, from: u32) -> Result<(), Memory>
        ensures { OnOk result (Wakes self.old self.new key mode from) }
    {
        match mode {
            Mode::Reader => wake_first(&mut self.ready, &mut self.readers, key, from),
            Mode::Writer => wake_first(&mut self.ready, &mut self.writers, key, from),
        }
    }

    /// Looks at the first flows of a line, to the first writer.
    fn wake_line(&mut self, line: &[Waiter]) -> Result<(), Memory>
        ensures { OnOk result (WakesLine self.old self.new line.now) }
    {
        for waiter in line {
            self.ready.add(waiter.flow.0)?;
            if waiter.mode == Mode::Writer {
                return Ok(());
            }
        }
        Ok(())
    }
}

/// Looks at the first flow that is parked at a key, which is parked no longer.
fn wake_first(
    ready: &mut Numbers,
    parked: &mut ParkedFlows,
    key: Key,
    from: u32,
) -> Result<(), Memory>
    ensures { OnOk result (WakesFirst ready.old ready.new parked.old parked.new key from) }
{
    let Some(flow) = parked.first_from(key, from) else {
        return Ok(());
    };
    ready.add(flow)?;
    parked.remove(key, flow);
    Ok(())
}
