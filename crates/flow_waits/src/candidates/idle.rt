//! The first flow that can go on, for a loop whose calls are run elsewhere: flows whose calls are begun are set aside until
//! these are finished. So a look doesn't grow with the number of calls that are begun.

ghost use Rattle.std.specs.Prelude.{◌≡◌, ℕ, IfOk, OnOk, MatchOption};
ghost use Rattle.flow_core.specs.States.{setup_in};
ghost use Rattle.flow_waits.specs.Idle.{AllAreBlocked};
ghost use Rattle.flow_waits.specs.steps.Covers.{Covers, Lags};
ghost use Rattle.flow_waits.specs.steps.Aside.{beside, AreAside, IsIdleChosen, LooksAgain};

use super::Candidates;
use crate::numbers::Numbers;
use flow_core::Core;
use flux_library::Library;
use flux_model::FlowNo;
use flux_values::Memory;
use std::marker::Model;

/// Candidates, and beside them flows whose calls are begun. After want of memory they are of no more use.
pub struct Idlers {
    candidates: Candidates,
    aside: Numbers,
}

impl Drop for Idlers {
    fn drop(self) {
        let Idlers { candidates, aside } = self;
    }
}

impl Model for Idlers {
    ghost use Rattle.flow_waits.specs.steps.Aside.{Parted};

    ghost Value = { Parted };

    ghost view = { λ i. record { pools = i.candidates; aside = i.aside } };
}

impl Idlers {
    /// Looks at each flow.
    pub fn new<L: Library>(core: &Core<L>) -> Result<Idlers, Memory>
        ensures { IfOk result (λ parted. (from : ℕ) → AreAside L.meaning core.now parted.pools parted.aside from) }
    {
        Ok(Idlers {
            candidates: Candidates::new(core)?,
            aside: Numbers::new(core.alloc()),
        })
    }

    /// The first flow, from a number on upward and then from 0 on, that has not ended, isn't blocked and has no begun
    /// call.
    pub fn first<L: Library>(&mut self, core: &Core<L>, from: u32) -> Result<Option<FlowNo>, Memory>
        requires { AreAside L.meaning core.now self.old.pools self.old.aside from }
        ensures first { IfOk result (λ found. MatchOption found (AllAreBlocked L.meaning core.now)
            (IsIdleChosen L.meaning core.now (beside self.new.pools self.new.aside) from)) }
        ensures aside { OnOk result (AreAside L.meaning core.now self.new.pools self.new.aside from) }
    {
        self.candidates.first_beside(core, from, &mut self.aside)
    }

    /// Takes in the last entry, which is of a flow that is looked at.
    pub fn update<L: Library>(&mut self, core: &Core<L>, from: u32) -> Result<(), Memory>
        requires { Lags (setup_in L.meaning core.now) core.now.entries (beside self.old.pools self.old.aside) from }
        ensures covers { OnOk result (Covers (setup_in L.meaning core.now) core.now.entries
            (beside self.new.pools self.new.aside) from) }
        ensures same { self.new.aside ≡ self.old.aside }
    {
        self.candidates.follow(core, from)
    }

    /// Looks again at a flow whose call was finished.
    pub fn look_again(&mut self, flow: FlowNo) -> Result<(), Memory>
        ensures { OnOk result (LooksAgain self.old self.new flow.0) }
    {
        self.candidates.ready.add(flow.0)?;
        self.aside.remove(flow.0);
        Ok(())
    }
}

impl Candidates {
    /// The first flow that has not ended, isn't blocked and has no begun call. Those that are passed over since their calls
    /// are begun are set aside.
    fn first_beside<L: Library>(
        &mut self,
        core: &Core<L>,
        from: u32,
        aside: &mut Numbers,
    ) -> Result<Option<FlowNo>, Memory>
        requires { AreAside L.meaning core.now self.old aside.old from }
        ensures first { IfOk result (λ found. MatchOption found (AllAreBlocked L.meaning core.now)
            (IsIdleChosen L.meaning core.now (beside self.new aside.new) from)) }
        ensures aside { OnOk result (AreAside L.meaning core.now self.new aside.new from) }
    {
        // Asked for what it promises: that the journal is legal, and begun calls are next.
        let _journal = core.journal();
        while let Some(number) = self.ready.first_from(from) {
            let flow = FlowNo(number);
            if core.is_ended(flow) {
                self.ready.remove(number);
                continue;
            }
            if core.is_calling(flow) {
                aside.add(number)?;
                self.ready.remove(number);
                continue;
            }
            match core.blocked_take(flow) {
                Some(stop) => self.park(number, stop)?,
                None => return Ok(Some(flow)),
            }
        }
        Ok(None)
    }
}
