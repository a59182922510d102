//! The moves of flows, on the fields of a state.

ghost use Rattle.std.specs.Prelude.{◌≡◌, ◌<◌, ℕ, false, length, OnOk, OnErr, Some, slice_get};
ghost use Rattle.flow_model.specs.declared.journals.Event.TheVariants as events;
ghost use Rattle.flow_model.specs.Waits.{Blocks};
ghost use Rattle.flow_state.specs.declared.places.Place.{Place};
ghost use Rattle.flux_laws.specs.Growth.{is_end};
ghost use Rattle.flux_laws.specs.Moves.{MayStand};
ghost use Rattle.flow_state.specs.States.{setup_at};
ghost use Rattle.flow_state.specs.Moves.{AddsEvent, AddsWait};
ghost use Rattle.flow_state.specs.steps.Places.{IsQuiet, IsEventComing};
ghost use Rattle.flow_state.specs.steps.Fields.{state_of, plans_of, AreFields};

use crate::fields::Fields;
use crate::takes::take_on;
use flow_model::{Entry, Event, KeptKey, Key, Outcome};
use flux_library::Library;
use flux_model::{FlowNo, Mode};
use flux_values::Memory;

impl<L: Library> Fields<L> {
    /// Makes a flow's next event, which changes no keys.
    #[inline(always)]
    pub fn go(&mut self, flow: FlowNo, event: Event) -> Result<(), Memory>
        requires fields { AreFields L.meaning self.old }
        requires coming { IsEventComing (setup_at L.meaning (state_of self.old)) (plans_of self.old)
            self.old.places.items flow.0 event }
        requires quiet { IsQuiet event }
        requires goes_on { is_end event ≡ false }
        ensures fields { AreFields L.meaning self.new }
        ensures ok { OnOk result
            (AddsEvent L.meaning (state_of self.old) (state_of self.new) flow event) }
        ensures err { OnErr result (state_of self.new ≡ state_of self.old) }
    {
        let place = &mut self.places[flow.0 as usize];
        self.setup.advance(flow, &mut place.local)?;
        self.made.add(&Entry { flow, event });
        Ok(())
    }

    /// Makes a flow's `end`.
    pub fn end(&mut self, flow: FlowNo, outcome: Outcome) -> Result<(), Memory>
        requires fields { AreFields L.meaning self.old }
        requires coming { IsEventComing (setup_at L.meaning (state_of self.old)) (plans_of self.old)
            self.old.places.items flow.0 (events.End outcome) }
        ensures fields { AreFields L.meaning self.new }
        ensures ok { OnOk result
            (AddsEvent L.meaning (state_of self.old) (state_of self.new) flow (events.End outcome)) }
        ensures err { OnErr result (state_of self.new ≡ state_of self.old) }
    {
        let place = &mut self.places[flow.0 as usize];
        self.setup.advance(flow, &mut place.local)?;
        self.live -= 1;
        self.made.add(&Entry {
            flow,
            event: Event::End(outcome),
        });
        Ok(())
    }

    /// Makes a flow's drop of a key.
    #[inline(always)]
    pub fn release(&mut self, flow: FlowNo, key: Key) -> Result<(), Memory>
        requires fields { AreFields L.meaning self.old }
        requires coming { IsEventComing (setup_at L.meaning (state_of self.old)) (plans_of self.old)
            self.old.places.items flow.0 (events.Drop key) }
        ensures fields { AreFields L.meaning self.new }
        ensures ok { OnOk result
            (AddsEvent L.meaning (state_of self.old) (state_of self.new) flow (events.Drop key)) }
        ensures err { OnErr result (state_of self.new ≡ state_of self.old) }
    {
        let place = &mut self.places[flow.0 as usize];
        self.setup.advance(flow, &mut place.local)?;
        self.table.release(flow, key);
        self.made.add(&Entry {
            flow,
            event: Event::Drop(KeptKey::new(key)),
        });
        Ok(())
    }

    /// Makes a flow's take of a key, which no flow blocks.
    #[inline(always)]
    pub fn acquire(&mut self, flow: FlowNo, key: Key, mode: Mode) -> Result<(), Memory>
        requires fields { AreFields L.meaning self.old }
        requires coming { IsEventComing (setup_at L.meaning (state_of self.old)) (plans_of self.old)
            self.old.places.items flow.0 (events.Take key mode) }
        requires free { (other : ℕ) → Blocks self.old.made other flow.0 key mode → ⊥ }
        ensures fields { AreFields L.meaning self.new }
        ensures ok { OnOk result
            (AddsEvent L.meaning (state_of self.old) (state_of self.new) flow (events.Take key mode)) }
        ensures err { OnErr result (state_of self.new ≡ state_of self.old) }
    {
        if self.places[flow.0 as usize].stands {
            self.acquire_from_line(flow, key, mode)
        } else {
            self.acquire_at_once(flow, key, mode)
        }
    }

    /// The same for a flow that is in the key's line. Its place is changed last, since leaving a line can't be undone.
    fn acquire_from_line(&mut self, flow: FlowNo, key: Key, mode: Mode) -> Result<(), Memory>
        requires fields { AreFields L.meaning self.old }
        requires coming { IsEventComing (setup_at L.meaning (state_of self.old)) (plans_of self.old)
            self.old.places.items flow.0 (events.Take key mode) }
        requires free { (other : ℕ) → Blocks self.old.made other flow.0 key mode → ⊥ }
        ensures fields { AreFields L.meaning self.new }
        ensures ok { OnOk result
            (AddsEvent L.meaning (state_of self.old) (state_of self.new) flow (events.Take key mode)) }
        ensures err { OnErr result (state_of self.new ≡ state_of self.old) }
    {
        let place = &mut self.places[flow.0 as usize];
        let mut ahead = place.local.copy()?;
        self.setup.advance(flow, &mut ahead)?;
        self.table.take(flow, key, mode)?;
        place.local = ahead;
        place.stands = false;
        self.made.add(&Entry {
            flow,
            event: Event::Take(KeptKey::new(key), mode),
        });
        Ok(())
    }

    /// The same for a flow that waits nowhere.
    #[inline(always)]
    fn acquire_at_once(&mut self, flow: FlowNo, key: Key, mode: Mode) -> Result<(), Memory>
        requires fields { AreFields L.meaning self.old }
        requires coming { IsEventComing (setup_at L.meaning (state_of self.old)) (plans_of self.old)
            self.old.places.items flow.0 (events.Take key mode) }
        requires idle { (place : Place) → slice_get self.old.places.items flow.0 ≡ Some place
            → place.stands ≡ false }
        requires free { (other : ℕ) → Blocks self.old.made other flow.0 key mode → ⊥ }
        ensures fields { AreFields L.meaning self.new }
        ensures ok { OnOk result
            (AddsEvent L.meaning (state_of self.old) (state_of self.new) flow (events.Take key mode)) }
        ensures err { OnErr result (state_of self.new ≡ state_of self.old) }
    {
        let place = &mut self.places[flow.0 as usize];
        take_on(
            &self.setup,
            &mut self.table,
            &mut place.local,
            flow,
            key,
            mode,
        )?;
        self.made.add(&Entry {
            flow,
            event: Event::Take(KeptKey::new(key), mode),
        });
        Ok(())
    }

    /// Lets a flow wait at the key of its next take.
    pub fn wait(&mut self, flow: FlowNo, key: Key, mode: Mode) -> Result<(), Memory>
        requires fields { AreFields L.meaning self.old }
        requires flow { flow.0 < length self.old.setup.items }
        requires may { MayStand (setup_at L.meaning (state_of self.old)) self.old.made flow key mode }
        ensures fields { AreFields L.meaning self.new }
        ensures ok { OnOk result
            (AddsWait L.meaning (state_of self.old) (state_of self.new) flow key mode) }
        ensures err { OnErr result (state_of self.new ≡ state_of self.old) }
    {
        let place = &mut self.places[flow.0 as usize];
        self.table.wait(flow, key, mode)?;
        place.stands = true;
        self.made.add(&Entry {
            flow,
            event: Event::Wait(KeptKey::new(key), mode),
        });
        Ok(())
    }
}
