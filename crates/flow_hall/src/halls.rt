//! The hall.

ghost use Rattle.std.specs.Prelude.{◌≡◌, IfOk, IfErr};
ghost use Rattle.flow_hall.specs.Turns.{IsFirstSeat, Wins, IsTurnOf, moved, given};
ghost use Rattle.flow_core.specs.Runs.{GoesOn};

use crate::rules::{GivesTurn, HallRule, Joining, Splitting, TakesTurn};
use crate::seats::{HallSeat, HallTurn, Held};
use crate::views::View;
use atomic_table::{Refused, Table};
use flow_core::{Core, Stopped};
use flux_library::Library;
use std::alloc::Global;
use std::marker::Model;
use std::snapshot::Snapshot;
use std::sync::Wait;
use thread_backoff::Pause;

/// A core that threads take in turn.
pub struct Hall<L: Library> {
    table: Table<Option<Core<L>>, View<L>, Snapshot<Core<L>>, HallRule<L>, Global>,
}

impl<L: Library> Drop for Hall<L> {
    fn drop(self) {
        let Hall { table } = self;
    }
}

impl<L: Library> Model for Hall<L> {
    ghost use Rattle.std.specs.Prelude.{◌≡◌};
    ghost use Rattle.flow_hall.specs.States.{HallState, hall_code};

    ghost Value = { HallState L };

    ghost coded = { hall_code L.code };

    ghost view = { λ h. record {
      id = h.table.shared.table_id;
      base = h.table.shared.key.value;
    } };

    ghost invariant = { λ h. (h.table.shared.table_id.words ≡ 1) × (h.table.shared.table_id.slots ≡ 1) };
}

impl<L: Library> Hall<L> {
    /// A hall with a core, and its first seat.
    pub fn new(alloc: Global, core: Core<L>) -> Result<(Hall<L>, HallSeat<L>), Stopped<L>>
        ensures ok { IfOk result (λ made. IsFirstSeat core made.0 made.1) }
        ensures err { IfErr result (λ stopped. stopped.core ≡ core) }
    {
        let Ok(mut slots) = Vec::with_capacity(alloc, 1) else {
            return Err(Stopped { core });
        };
        let base = Snapshot::of(&core);
        slots.push_reserved(Some(core));
        match Table::new(alloc, &[0], slots, &base) {
            Ok((table, seat)) => {
                let hall = Hall { table };
                let known = Snapshot::of(&hall);
                Ok((hall, HallSeat { seat, hall: known }))
            }
            Err(Refused { mut slots }) => {
                let Some(Some(core)) = slots.pop() else {
                    unreachable!()
                };
                Err(Stopped { core })
            }
        }
    }

    /// Tries once for the turn.
    pub fn try_turn(&self, seat: HallSeat<L>) -> Result<HallTurn<L>, HallSeat<L>>
        requires { seat.hall ≡ self.now }
        ensures won { IfOk result (Wins seat) }
        ensures lost { IfErr result (λ back. back ≡ moved 1 seat) }
    {
        let HallSeat { mut seat, hall } = seat;
        let shared = &self.table.shared;
        if shared.compare_exchange::<TakesTurn>(&mut seat, 0, 0, 1) != 0 {
            return Err(HallSeat { seat, hall });
        }
        let Some(core) = shared.exchange(&mut seat, 0, None) else {
            unreachable!()
        };
        let found = Snapshot::of(&core);
        Ok(HallTurn {
            core,
            held: Held { seat, hall, found },
        })
    }

    /// Gives the turn back, with the core.
    pub fn give(&self, turn: HallTurn<L>) -> HallSeat<L>
        requires hall { turn.held.hall ≡ self.now }
        requires on { GoesOn turn.held.found turn.core }
        ensures { result ≡ given turn.held }
    {
        let HallTurn { core, held } = turn;
        let Held {
            mut seat,
            hall,
            found: _,
        } = held;
        let shared = &self.table.shared;
        drop(shared.exchange(&mut seat, 0, Some(core)));
        shared.store::<GivesTurn>(&mut seat, 0, 0);
        HallSeat { seat, hall }
    }

    /// Makes two seats of one. The new one has made as many moves.
    pub fn split(&self, seat: HallSeat<L>) -> (HallSeat<L>, HallSeat<L>)
        requires { seat.hall ≡ self.now }
        ensures { result ≡ (moved 2 seat, moved 2 seat) }
    {
        let HallSeat { mut seat, hall } = seat;
        let other = self.table.shared.split_seat::<Splitting>(&mut seat);
        let known = Snapshot::of(self);
        (
            HallSeat { seat, hall },
            HallSeat {
                seat: other,
                hall: known,
            },
        )
    }

    /// Makes one seat of two.
    pub fn join(&self, into: HallSeat<L>, other: HallSeat<L>) -> HallSeat<L>
        requires into { into.hall ≡ self.now }
        requires other { other.hall ≡ self.now }
        ensures { result ≡ moved 1 into }
    {
        let HallSeat { mut seat, hall } = into;
        let HallSeat {
            seat: other,
            hall: _,
        } = other;
        self.table.shared.join_seat::<Joining>(&mut seat, other);
        HallSeat { seat, hall }
    }
}

impl<L: Library> Hall<L> {
    /// Waits for the turn.
    pub fn turn<R: Wait>(&self, rt: &R, seat: HallSeat<L>) -> HallTurn<L>
        requires { seat.hall ≡ self.now }
        ensures { IsTurnOf seat result }
    {
        let mut seat = seat;
        let mut pause = Pause::for_turn();
        for _ in rt.forever() {
            match self.try_turn(seat) {
                Ok(turn) => return turn,
                Err(back) => seat = back,
            }
            pause.rest(rt);
        }
        unreachable!()
    }

    /// Waits for the turn, and takes the core out.
    pub fn close<R: Wait>(self, rt: &R, seat: HallSeat<L>) -> Core<L>
        requires { seat.hall ≡ self }
        ensures { GoesOn self.base result }
    {
        let HallTurn { core, held } = self.turn(rt, seat);
        let Held {
            seat: _,
            hall: _,
            found: _,
        } = held;
        core
    }
}
