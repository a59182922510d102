//! A core that threads share.

ghost use Rattle.std.specs.Prelude.{◌≡◌, IfOk, IfErr};
ghost use Rattle.flow_core.specs.Runs.{GoesOn};
ghost use Rattle.flow_shared.specs.Journals.{ArePlacesOf};
ghost use Rattle.flow_shared.specs.Turns.{IsFirstSeat, Wins, IsTurnOf, Joins, IsLast, moved, given, without_places};

use crate::rules::{GivesTurn, Joining, Settling, SharedRule, Splitting, TakesTurn};
use crate::seats::{Held, SharedSeat, SharedTurn};
use crate::views::View;
use atomic_table::{Refused, Table};
use flow_core::{Core, Stopped};
use flux_library::Library;
use std::alloc::Global;
use std::marker::Model;
use std::snapshot::Snapshot;
use std::sync::Wait;
use thread_backoff::Pause;

/// A core that threads take in turn, with one journal for all of them.
pub struct Shared<L: Library> {
    table: Table<Option<Core<L>>, View<L>, Snapshot<Core<L>>, SharedRule<L>, Global>,
}

impl<L: Library> Drop for Shared<L> {
    fn drop(self) {
        let Shared { table } = self;
    }
}

impl<L: Library> Model for Shared<L> {
    ghost use Rattle.std.specs.Prelude.{◌≡◌};
    ghost use Rattle.flow_shared.specs.States.{SharedState, shared_code};

    ghost Value = { SharedState L };

    ghost coded = { shared_code L.code };

    ghost view = { λ s. record {
      id = s.table.shared.table_id;
      base = s.table.shared.key.value;
    } };

    ghost invariant = { λ s. (s.table.shared.table_id.words ≡ 1) × (s.table.shared.table_id.slots ≡ 1) };
}

impl<L: Library> Shared<L> {
    /// A core to share, and its first seat.
    pub fn new(alloc: Global, core: Core<L>) -> Result<(Shared<L>, SharedSeat<L>), Stopped<L>>
        ensures ok { IfOk result (λ made. IsFirstSeat core made.0 made.1) }
        ensures err { IfErr result (λ stopped. stopped.core ≡ core) }
    {
        let Ok(mut slots) = Vec::with_capacity(alloc, 1) else {
            return Err(Stopped { core });
        };
        let base = Snapshot::of(&core);
        slots.push_reserved(Some(core));
        match Table::new(alloc, &[0], slots, &base) {
            Ok((table, seat)) => {
                let shared = Shared { table };
                let known = Snapshot::of(&shared);
                Ok((
                    shared,
                    SharedSeat {
                        seat,
                        shared: known,
                    },
                ))
            }
            Err(Refused { mut slots }) => {
                let Some(Some(core)) = slots.pop() else {
                    unreachable!()
                };
                Err(Stopped { core })
            }
        }
    }

    /// Tries once for the turn.
    pub fn try_turn(&self, seat: SharedSeat<L>) -> Result<SharedTurn<L>, SharedSeat<L>>
        requires { seat.shared ≡ self.now }
        ensures won { IfOk result (Wins seat) }
        ensures lost { IfErr result (λ back. back ≡ moved 1 seat) }
    {
        let SharedSeat { mut seat, shared } = seat;
        let steps = &self.table.shared;
        if steps.compare_exchange::<TakesTurn>(&mut seat, 0, 0, 1) != 0 {
            return Err(SharedSeat { seat, shared });
        }
        let Some(core) = steps.exchange(&mut seat, 0, None) else {
            unreachable!()
        };
        let found = Snapshot::of(&core);
        Ok(SharedTurn {
            core,
            held: Held {
                seat,
                shared,
                found,
            },
        })
    }

    /// Gives the turn back, with the core.
    pub fn give(&self, turn: SharedTurn<L>) -> SharedSeat<L>
        requires shared { turn.held.shared ≡ self.now }
        requires on { GoesOn turn.held.found turn.core }
        ensures seat { result ≡ given turn.held turn.core }
        ensures places { ArePlacesOf result.seen result.places }
    {
        let SharedTurn { core, held } = turn;
        let Held {
            mut seat,
            shared,
            found: _,
        } = held;
        let steps = &self.table.shared;
        drop(steps.exchange(&mut seat, 0, Some(core)));
        steps.store::<GivesTurn>(&mut seat, 0, 0);
        SharedSeat { seat, shared }
    }

    /// Makes two seats of one. The new one has made as many moves and seen as much, and has no places.
    pub fn split(&self, seat: SharedSeat<L>) -> (SharedSeat<L>, SharedSeat<L>)
        requires { seat.shared ≡ self.now }
        ensures { result ≡ (moved 2 seat, without_places (moved 2 seat)) }
    {
        let SharedSeat { mut seat, shared } = seat;
        let other = self.table.shared.split_seat::<Splitting>(&mut seat);
        let known = Snapshot::of(self);
        (
            SharedSeat { seat, shared },
            SharedSeat {
                seat: other,
                shared: known,
            },
        )
    }

    /// Makes one seat of two, which has seen what both had seen and has the places of both.
    pub fn join(&self, into: SharedSeat<L>, other: SharedSeat<L>) -> SharedSeat<L>
        requires into { into.shared ≡ self.now }
        requires other { other.shared ≡ self.now }
        ensures { Joins into other result }
    {
        let SharedSeat { mut seat, shared } = into;
        let SharedSeat {
            seat: other,
            shared: _,
        } = other;
        let steps = &self.table.shared;
        steps.join_seat::<Joining>(&mut seat, other);
        steps.load::<Settling>(&mut seat, 0);
        SharedSeat { seat, shared }
    }
}

impl<L: Library> Shared<L> {
    /// Waits for the turn.
    pub fn turn<R: Wait>(&self, rt: &R, seat: SharedSeat<L>) -> SharedTurn<L>
        requires { seat.shared ≡ self.now }
        ensures { IsTurnOf seat result }
    {
        let mut seat = seat;
        let mut pause = Pause::new();
        for _ in rt.forever() {
            match self.try_turn(seat) {
                Ok(turn) => return turn,
                Err(back) => seat = back,
            }
            pause.rest(rt);
        }
        unreachable!()
    }

    /// Waits for the turn, and takes the core out.
    pub fn close<R: Wait>(self, rt: &R, seat: SharedSeat<L>) -> Core<L>
        requires { seat.shared ≡ self }
        ensures { IsLast seat result }
    {
        // for the proof alone: what the seat keeps of its places
        let _kept = &seat.seat;
        let SharedTurn { core, held } = self.turn(rt, seat);
        let Held {
            seat: _,
            shared: _,
            found: _,
        } = held;
        core
    }
}
