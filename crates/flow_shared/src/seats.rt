//! Seats at a shared core, and the turn.

use crate::shared::Shared;
use crate::views::View;
use atomic_table::Seat;
use flow_core::Core;
use flux_library::Library;
use std::marker::Model;
use std::snapshot::Snapshot;

/// The right to try for the turn. It takes no bytes.
#[derive(Drop)]
pub struct SharedSeat<L: Library> {
    pub(crate) seat: Seat<Option<Core<L>>, View<L>>,
    pub(crate) shared: Snapshot<Shared<L>>,
}

impl<L: Library> Model for SharedSeat<L> {
    ghost use Rattle.flow_shared.specs.States.{SeatState, seat_code};

    ghost Value = { SeatState L };

    ghost coded = { seat_code L.code };

    ghost use Rattle.flow_shared.specs.Rule.{moves_of, seen_of, places_of, IsSeated};

    ghost view = { λ s. record {
      shared = s.shared.value;
      moves = moves_of s.seat.me.0;
      seen = seen_of s.seat.me.0;
      places = places_of s.seat.me.0;
    } };

    ghost invariant = { λ s. IsSeated s.shared.value s.seat.table_id s.seat.me };
}

/// A seat that has the turn. It takes no bytes.
pub struct Held<L: Library> {
    pub(crate) seat: Seat<Option<Core<L>>, View<L>>,
    pub(crate) shared: Snapshot<Shared<L>>,
    pub(crate) found: Snapshot<Core<L>>,
}

impl<L: Library> Model for Held<L> {
    ghost use Rattle.flow_shared.specs.States.{HeldState, held_code};

    ghost Value = { HeldState L };

    ghost coded = { held_code L.code };

    ghost use Rattle.flow_shared.specs.Rule.{moves_of, places_of, IsOnTurn};

    ghost view = { λ h. record {
      shared = h.shared.value;
      moves = moves_of h.seat.me.0;
      found = h.found.value;
      places = places_of h.seat.me.0;
    } };

    ghost invariant = { λ h. IsOnTurn h.shared.value h.seat.table_id h.found.value h.seat.me };
}

/// The turn: the core, for the one thread that holds it. It can't be dropped, and has to be given back.
pub struct SharedTurn<L: Library> {
    pub core: Core<L>,
    pub held: Held<L>,
}
