//! Seats at a hall, and the turn.

use crate::halls::Hall;
use crate::views::View;
use atomic_table::Seat;
use flow_core::Core;
use flux_library::Library;
use std::marker::Model;
use std::snapshot::Snapshot;

/// The right to try for a hall's turn. It takes no bytes.
#[derive(Drop)]
pub struct HallSeat<L: Library> {
    pub(crate) seat: Seat<Option<Core<L>>, View<L>>,
    pub(crate) hall: Snapshot<Hall<L>>,
}

impl<L: Library> Model for HallSeat<L> {
    ghost use Rattle.flow_hall.specs.States.{SeatState, seat_code};

    ghost Value = { SeatState L };

    ghost coded = { seat_code L.code };

    ghost use Rattle.flow_hall.specs.Rule.{moves_of, IsSeated};

    ghost view = { λ s. record { hall = s.hall.value; moves = moves_of s.seat.me.0 } };

    ghost invariant = { λ s. IsSeated s.hall.value s.seat.table_id s.seat.me };
}

/// A seat that has the turn. It takes no bytes.
pub struct Held<L: Library> {
    pub(crate) seat: Seat<Option<Core<L>>, View<L>>,
    pub(crate) hall: Snapshot<Hall<L>>,
    pub(crate) found: Snapshot<Core<L>>,
}

impl<L: Library> Model for Held<L> {
    ghost use Rattle.flow_hall.specs.States.{HeldState, held_code};

    ghost Value = { HeldState L };

    ghost coded = { held_code L.code };

    ghost use Rattle.flow_hall.specs.Rule.{moves_of, IsOnTurn};

    ghost view = { λ h. record {
      hall = h.hall.value;
      moves = moves_of h.seat.me.0;
      found = h.found.value;
    } };

    ghost invariant = { λ h. IsOnTurn h.hall.value h.seat.table_id h.found.value h.seat.me };
}

/// The turn: the core, for the one thread that holds it. It can't be dropped, and has to be given back.
pub struct HallTurn<L: Library> {
    pub core: Core<L>,
    pub held: Held<L>,
}
