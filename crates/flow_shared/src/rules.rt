//! The rule of the shared core's table, and the kinds of its steps.

use crate::views::View;
use atomic_table::{Join, Play, Split, TableRule};
use flow_core::Core;
use flux_library::Library;
use std::marker::PhantomData;
use std::snapshot::Snapshot;

/// The rule, over the core that all was made with.
pub struct SharedRule<L> {
    marker: PhantomData<L>,
}

impl<L: Library> TableRule<Option<Core<L>>, View<L>, Snapshot<Core<L>>> for SharedRule<L> {
    ghost use Rattle.flow_shared.specs.Rule.{IsShared, first_view};

    ghost holds = { λ key. IsShared key.value };

    ghost first = { λ key. first_view key.value };
}

/// Winning the turn, or losing it.
pub struct TakesTurn;

impl<L: Library> Play<Option<Core<L>>, View<L>> for TakesTurn {
    ghost use Rattle.flow_shared.specs.Rule.{WinsOrLoses};

    ghost then = { λ step before found after. WinsOrLoses before found after };
}

/// Giving the turn.
pub struct GivesTurn;

impl<L: Library> Play<Option<Core<L>>, View<L>> for GivesTurn {
    ghost use Rattle.flow_shared.specs.Rule.{GivesTurn as Gives};

    ghost then = { λ step before found after. Gives before after };
}

/// Splitting a seat: the new one has no places.
pub struct Splitting;

impl<L: Library> Split<View<L>> for Splitting {
    ghost use Rattle.flow_shared.specs.Rule.{moved_view, without_places};

    ghost left = { moved_view 2 };

    ghost right = { without_places 2 };
}

/// Joining a seat to another, which lays aside what that one saw.
pub struct Joining;

impl<L: Library> Join<View<L>> for Joining {
    ghost use Rattle.flow_shared.specs.Rule.{joined};
    ghost use Rattle.flow_shared.specs.declared.views.View.TheVariants.{Spent};

    ghost both = { joined };

    ghost spent = { Spent };
}

/// Putting together what a seat saw and what it has aside.
pub struct Settling;

impl<L: Library> Play<Option<Core<L>>, View<L>> for Settling {
    ghost use Rattle.flow_shared.specs.Rule.{Settles};

    ghost then = { λ step before found after. Settles before after };
}
