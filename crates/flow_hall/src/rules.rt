//! The rule of the hall's table, and the kinds of its steps.

use crate::views::View;
use atomic_table::{Join, Play, Split, TableRule};
use flow_core::Core;
use flux_library::Library;
use std::marker::PhantomData;
use std::snapshot::Snapshot;

/// The hall's rule, over the core that the hall was made with.
pub struct HallRule<L> {
    marker: PhantomData<L>,
}

impl<L: Library> TableRule<Option<Core<L>>, View<L>, Snapshot<Core<L>>> for HallRule<L> {
    ghost use Rattle.flow_hall.specs.Rule.{IsHall, first_view};

    ghost holds = { λ key. IsHall key.value };

    ghost first = { λ key. first_view key.value };
}

/// Winning the turn, or losing it.
pub struct TakesTurn;

impl<L: Library> Play<Option<Core<L>>, View<L>> for TakesTurn {
    ghost use Rattle.flow_hall.specs.Rule.{TriesTurn};

    ghost then = { λ step before found after. TriesTurn step before found after };
}

/// Giving the turn.
pub struct GivesTurn;

impl<L: Library> Play<Option<Core<L>>, View<L>> for GivesTurn {
    ghost use Rattle.flow_hall.specs.Rule.{GivesTurn as Gives};

    ghost then = { λ step before found after. Gives before after };
}

/// Splitting a seat.
pub struct Splitting;

impl<L: Library> Split<View<L>> for Splitting {
    ghost use Rattle.flow_hall.specs.Rule.{view_after};
    ghost use Rattle.std.specs.Prelude.{false};

    ghost left = { view_after 2 false };

    ghost right = { view_after 2 false };
}

/// Joining a seat to another.
pub struct Joining;

impl<L: Library> Join<View<L>> for Joining {
    ghost use Rattle.flow_hall.specs.Rule.{view_after};
    ghost use Rattle.flow_hall.specs.declared.views.View.TheVariants.{Spent};
    ghost use Rattle.std.specs.Prelude.{false};

    ghost both = { λ view other. view_after 1 false view };

    ghost spent = { Spent };
}
