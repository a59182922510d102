//! What comes of every run of moves, and that a core's calls are such moves.

ghost use Rattle.flow_core.specs.Laws.{RunsAreLegal, StepsAreMoves, StepsAtOnceAreMoves, FinishesAreMoves, NoneLiveIsWhole};

use flux_library::Library;

/// After every run of moves the journal is legal, and each begun call is its flow's next, on the cells of that moment
/// and with the answer that they give.
pub fn runs_are_legal<L: Library>()
    ensures { RunsAreLegal L.meaning }
{}

/// What `step`, `step_at_once` and `finish` do is one such move, or none.
pub fn calls_are_moves<L: Library>()
    ensures steps { StepsAreMoves L.meaning }
    ensures at_once { StepsAtOnceAreMoves L.meaning }
    ensures finishes { FinishesAreMoves L.meaning }
{}

/// A journal in which no flow is live is whole.
pub fn none_live_is_whole<L: Library>()
    ensures { NoneLiveIsWhole L.meaning }
{}
