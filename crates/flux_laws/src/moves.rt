//! Legal journals are made of moves, one by one.

ghost use Rattle.flux_laws.specs.Parts.{PartsMakeLegal};
ghost use Rattle.flux_laws.specs.Moves.{NothingIsLegal, EventIsLegal, WaitIsLegal, CallIsLegal, MovesAreLegal, FrontsAreLegal, EntriesAreMoves};

/// That sections exclude, and that no waits form a cycle, follows from the other parts of a legal journal.
pub fn parts_make_legal()
    ensures { PartsMakeLegal }
{}

/// No entries at all are legal.
pub fn nothing_is_legal()
    ensures { NothingIsLegal }
{}

/// A legal journal stays legal with a flow's next event, where the flow isn't blocked.
pub fn event_is_legal()
    ensures { EventIsLegal }
{}

/// It stays legal with a wait for a flow's next take, where the flow is blocked and its take has no wait yet.
pub fn wait_is_legal()
    ensures { WaitIsLegal }
{}

/// It stays legal with a call that is next, with its node's answer on the cells that the entries leave.
pub fn call_is_legal()
    ensures { CallIsLegal }
{}

/// It stays legal with each move.
pub fn moves_are_legal()
    ensures { MovesAreLegal }
{}

/// A front of a legal journal is legal.
pub fn fronts_are_legal()
    ensures { FrontsAreLegal }
{}

/// Each entry of a legal journal is a move after those before it.
pub fn entries_are_moves()
    ensures { EntriesAreMoves }
{}
