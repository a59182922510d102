//! What a journal tells of peers is what the cell has. Each law is the contract of a function that does nothing.

ghost use Rattle.flux_swarms.specs.InTheCell.{PeersAreInTheCell, LegalCallsAreRight};

/// Where only `Tracker`'s nodes use `swarms` and each `Swarm` node has it program-wide, the peers of a hash after a
/// journal whose calls are right are the swarm in the cell.
pub fn peers_are_in_the_cell()
    ensures { PeersAreInTheCell }
{}

/// In a legal journal of a sound program, from empty cells, each call is right.
pub fn legal_calls_are_right()
    ensures { LegalCallsAreRight }
{}
