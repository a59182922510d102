//! A tracker's swarm as a journal tells it: its peers, and what `swarm` prints of them.
//!
//! `peers` goes through a journal and looks at no cell: a peer is in the swarm of a hash where its last good `Swarm`
//! call for it isn't `stopped`. That these are the swarm in the cell `swarms` after the journal, where only `Tracker`'s
//! nodes use that cell and each `Swarm` node has it program-wide, is a law over the definitions. `print_swarm` reads a text
//! that is known to be a journal and prints the peers that it tells: how many a hash has, and each with its number left.
#![tactic(auto)]

mod journal_peers;
mod laws;
mod printing;
mod swarms;

pub use journal_peers::peers;
pub use laws::{legal_calls_are_right, peers_are_in_the_cell};
pub use swarms::print_swarm;
