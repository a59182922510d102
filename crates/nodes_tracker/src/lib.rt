//! The library `Tracker`: nodes of a BitTorrent tracker, which keep each swarm bencoded in the cell
//! `swarms`.
//!
//! Its meaning has one definition for each node, in words of its own, and each call gives what they
//! say. A swarm that is kept reads back as it was, as a law says. It keeps the laws of libraries.
#![tactic(auto)]

mod addresses;
mod asks;
mod calls;
mod hashes;
mod laws;
mod nodes;
mod peers;
mod pieces;
mod predicates;
mod replies;
mod tracker;

pub use hashes::read_hash;
pub use laws::{kept_reads_back, nothing_else_reads};
pub use nodes::Node;
pub use peers::{PEER_LIMIT, Peer, put_in, read_swarm, take_out};
pub use predicates::{asked, holds};
pub use replies::SHOWN_LIMIT;
pub use tracker::Tracker;
