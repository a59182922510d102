//! The nodes by name, and their signatures.

ghost use Rattle.std.specs.Prelude.{◌≡◌, IfOk};
ghost use Rattle.nodes_tracker.specs.Nodes.{node_named, sig_of};

use flux_library::Role;
use flux_library::signatures::{cell, plain, source};
use flux_values::{Kind, List, Memory, Mode, Sig};
use std::alloc::Global;

/// A node of the library.
#[derive(Clone, Copy)]
pub enum Node {
    Listen,
    ReadAsk,
    Swarm,
    Scrape,
    Send,
    Failure,
    Full,
}

impl Node {
    /// The node that has this name.
    pub fn named(name: &[u8]) -> Option<Node>
        ensures { result ≡ node_named name.now }
    {
        if name == b"Listen".as_slice() {
            Some(Node::Listen)
        } else if name == b"ReadAsk".as_slice() {
            Some(Node::ReadAsk)
        } else if name == b"Swarm".as_slice() {
            Some(Node::Swarm)
        } else if name == b"Scrape".as_slice() {
            Some(Node::Scrape)
        } else if name == b"Send".as_slice() {
            Some(Node::Send)
        } else if name == b"Failure".as_slice() {
            Some(Node::Failure)
        } else if name == b"Full".as_slice() {
            Some(Node::Full)
        } else {
            None
        }
    }

    pub fn sig(self, alloc: Global) -> Result<Sig, Memory>
        ensures { IfOk result (λ sig. sig ≡ sig_of self) }
    {
        let line = [Kind::Int, Kind::Text].as_slice();
        let text = [Kind::Text].as_slice();
        let ask = [Kind::Text, Kind::Text, Kind::Text, Kind::Int].as_slice();
        let none = List::new(alloc);
        match self {
            Node::Listen => source(alloc, Role::LineSource, line),
            Node::ReadAsk => plain(alloc, line, ask, none),
            Node::Swarm => plain(alloc, ask, text, cell(alloc, b"swarms", Mode::Writer)?),
            Node::Scrape => plain(alloc, ask, text, cell(alloc, b"swarms", Mode::Reader)?),
            Node::Send => plain(alloc, text, &[], none),
            Node::Failure => plain(alloc, line, &[], none),
            Node::Full => plain(alloc, ask, &[], none),
        }
    }
}
