//! The nodes by name, and their signatures.

ghost use Rattle.std.specs.Prelude.{◌≡◌, IfOk};
ghost use Rattle.nodes_counter.specs.Nodes.{node_named, sig_of};

use flux_library::signatures::{cell, plain, source};
use flux_values::{Kind, List, Memory, Mode, Role, Sig};
use std::alloc::Global;

/// A node of the library.
#[derive(Clone, Copy)]
pub enum Node {
    Tick,
    Listen,
    Pass,
    Fail,
    Show,
    Echo,
    Refuse,
    Command,
    Amount,
    Add,
    Read,
    Bump,
}

impl Node {
    /// The node that has this name.
    pub fn named(name: &[u8]) -> Option<Node>
        ensures { result ≡ node_named name.now }
    {
        if name == b"Tick".as_slice() {
            Some(Node::Tick)
        } else if name == b"Listen".as_slice() {
            Some(Node::Listen)
        } else if name == b"Pass".as_slice() {
            Some(Node::Pass)
        } else if name == b"Fail".as_slice() {
            Some(Node::Fail)
        } else if name == b"Show".as_slice() {
            Some(Node::Show)
        } else if name == b"Echo".as_slice() {
            Some(Node::Echo)
        } else if name == b"Refuse".as_slice() {
            Some(Node::Refuse)
        } else if name == b"Command".as_slice() {
            Some(Node::Command)
        } else if name == b"Amount".as_slice() {
            Some(Node::Amount)
        } else if name == b"Add".as_slice() {
            Some(Node::Add)
        } else if name == b"Read".as_slice() {
            Some(Node::Read)
        } else if name == b"Bump".as_slice() {
            Some(Node::Bump)
        } else {
            None
        }
    }

    pub fn sig(self, alloc: Global) -> Result<Sig, Memory>
        ensures { IfOk result (λ sig. sig ≡ sig_of self) }
    {
        let int = [Kind::Int].as_slice();
        let line = [Kind::Int, Kind::Text].as_slice();
        match self {
            Node::Tick => source(alloc, Role::Source, int),
            Node::Listen => source(alloc, Role::LineSource, line),
            Node::Pass | Node::Fail => plain(alloc, int, int, List::new(alloc)),
            Node::Show => plain(alloc, int, &[], List::new(alloc)),
            Node::Echo | Node::Refuse => plain(alloc, line, &[], List::new(alloc)),
            Node::Command => plain(alloc, line, &[Kind::Text, Kind::Int], List::new(alloc)),
            Node::Amount => plain(alloc, &[Kind::Text, Kind::Int], int, List::new(alloc)),
            Node::Add => plain(alloc, int, int, cell(alloc, b"counter", Mode::Writer)?),
            Node::Read => plain(alloc, int, int, cell(alloc, b"counter", Mode::Reader)?),
            Node::Bump => plain(alloc, int, int, cell(alloc, b"visits", Mode::Writer)?),
        }
    }
}
