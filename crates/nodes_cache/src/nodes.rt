//! The nodes by name, and their signatures.

ghost use Rattle.std.specs.Prelude.{◌≡◌, IfOk};
ghost use Rattle.nodes_cache.specs.Nodes.{node_named, sig_of};

use flux_library::Role;
use flux_library::signatures::{cell, plain, source};
use flux_values::{Kind, List, Memory, Mode, Sig};
use std::alloc::Global;

/// A node of the library.
#[derive(Clone, Copy)]
pub enum Node {
    Listen,
    ReadName,
    CheckCache,
    ReadInFromDisk,
    StoreInCache,
    Write,
    Complete,
    FourOhFour,
}

impl Node {
    /// The node that has this name.
    pub fn named(name: &[u8]) -> Option<Node>
        ensures { result ≡ node_named name.now }
    {
        if name == b"Listen".as_slice() {
            Some(Node::Listen)
        } else if name == b"ReadName".as_slice() {
            Some(Node::ReadName)
        } else if name == b"CheckCache".as_slice() {
            Some(Node::CheckCache)
        } else if name == b"ReadInFromDisk".as_slice() {
            Some(Node::ReadInFromDisk)
        } else if name == b"StoreInCache".as_slice() {
            Some(Node::StoreInCache)
        } else if name == b"Write".as_slice() {
            Some(Node::Write)
        } else if name == b"Complete".as_slice() {
            Some(Node::Complete)
        } else if name == b"FourOhFour".as_slice() {
            Some(Node::FourOhFour)
        } else {
            None
        }
    }

    pub fn sig(self, alloc: Global) -> Result<Sig, Memory>
        ensures { IfOk result (λ sig. sig ≡ sig_of self) }
    {
        let line = [Kind::Int, Kind::Text].as_slice();
        let name = [Kind::Text].as_slice();
        let entry = [Kind::Text, Kind::Text, Kind::Bool].as_slice();
        let none = List::new(alloc);
        match self {
            Node::Listen => source(alloc, Role::LineSource, line),
            Node::ReadName => plain(alloc, line, name, none),
            Node::CheckCache => plain(alloc, name, entry, cell(alloc, b"cache", Mode::Writer)?),
            Node::ReadInFromDisk => plain(alloc, entry, entry, none),
            Node::StoreInCache => plain(alloc, entry, entry, cell(alloc, b"cache", Mode::Writer)?),
            Node::Write => plain(alloc, entry, name, none),
            Node::Complete => plain(alloc, name, &[], cell(alloc, b"cache", Mode::Writer)?),
            Node::FourOhFour => plain(alloc, entry, &[], none),
        }
    }
}
