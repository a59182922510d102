//! The nodes by name, and their signatures.

ghost use Rattle.std.specs.Prelude.{◌≡◌, IfOk};
ghost use Rattle.nodes_web.specs.Nodes.{node_named, sig_of};

use flux_library::signatures::{plain, source};
use flux_values::{Kind, List, Memory, Role, Sig};
use std::alloc::Global;

/// A node of the library.
#[derive(Clone, Copy)]
pub enum Node {
    Accept,
    ReadRequest,
    LookUp,
    SendDoc,
    SendHead,
    NotFound,
    NotAllowed,
    BadRequest,
}

impl Node {
    /// The node that has this name.
    pub fn named(name: &[u8]) -> Option<Node>
        ensures { result ≡ node_named name.now }
    {
        if name == b"Accept".as_slice() {
            Some(Node::Accept)
        } else if name == b"ReadRequest".as_slice() {
            Some(Node::ReadRequest)
        } else if name == b"LookUp".as_slice() {
            Some(Node::LookUp)
        } else if name == b"SendDoc".as_slice() {
            Some(Node::SendDoc)
        } else if name == b"SendHead".as_slice() {
            Some(Node::SendHead)
        } else if name == b"NotFound".as_slice() {
            Some(Node::NotFound)
        } else if name == b"NotAllowed".as_slice() {
            Some(Node::NotAllowed)
        } else if name == b"BadRequest".as_slice() {
            Some(Node::BadRequest)
        } else {
            None
        }
    }

    pub fn sig(self, alloc: Global) -> Result<Sig, Memory>
        ensures { IfOk result (λ sig. sig ≡ sig_of self) }
    {
        let head = [Kind::Int, Kind::Text].as_slice();
        let texts = [Kind::Text, Kind::Text].as_slice();
        let cells = List::new(alloc);
        match self {
            Node::Accept => source(alloc, Role::HeadSource, head),
            Node::ReadRequest => plain(alloc, head, texts, cells),
            Node::LookUp => plain(alloc, texts, texts, cells),
            Node::SendDoc | Node::SendHead => plain(alloc, texts, &[], cells),
            Node::NotFound | Node::NotAllowed => plain(alloc, texts, &[], cells),
            Node::BadRequest => plain(alloc, head, &[], cells),
        }
    }
}
