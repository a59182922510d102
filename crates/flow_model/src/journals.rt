//! The journal of what flows did.

use crate::carried::{Carried, SharedAnswer};
use crate::kept_keys::KeptKey;
use flux_model::{ClassNo, FlowNo, NodeNo};
use flux_values::{List, Mode};

/// What is locked: a class, for a session class with the session's number.
#[derive(Clone, Copy, PartialEq, Eq, PartialOrd, Ord, Hash)]
pub struct Key {
    pub class: ClassNo,
    pub id: Option<u64>,
}

/// A call of a node, with what it answered: contracts see a list of values and an answer.
pub struct CallMade {
    pub node: NodeNo,
    pub args: Carried,
    pub answer: SharedAnswer,
}

impl Drop for CallMade {
    fn drop(self) {
        let CallMade { node, args, answer } = self;
    }
}

/// How a node or a flow ended: well, over after a handler, or with a code.
#[derive(Clone, Copy, PartialEq, Eq)]
pub enum Outcome {
    Good,
    Over,
    Bad(u16),
}

/// What a flow did. Contracts see keys, which are kept in less room.
pub enum Event {
    Take(KeptKey, Mode),
    Wait(KeptKey, Mode),
    Enter(NodeNo),
    /// The chosen case, from 1.
    Choose(u32),
    Call(CallMade),
    Exit(NodeNo, Outcome),
    Drop(KeptKey),
    End(Outcome),
}

impl Drop for Event {
    fn drop(self) {
        match self {
            Event::Take(_, _) => {}
            Event::Wait(_, _) => {}
            Event::Enter(_) => {}
            Event::Choose(_) => {}
            Event::Call(_) => {}
            Event::Exit(_, _) => {}
            Event::Drop(_) => {}
            Event::End(_) => {}
        }
    }
}

/// An event with its flow.
pub struct Entry {
    pub flow: FlowNo,
    pub event: Event,
}

impl Drop for Entry {
    fn drop(self) {
        let Entry { flow, event } = self;
    }
}

/// What the flows did, in order.
pub struct Journal {
    pub entries: List<Entry>,
}

impl Drop for Journal {
    fn drop(self) {
        let Journal { entries } = self;
    }
}
