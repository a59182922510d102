//! Keys: no flow takes one that another flow bars, no two flows are in sections that conflict, who came first goes first,
//! and each flow lets all go before its end.

use crate::Plain;
use crate::rules::{Rule, Wrong, check_that};
use flow_model::{Entry, Event, Key};
use flux_model::{ClassNo, FlowNo, Mode, NodeNo};
use std::alloc::Global;

/// A key that a flow holds, waits for or has in a section, and how.
#[derive(Clone, Copy)]
struct Claim {
    flow: FlowNo,
    key: Key,
    mode: Mode,
}

impl Claim {
    /// Whether two flows can't have both.
    fn bars(self, other: Claim) -> bool {
        self.flow.0 != other.flow.0 && self.key == other.key && (self.writes() || other.writes())
    }

    fn writes(self) -> bool {
        matches!(self.mode, Mode::Writer)
    }
}

/// Whether one of some claims keeps another from being had.
fn are_barring(claims: &[Claim], claim: Claim) -> bool {
    for other in claims {
        if other.bars(claim) {
            return true;
        }
    }
    false
}

/// Whether one of some claims is a flow's.
fn have_flow(claims: &[Claim], flow: FlowNo) -> bool {
    for claim in claims {
        if claim.flow.0 == flow.0 {
            return true;
        }
    }
    false
}

/// What flows hold, which of them wait in the order of coming, which sections are open, and who has ended.
#[derive(Drop)]
struct Seen {
    held: Vec<Claim>,
    waiting: Vec<Claim>,
    /// The nodes of the sections, and what each has, place by place.
    inside: Vec<NodeNo>,
    open: Vec<Claim>,
    ended: Vec<FlowNo>,
}

/// The key of a class for a flow.
pub fn key_of(plain: Plain, flow: FlowNo, class: ClassNo) -> Key {
    let is_session = match plain.program.classes.get(class.0 as usize) {
        Some(class) => class.session,
        None => false,
    };
    let id = match plain.given.get(flow.0 as usize) {
        Some(given) if is_session => Some(given.number.cast_unsigned()),
        _ => None,
    };
    Key { class, id }
}

impl Seen {
    fn new(alloc: Global) -> Seen {
        Seen {
            held: Vec::new(alloc),
            waiting: Vec::new(alloc),
            inside: Vec::new(alloc),
            open: Vec::new(alloc),
            ended: Vec::new(alloc),
        }
    }

    fn holds(&self, claim: Claim) -> bool {
        self.place_held(claim.flow, claim.key).is_some()
    }

    /// Where a flow's last hold of a key is.
    fn place_held(&self, flow: FlowNo, key: Key) -> Option<usize> {
        let mut last = None;
        for (place, held) in self.held.iter().enumerate() {
            if held.flow.0 == flow.0 && held.key == key {
                last = Some(place);
            }
        }
        last
    }

    /// Whether another flow's hold keeps a claim from being taken.
    fn is_held_against(&self, claim: Claim) -> bool {
        are_barring(&self.held, claim)
    }

    /// Whether another flow waits for the key and came first; whoever holds the key needn't care.
    fn is_late(&self, claim: Claim) -> bool {
        for waiting in &self.waiting {
            if waiting.flow.0 == claim.flow.0 {
                return false;
            }
            if waiting.bars(claim) {
                return !self.holds(claim);
            }
        }
        false
    }

    fn is_blocked(&self, claim: Claim) -> bool {
        !self.holds(claim) && (self.is_held_against(claim) || self.is_late(claim))
    }

    fn place_in_line(&self, flow: FlowNo) -> Option<usize> {
        for (place, waiting) in self.waiting.iter().enumerate() {
            if waiting.flow.0 == flow.0 {
                return Some(place);
            }
        }
        None
    }

    fn take(&mut self, claim: Claim) -> Result<(), Wrong> {
        let is_free = !self.is_held_against(claim) && !self.is_late(claim);
        check_that(is_free, Rule::Take)?;
        if let Some(place) = self.place_in_line(claim.flow)
            && place < self.waiting.len()
        {
            let waiting = self.waiting.remove(place);
            let is_same = waiting.key == claim.key && waiting.mode == claim.mode;
            check_that(is_same, Rule::TakeElsewhere)?;
        }
        Ok(self.held.push(claim)?)
    }

    fn wait(&mut self, claim: Claim) -> Result<(), Wrong> {
        let may = self.is_blocked(claim) && self.place_in_line(claim.flow).is_none();
        check_that(may, Rule::Wait)?;
        Ok(self.waiting.push(claim)?)
    }

    fn drop_key(&mut self, flow: FlowNo, key: Key) -> Result<(), Wrong> {
        match self.place_held(flow, key) {
            Some(place) if place < self.held.len() => {
                let _ = self.held.remove(place);
                Ok(())
            }
            _ => Err(Wrong::Breaks(Rule::Drop)),
        }
    }

    fn open(&mut self, node: NodeNo, claim: Claim) -> Result<(), Wrong> {
        check_that(!are_barring(&self.open, claim), Rule::Section)?;
        self.inside.push(node)?;
        Ok(self.open.push(claim)?)
    }

    /// A flow comes into a node: a section is open on each key of the constraints that the node itself declares.
    fn enter(&mut self, plain: Plain, flow: FlowNo, node: NodeNo) -> Result<(), Wrong> {
        let Some(entered) = plain.program.nodes.get(node.0 as usize) else {
            return Ok(());
        };
        for hold in entered.declared.as_slice() {
            let key = key_of(plain, flow, hold.class);
            let mode = hold.mode;
            self.open(node, Claim { flow, key, mode })?;
        }
        Ok(())
    }

    /// A flow exits a node: its sections there are over.
    fn exit(&mut self, flow: FlowNo, node: NodeNo) {
        for place in (0..self.open.len()).rev() {
            if place < self.inside.len()
                && place < self.open.len()
                && self.inside[place] == node
                && self.open[place].flow == flow
            {
                let _ = self.inside.swap_remove(place);
                let _ = self.open.swap_remove(place);
            }
        }
    }

    fn end(&mut self, flow: FlowNo) -> Result<(), Wrong> {
        let holds = have_flow(&self.held, flow);
        let is_inside = have_flow(&self.open, flow);
        check_that(!holds && !is_inside, Rule::End)?;
        Ok(self.ended.push(flow)?)
    }

    /// An event that neither takes nor waits, of a flow that doesn't wait.
    fn go(&mut self, plain: Plain, flow: FlowNo, event: &Event) -> Result<(), Wrong> {
        check_that(self.place_in_line(flow).is_none(), Rule::GoesOn)?;
        match event {
            Event::Drop(key) => self.drop_key(flow, key.key()),
            Event::Enter(node) => self.enter(plain, flow, *node),
            Event::Exit(node, _) => {
                self.exit(flow, *node);
                Ok(())
            }
            Event::End(_) => self.end(flow),
            _ => Ok(()),
        }
    }

    fn see(&mut self, plain: Plain, entry: &Entry) -> Result<(), Wrong> {
        let flow = entry.flow;
        check_that(!self.ended.contains(&flow), Rule::GoesOn)?;
        match &entry.event {
            Event::Take(key, mode) => {
                let (key, mode) = (key.key(), *mode);
                self.take(Claim { flow, key, mode })
            }
            Event::Wait(key, mode) => {
                let (key, mode) = (key.key(), *mode);
                self.wait(Claim { flow, key, mode })
            }
            event => self.go(plain, flow, event),
        }
    }
}

/// The entries are those of flows that exclude each other, wait only where they must, and end.
pub fn check_keys(alloc: Global, plain: Plain, entries: &[Entry]) -> Result<(), Wrong> {
    let mut seen = Seen::new(alloc);
    for entry in entries {
        seen.see(plain, entry)?;
    }
    check_that(seen.ended.len() == plain.given.len(), Rule::End)
}
