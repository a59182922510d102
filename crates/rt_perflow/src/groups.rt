//! A group of flows, each with a leaf.

use flow_turns::Bell;
use flux_model::FlowNo;
use flux_values::Memory;
use std::alloc::Global;
use std::sync::atomic::{AtomicBool, Ordering};

/// What leaves know of one another's.
#[derive(Drop)]
pub struct Place {
    /// Rung when the leaf's flow may go on.
    pub bell: Bell,
    /// Whether the leaf has had a turn.
    begun: AtomicBool,
    /// Whether the leaf has returned.
    returned: AtomicBool,
}

/// How far a leaf is.
#[derive(Clone, Copy, Drop)]
pub enum Stage {
    /// It has had no turn, and has none where its thread can't be made before others have returned.
    Expected,
    /// It lets its flow go on.
    Works,
    /// It has returned, or there is none in this group.
    Returned,
}

impl Place {
    /// Notes that the leaf has a turn.
    pub fn begin(&self) {
        self.begun.store(true, Ordering::SeqCst);
    }
}

/// Flows in a row. Each has a leaf, until that returns.
#[derive(Drop)]
pub struct Group {
    first: u32,
    places: Vec<Place>,
}

impl Group {
    /// The flows from `first` up to `end`.
    pub fn new(alloc: Global, first: u32, end: u32) -> Result<Group, Memory> {
        let mut places = Vec::new(alloc);
        for _flow in first..end {
            places.push(Place {
                bell: Bell::new(),
                begun: AtomicBool::new(false),
                returned: AtomicBool::new(false),
            })?;
        }
        Ok(Group { first, places })
    }

    /// The place of a flow of the group.
    pub fn place(&self, flow: FlowNo) -> Option<&Place> {
        let place = flow.0.checked_sub(self.first)?;
        self.places.get(place as usize)
    }

    /// How far the leaf of a flow is.
    pub fn stage(&self, flow: FlowNo) -> Stage {
        let Some(place) = self.place(flow) else {
            return Stage::Returned;
        };
        if place.returned.load(Ordering::SeqCst) {
            Stage::Returned
        } else if place.begun.load(Ordering::SeqCst) {
            Stage::Works
        } else {
            Stage::Expected
        }
    }

    /// Wakes the leaf of a flow, if it has one.
    pub fn wake(&self, flow: FlowNo) {
        if let Some(place) = self.place(flow) {
            place.bell.ring();
        }
    }

    /// Notes that a flow's leaf returns though its flow hasn't ended, and wakes all others: they look whether theirs wait for it.
    pub fn leave(&self, flow: FlowNo) {
        if let Some(place) = self.place(flow) {
            place.returned.store(true, Ordering::SeqCst);
        }
        for place in &self.places {
            place.bell.ring();
        }
    }
}
