//! What the loop and its helpers share beside the core.

use flow_core::Core;
use flow_turns::Bell;
use flux_library::Library;
use flux_model::FlowNo;
use flux_values::Memory;
use std::alloc::Global;
use std::sync::{Mutex, Wait};

/// A worker with nothing to do looks at its bell so often before it sleeps.
const LOOKS: u32 = 60_000;

/// Waits until a bell has been rung more often than this, or for so many milliseconds. Where calls cost little the wait is
/// shorter than it takes to sleep and be woken, so the worker looks for some microseconds before it sleeps.
pub fn await_bell<R: Wait>(rt: &R, bell: &Bell, rung: u32, milliseconds: u64) {
    for _look in 0..LOOKS {
        if bell.rung() != rung {
            return;
        }
    }
    bell.sleep(rt, rung, milliseconds);
}

/// The flows whose calls were begun and not taken up.
#[derive(Drop)]
struct Begun {
    flows: u32,
    flags: Vec<bool>,
    /// How many there are.
    count: u32,
    /// None is below this one.
    first: u32,
}

impl Begun {
    /// None of so many flows.
    fn none(alloc: Global, flows: u32) -> Result<Begun, Memory> {
        let mut flags = Vec::new(alloc);
        for _flow in 0..flows {
            flags.push(false)?;
        }
        Ok(Begun {
            flows,
            flags,
            count: 0,
            first: flows,
        })
    }

    fn add(&mut self, flow: FlowNo) {
        if let Some(flag) = self.flags.get_mut(flow.0 as usize) {
            if !*flag {
                *flag = true;
                self.count = self.count.saturating_add(1);
                self.first = self.first.min(flow.0);
            }
        }
    }

    /// Takes the lowest one out.
    fn take_lowest(&mut self) -> Option<FlowNo> {
        if self.count == 0 {
            return None;
        }
        for number in self.first..self.flows {
            if self.flags.get(number as usize) == Some(&true) {
                return self.take(number);
            }
        }
        None
    }

    fn take(&mut self, number: u32) -> Option<FlowNo> {
        *self.flags.get_mut(number as usize)? = false;
        self.count = self.count.saturating_sub(1);
        self.first = number;
        Some(FlowNo(number))
    }
}

/// What a helper has to do.
#[derive(Drop)]
pub struct Board {
    /// Rung when a call was begun that the helper serves.
    pub bell: Bell,
    /// Used in the turn alone, so nobody waits for the lock.
    begun: Mutex<Begun>,
}

impl Board {
    /// A board with nothing on it.
    fn new(alloc: Global, flows: u32) -> Result<Board, Memory> {
        Ok(Board {
            bell: Bell::new(),
            begun: Mutex::new(Begun::none(alloc, flows)?),
        })
    }

    /// Puts a flow on it whose call was begun, and wakes the helper.
    fn post<R: Wait>(&self, rt: &R, flow: FlowNo) {
        self.begun.lock(rt).add(flow);
        self.bell.ring();
    }

    /// Takes up the lowest flow that is on it.
    pub fn take_lowest<R: Wait>(&self, rt: &R) -> Option<FlowNo> {
        self.begun.lock(rt).take_lowest()
    }
}

/// A bell for the loop, and a board for each helper.
#[derive(Drop)]
pub struct Bells {
    /// Rung when an answer was handed in.
    pub lead: Bell,
    boards: Vec<Board>,
}

/// So many boards, for so many flows.
fn boards(alloc: Global, helpers: u8, flows: u32) -> Result<Vec<Board>, Memory> {
    let mut boards = Vec::new(alloc);
    for _helper in 0..helpers {
        boards.push(Board::new(alloc, flows)?)?;
    }
    Ok(boards)
}

impl Bells {
    /// Bells for so many helpers, with the calls on the boards that are begun already.
    pub fn new<L: Library, R: Wait>(rt: &R, core: &Core<L>, helpers: u8) -> Result<Bells, Memory> {
        let bells = Bells {
            lead: Bell::new(),
            boards: boards(core.alloc(), helpers, core.flows())?,
        };
        for flow in 0..core.flows() {
            if core.is_calling(FlowNo(flow)) {
                bells.post(rt, FlowNo(flow));
            }
        }
        Ok(bells)
    }

    /// The board of a helper.
    pub fn board(&self, number: u32) -> Option<&Board> {
        self.boards.get(number as usize)
    }

    /// Puts a flow whose call was begun on the board of the helper that serves it.
    pub fn post<R: Wait>(&self, rt: &R, flow: FlowNo) {
        let helpers = self.boards.len();
        if helpers == 0 {
            return;
        }
        if let Some(board) = self.boards.get(flow.0 as usize % helpers) {
            board.post(rt, flow);
        }
    }

    /// Wakes all.
    pub fn ring_all(&self) {
        self.lead.ring();
        for board in &self.boards {
            board.bell.ring();
        }
    }
}
