//! Flow after flow makes one step: a call is run and finished at once, and who waits is passed over until it may go on.

ghost use Rattle.std.specs.Prelude.{◌<◌, length};

use flow_core::{Core, Step};
use flow_model::{Entry, Event, Key};
use flux_library::Library;
use flux_model::FlowNo;
use flux_values::Memory;
use std::alloc::Global;

/// What a flow did in its turn.
#[derive(Clone, Copy)]
pub enum Turn {
    Went,
    Waits(Key),
    /// Nothing: its call was begun before.
    Calling,
    Ended,
}

/// One step of a flow; a call is run and finished at once.
pub fn take_turn<L: Library>(
    alloc: Global,
    core: &mut Core<L>,
    flow: FlowNo,
) -> Result<Turn, Memory>
    requires { flow.0 < length core.old.setup.items }
{
    match core.step(flow)? {
        Step::Went => Ok(Turn::Went),
        Step::Waits { key, .. } => Ok(Turn::Waits(key)),
        Step::Calling => Ok(Turn::Calling),
        Step::Ended => Ok(Turn::Ended),
        Step::Job(job) => {
            let done = job.run(alloc)?;
            let _ = core.finish(&done)?;
            Ok(Turn::Went)
        }
    }
}

/// No flow.
const NOBODY: u32 = u32::MAX;

/// Flows one after the other: the first and the last, or nobody.
#[derive(Clone, Copy)]
struct Line {
    first: u32,
    last: u32,
}

/// Nobody waits here.
const EMPTY: Line = Line {
    first: NOBODY,
    last: NOBODY,
};

/// Who may go on, each in its turn, and who waits, by key in the order of coming. A flow is in one line at most.
#[derive(Drop)]
struct Turns {
    /// Who comes after each flow in its line.
    behind: Vec<u32>,
    ready: Line,
    waiting: Vec<(Key, Line)>,
}

/// Says who comes after a flow.
fn set_behind(behind: &mut [u32], flow: u32, next: u32) {
    if let Some(place) = behind.get_mut(flow as usize) {
        *place = next;
    }
}

/// The line with a flow more, at its end.
fn longer(behind: &mut [u32], line: Line, flow: u32) -> Line {
    set_behind(behind, flow, NOBODY);
    set_behind(behind, line.last, flow);
    let first = if line.first == NOBODY {
        flow
    } else {
        line.first
    };
    Line { first, last: flow }
}

/// The line without its first flow.
fn rest_of(behind: &[u32], line: Line) -> Line {
    match behind.get(line.first as usize) {
        Some(first) if *first != NOBODY => Line {
            first: *first,
            last: line.last,
        },
        _ => EMPTY,
    }
}

/// Where the line of a key is.
fn place_of(waiting: &[(Key, Line)], key: Key) -> Option<usize> {
    for (place, (other, _)) in waiting.iter().enumerate() {
        if *other == key {
            return Some(place);
        }
    }
    None
}

/// The key that the last event drops.
fn dropped(entries: &[Entry]) -> Option<Key> {
    match &entries.last()?.event {
        Event::Drop(key) => Some(key.key()),
        _ => None,
    }
}

/// Whether a flow that waits can't go on.
fn is_blocked<L: Library>(core: &Core<L>, flow: u32) -> bool {
    flow < core.flows() && core.blocked(FlowNo(flow))
}

impl Turns {
    /// Nobody has a turn.
    fn new(alloc: Global) -> Turns {
        Turns {
            behind: Vec::new(alloc),
            ready: EMPTY,
            waiting: Vec::new(alloc),
        }
    }

    /// Each of so many flows is ready, in order.
    fn begin(&mut self, flows: u32) -> Result<(), Memory> {
        for flow in 0..flows {
            self.behind.push(NOBODY)?;
            self.ready = longer(self.behind.as_mut_slice(), self.ready, flow);
        }
        Ok(())
    }

    /// Who has the next turn.
    fn next(&mut self) -> Option<u32> {
        let line = self.ready;
        if line.first == NOBODY {
            return None;
        }
        self.ready = rest_of(self.behind.as_slice(), line);
        Some(line.first)
    }

    /// A flow's turn. The next one comes after the others' turns, unless the flow waits or has ended.
    fn give<L: Library>(
        &mut self,
        alloc: Global,
        core: &mut Core<L>,
        flow: u32,
    ) -> Result<(), Memory> {
        if flow >= core.flows() {
            return Ok(());
        }
        match take_turn(alloc, core, FlowNo(flow))? {
            Turn::Ended | Turn::Calling => Ok(()),
            Turn::Waits(key) => self.wait(key, flow),
            Turn::Went => {
                self.ready = longer(self.behind.as_mut_slice(), self.ready, flow);
                self.wake(core);
                Ok(())
            }
        }
    }

    /// A flow joins a key's line.
    fn wait(&mut self, key: Key, flow: u32) -> Result<(), Memory> {
        let place = match place_of(self.waiting.as_slice(), key) {
            Some(place) => place,
            None => {
                self.waiting.push((key, EMPTY))?;
                self.waiting.len().saturating_sub(1)
            }
        };
        if let Some((_, line)) = self.waiting.get_mut(place) {
            *line = longer(self.behind.as_mut_slice(), *line, flow);
        }
        Ok(())
    }

    /// Where the last event is a drop, those in front of the key's line that may go on are ready.
    fn wake<L: Library>(&mut self, core: &Core<L>) {
        if let Some(key) = dropped(core.journal().entries.as_slice())
            && let Some(place) = place_of(self.waiting.as_slice(), key)
            && let Some((_, line)) = self.waiting.get(place)
        {
            let line = *line;
            let left = self.wake_front(core, line);
            if let Some((_, line)) = self.waiting.get_mut(place) {
                *line = left;
            }
        }
    }

    /// Makes those in front of a line ready that may go on, and gives the line of the others.
    fn wake_front<L: Library>(&mut self, core: &Core<L>, line: Line) -> Line {
        let mut left = line;
        for _ in 0..self.behind.len() {
            let flow = left.first;
            if flow == NOBODY || is_blocked(core, flow) {
                break;
            }
            left = rest_of(self.behind.as_slice(), left);
            self.ready = longer(self.behind.as_mut_slice(), self.ready, flow);
        }
        left
    }

    /// Gives turns until nobody has one.
    fn give_all<L: Library>(&mut self, alloc: Global, core: &mut Core<L>) -> Result<(), Memory> {
        for _ in 0..u64::MAX {
            let Some(flow) = self.next() else {
                break;
            };
            self.give(alloc, core, flow)?;
        }
        Ok(())
    }
}

/// Drives each flow as far as it goes.
pub fn drive<L: Library>(alloc: Global, core: &mut Core<L>) -> Result<(), Memory> {
    let mut turns = Turns::new(alloc);
    turns.begin(core.flows())?;
    turns.give_all(alloc, core)
}
