//! Walks: the events of each flow, its waits left out, are those of its nodes, one within the other, and then its end.

ghost use Rattle.std.specs.Prelude.{◌<◌, IfOk};

use crate::Plain;
use crate::keys::key_of;
use crate::rules::{Rule, Wrong, check_that};
use flow_model::{Entry, Event, Key, Outcome};
use flux_model::{Body, Case, FlowNo, HandleArm, Hold, Mode, NodeNo};
use flux_values::{CallResult, Value};

/// How deep calls of `Walker` may be nested here.
const DEPTH: u32 = 64;

/// How a node came out, and the number that it gave, if it came out well and gave one.
#[derive(Clone, Copy)]
struct Way {
    outcome: Outcome,
    number: i64,
}

/// An event that has to come next, but for calls.
#[derive(Clone, Copy)]
enum Wanted {
    Take(Key, Mode),
    Drop(Key),
    Enter(NodeNo),
    /// The chosen case, from 1.
    Choose(usize),
    Exit(NodeNo, Outcome),
    End(Outcome),
}

fn is_wanted(event: &Event, wanted: Wanted) -> bool {
    match (event, wanted) {
        (Event::Take(key, mode), Wanted::Take(other, how)) => key.key() == other && *mode == how,
        (Event::Drop(key), Wanted::Drop(other)) => key.key() == other,
        (Event::Enter(node), Wanted::Enter(other)) => *node == other,
        (Event::Choose(chosen), Wanted::Choose(other)) => *chosen as usize == other,
        (Event::Exit(node, outcome), Wanted::Exit(other, how)) => {
            *node == other && *outcome == how
        }
        (Event::End(outcome), Wanted::End(how)) => *outcome == how,
        _ => false,
    }
}

/// Goes through a flow's own events as its nodes ask for them.
#[derive(Clone, Copy)]
struct Walker<'a> {
    plain: Plain<'a>,
    flow: FlowNo,
    /// The entries after the flow's last event that was asked for.
    left: &'a [Entry],
}

/// Whether an entry is an event of a flow's own, and no wait.
fn is_own(entry: &Entry, flow: FlowNo) -> bool {
    entry.flow == flow && !matches!(entry.event, Event::Wait(..))
}

/// Where a flow's first own event is.
fn place_of_own(entries: &[Entry], flow: FlowNo) -> Option<usize> {
    for (place, entry) in entries.iter().enumerate() {
        if is_own(entry, flow) {
            return Some(place);
        }
    }
    None
}

/// Whether a case matches a number.
fn is_match(plain: Plain, case: &Case, given: i64) -> bool {
    let [Some(predicate)] = case.patterns.as_slice() else {
        return true;
    };
    match plain.program.predicates.get(*predicate as usize) {
        Some(name) if name.as_bytes() == b"IsZero".as_slice() => given == 0,
        _ => false,
    }
}

/// The handler of a code: the first that names it, or else the first that names none.
fn handler_of(arms: &[HandleArm], code: u16) -> Option<NodeNo> {
    for arm in arms {
        if arm.codes.as_slice().contains(&code) {
            return Some(arm.node);
        }
    }
    for arm in arms {
        if arm.codes.is_empty() {
            return Some(arm.node);
        }
    }
    None
}

fn way_of(found: &CallResult, given: i64) -> Way {
    let (outcome, number) = match found {
        CallResult::Bad(code) => (Outcome::Bad(*code), given),
        CallResult::Good(values) => match values.as_slice() {
            [Value::Int(number)] => (Outcome::Good, *number),
            _ => (Outcome::Good, given),
        },
    };
    Way { outcome, number }
}

/// One level less.
fn below(depth: u32) -> Result<u32, Wrong>
    ensures { IfOk result (λ less. less < depth) }
{
    depth.checked_sub(1).ok_or(Wrong::Breaks(Rule::Walk))
}

impl<'a> Walker<'a> {
    fn next(&mut self) -> Option<&'a Event> {
        let place = place_of_own(self.left, self.flow)?;
        let (entry, rest) = self.left.get(place..)?.split_first()?;
        self.left = rest;
        Some(&entry.event)
    }

    fn locks(&self, node: NodeNo) -> &'a [Hold] {
        match self.plain.locks.get(node.0 as usize) {
            Some(locks) => locks.as_slice(),
            None => &[],
        }
    }

    fn handlers(&self, node: NodeNo) -> &'a [HandleArm] {
        match self.plain.program.nodes.get(node.0 as usize) {
            Some(node) => node.on_fail.as_slice(),
            None => &[],
        }
    }

    /// The next event has to be this one.
    fn expect(&mut self, wanted: Wanted) -> Result<(), Wrong> {
        match self.next() {
            Some(event) if is_wanted(event, wanted) => Ok(()),
            _ => Err(Wrong::Breaks(Rule::Walk)),
        }
    }

    fn key(&self, hold: &Hold) -> Key {
        key_of(self.plain, self.flow, hold.class)
    }

    fn takes(&mut self, locks: &[Hold]) -> Result<(), Wrong> {
        for hold in locks {
            let key = self.key(hold);
            self.expect(Wanted::Take(key, hold.mode))?;
        }
        Ok(())
    }

    fn drops(&mut self, locks: &[Hold]) -> Result<(), Wrong> {
        for hold in locks.iter().rev() {
            let key = self.key(hold);
            self.expect(Wanted::Drop(key))?;
        }
        Ok(())
    }

    fn call(&mut self, wanted: NodeNo, given: i64) -> Result<Way, Wrong> {
        if let Some(Event::Call(call)) = self.next()
            && call.node == wanted
            && let [Value::Int(number)] = call.args.as_slice()
            && *number == given
        {
            Ok(way_of(&call.answer.as_answer().result, given))
        } else {
            Err(Wrong::Breaks(Rule::Walk))
        }
    }

    fn end(&mut self, way: Way) -> Result<(), Wrong> {
        self.expect(Wanted::End(way.outcome))?;
        check_that(self.next().is_none(), Rule::Walk)
    }

    /// A case's members, each on what the one before gave, until one doesn't come out well.
    #[cycle(walking)]
    fn members(&mut self, depth: u32, members: &[NodeNo], given: i64) -> Result<Way, Wrong> {
        let depth = below(depth)?;
        let mut way = Way {
            outcome: Outcome::Good,
            number: given,
        };
        for member in members {
            if way.outcome != Outcome::Good {
                break;
            }
            way = self.walk(depth, *member, way.number)?;
        }
        Ok(way)
    }

    /// The first case that matches, or the failure with code 256.
    #[cycle(walking)]
    fn choose(&mut self, depth: u32, cases: &[Case], given: i64) -> Result<Way, Wrong> {
        let depth = below(depth)?;
        let plain = self.plain;
        for (place, case) in cases.iter().enumerate() {
            if is_match(plain, case, given) {
                self.expect(Wanted::Choose(place.saturating_add(1)))?;
                return self.members(depth, case.members.as_slice(), given);
            }
        }
        Ok(Way {
            outcome: Outcome::Bad(256),
            number: given,
        })
    }

    #[cycle(walking)]
    fn body(&mut self, depth: u32, node: NodeNo, given: i64) -> Result<Way, Wrong> {
        let depth = below(depth)?;
        if let Some(entered) = self.plain.program.nodes.get(node.0 as usize)
            && let Body::Abstract(cases) = &entered.body
        {
            self.choose(depth, cases.as_slice(), given)
        } else {
            self.call(node, given)
        }
    }

    /// The handler's walk, where the node failed and has one for the code.
    #[cycle(walking)]
    fn handle(&mut self, depth: u32, node: NodeNo, given: i64, way: Way) -> Result<Way, Wrong> {
        let depth = below(depth)?;
        if let Outcome::Bad(code) = way.outcome
            && let Some(handler) = handler_of(self.handlers(node), code)
        {
            let handled = self.walk(depth, handler, given)?;
            return match handled.outcome {
                Outcome::Good | Outcome::Over => Ok(Way {
                    outcome: Outcome::Over,
                    number: given,
                }),
                Outcome::Bad(_) => Ok(handled),
            };
        }
        Ok(way)
    }

    /// The walk of a node on a number.
    #[cycle(walking)]
    fn walk(&mut self, depth: u32, node: NodeNo, given: i64) -> Result<Way, Wrong> {
        let depth = below(depth)?;
        let locks = self.locks(node);
        self.takes(locks)?;
        self.expect(Wanted::Enter(node))?;
        let way = self.body(depth, node, given)?;
        self.expect(Wanted::Exit(node, way.outcome))?;
        self.drops(locks)?;
        self.handle(depth, node, given, way)
    }
}

/// The flow's own events are its target's walk, and its end.
fn check_walk(plain: Plain, entries: &[Entry], flow: FlowNo) -> Result<(), Wrong> {
    let Some(given) = plain.given.get(flow.0 as usize) else {
        return Err(Wrong::Breaks(Rule::Flow));
    };
    let Some(line) = plain.program.sources.get(given.source as usize) else {
        return Err(Wrong::Breaks(Rule::Flow));
    };
    let mut walker = Walker {
        plain,
        flow,
        left: entries,
    };
    let way = walker.walk(DEPTH, line.target, given.number)?;
    walker.end(way)
}

/// Each flow's own events are one whole walk, and there are no other flows.
pub fn check_walks(plain: Plain, entries: &[Entry]) -> Result<(), Wrong> {
    let Ok(flows) = u32::try_from(plain.given.len()) else {
        return Err(Wrong::Breaks(Rule::Flow));
    };
    for entry in entries {
        check_that(entry.flow.0 < flows, Rule::Flow)?;
    }
    for flow in 0..flows {
        check_walk(plain, entries, FlowNo(flow))?;
    }
    Ok(())
}
