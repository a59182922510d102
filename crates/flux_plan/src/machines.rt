//! What the instructions of a plan do.

ghost use Rattle.std.specs.Prelude.{◌≡◌, ◌+◌, ◌<◌, ◌^◌, length, reverse};
ghost use Rattle.flow_model.specs.Matching.{pattern_matches, patterns_match, all_match, handler_for};
ghost use Rattle.flux_plan.specs.Machine.{first_arm, step, going_to, over_after};
ghost use Rattle.flux_plan.specs.Faulty.{IsVerified, IsSized};
ghost use Rattle.flux_plan.specs.steps.Placed.{IsPlaced};
ghost use Rattle.flux_plan.specs.steps.Turns.{StandsAt, fitting, found_place, IsTurn, IsGoTurn, IsHandleTurn, IsCursorPlaced, cursor, Lands};

use crate::handlers::handler_for;
use crate::plans::{Arm, Instr, Plan};
use crate::stacks::Frame;
use flow_model::Outcome;
use flux_library::Library;
use flux_model::{HandleArm, NodeNo, Program};
use flux_values::Value;

/// The code of a failure of a node none of whose cases matches.
const NO_CASE: u16 = 256;

/// A plan, and what its choices go by: the names of predicates, and a library.
#[derive(Drop)]
pub struct Machine<'a, L: Library> {
    pub plan: &'a Plan,
    pub program: &'a Program,
    pub library: &'a L,
}

/// What is entered after silent steps.
#[derive(Clone, Copy)]
pub enum Entering {
    Nothing,
    /// A node, with the values at hand.
    Node(NodeNo),
    /// A handler, with the frame's inputs.
    Handler(NodeNo),
}

/// The silent step of a frame.
#[derive(Clone, Copy)]
pub enum Turn {
    /// To another place of the same segment.
    To(u32, Outcome),
    /// Out of the frame.
    Out,
    /// The frame stays at a place. Either something is entered, or there is no silent step.
    Stop(u32, Entering),
}

/// Where silent steps lead to: so many frames stay, the innermost of them at a place, and perhaps a node is entered.
#[derive(Clone, Copy)]
pub struct Landing {
    pub depth: usize,
    pub place: u32,
    pub outcome: Outcome,
    pub entering: Entering,
}

impl<L: Library> Machine<'_, L> {
    fn pattern_matches(&self, pattern: Option<u32>, value: &Value) -> bool
        ensures { let meaning = L.meaning self.now.library.now in
            result ≡ pattern_matches meaning self.now.program.now.predicates pattern value.now }
    {
        let Some(number) = pattern else {
            return true;
        };
        let Some(name) = self.program.predicates.get(number as usize) else {
            return false;
        };
        match self.library.predicate(name.as_bytes()) {
            Some(kind) => kind == value.kind() && self.library.test(name.as_bytes(), value),
            None => false,
        }
    }

    fn all_match(&self, patterns: &[Option<u32>], values: &[Value]) -> bool
        ensures { let meaning = L.meaning self.now.library.now in
            result ≡ all_match meaning self.now.program.now.predicates patterns.now values.now }
    {
        let mut left = patterns;
        let mut rest = values;
        while let [pattern, patterns @ ..] = left {
            let [value, values @ ..] = rest else {
                return false;
            };
            if !self.pattern_matches(*pattern, value) {
                return false;
            }
            left = patterns;
            rest = values;
        }
        rest.is_empty()
    }

    fn matches(&self, patterns: &[Option<u32>], values: &[Value]) -> bool
        ensures { let meaning = L.meaning self.now.library.now in
            result ≡ patterns_match meaning self.now.program.now.predicates patterns.now values.now }
    {
        patterns.is_empty() || self.all_match(patterns, values)
    }
}

impl<L: Library> Machine<'_, L> {
    /// The number of the first arm that matches, from 1, and its place.
    pub fn first_arm(&self, arms: &[Arm], values: &[Value]) -> Option<(u32, u32)>
        requires { length arms.now < 2 ^ 32 }
        ensures { let meaning = L.meaning self.now.library.now in
            let fits = fitting meaning self.now.program.now.predicates values.now in
            result ≡ found_place (first_arm fits 1 arms.now) }
    {
        let mut passed = 0;
        let mut rest = arms;
        while let [arm, others @ ..] = rest {
            if self.matches(arm.patterns.as_slice(), values) {
                return Some((passed + 1, arm.to));
            }
            passed += 1;
            rest = others;
        }
        None
    }
}

impl Plan {
    /// The segment's `exit`, and the instruction at a place of a node's segment.
    #[inline(always)]
    pub fn at(&self, node: NodeNo, place: u32) -> (u32, &Instr)
        requires verified { IsVerified self.now }
        requires sized { IsSized self.now }
        requires placed { IsPlaced self.now node.0 place }
        ensures { StandsAt self.now node.0 place result.0 result.1.now }
    {
        let Some(segment) = self.segments.get(node) else {
            unreachable!()
        };
        let Some(instr) = segment.code.get(place as usize) else {
            unreachable!()
        };
        (segment.exit, instr)
    }
}

impl<L: Library> Machine<'_, L> {
    /// The silent step of the innermost frame at a place.
    #[inline(always)]
    fn turn(
        &self,
        frame: &Frame,
        place: u32,
        below: &[Frame],
        values: &[Value],
        outcome: Outcome,
    ) -> Turn
        requires verified { IsVerified self.now.plan.now }
        requires sized { IsSized self.now.plan.now }
        requires placed { IsPlaced self.now.plan.now frame.now.node.0 place }
        ensures { let meaning = L.meaning self.now.library.now in
            let matches = patterns_match meaning self.now.program.now.predicates in
            let state = going_to place frame.now (reverse below.now) values.now outcome in
            IsTurn frame.now place (reverse below.now) values.now outcome
            (step self.now.plan.now.segments matches state) result }
    {
        let (exit, instr) = self.plan.at(frame.node, place);
        match instr {
            Instr::Go(node) => go_turn(exit, place, *node, outcome),
            Instr::Leave => Turn::To(exit, outcome),
            Instr::Choose(arms) => match self.first_arm(arms.as_slice(), values) {
                Some(_) => Turn::Stop(place, Entering::Nothing),
                None => Turn::To(exit, Outcome::Bad(NO_CASE)),
            },
            Instr::Handle(arms) => handle_turn(place, arms.as_slice(), outcome),
            Instr::EndHandle => Turn::To(place + 1, over_after(outcome)),
            Instr::Return if !below.is_empty() => Turn::Out,
            Instr::Return
            | Instr::Take(_, _)
            | Instr::Enter
            | Instr::Call
            | Instr::Exit
            | Instr::Drop(_) => Turn::Stop(place, Entering::Nothing),
        }
    }

    /// Where the silent steps from a place of the innermost frame lead to.
    #[inline(always)]
    pub fn land(&self, frames: &[Frame], place: u32, values: &[Value], outcome: Outcome) -> Landing
        requires verified { IsVerified self.now.plan.now }
        requires sized { IsSized self.now.plan.now }
        requires some { 0 < length frames.now }
        requires placed { IsCursorPlaced self.now.plan.now frames.now place }
        ensures { let meaning = L.meaning self.now.library.now in
            let matches = patterns_match meaning self.now.program.now.predicates in
            let start = cursor frames.now place values.now outcome in
            Lands self.now.plan.now matches frames.now start values.now result }
    {
        let mut rest = frames;
        let mut place = place;
        let mut outcome = outcome;
        while let [below @ .., top] = rest {
            match self.turn(top, place, below, values, outcome) {
                Turn::To(next, after) => {
                    place = next;
                    outcome = after;
                }
                Turn::Out => {
                    rest = below;
                    if let [.., next] = rest {
                        place = next.place;
                    }
                }
                Turn::Stop(place, entering) => {
                    return Landing {
                        depth: rest.len(),
                        place,
                        outcome,
                        entering,
                    };
                }
            }
        }
        unreachable!()
    }
}

/// Into a node while all is well, and else to `exit`.
fn go_turn(exit: u32, place: u32, node: NodeNo, outcome: Outcome) -> Turn
    requires { place + 1 < 2 ^ 32 }
    ensures { IsGoTurn exit place node outcome result }
{
    match outcome {
        Outcome::Good => Turn::Stop(place + 1, Entering::Node(node)),
        Outcome::Over | Outcome::Bad(_) => Turn::To(exit, outcome),
    }
}

/// Into a failure's handler, if it has one, and else two places on.
fn handle_turn(place: u32, arms: &[HandleArm], outcome: Outcome) -> Turn
    requires { place + 2 < 2 ^ 32 }
    ensures { IsHandleTurn place arms.now outcome result }
{
    let handler = match outcome {
        Outcome::Bad(code) => handler_for(arms, code),
        Outcome::Good | Outcome::Over => None,
    };
    match handler {
        Some(node) => Turn::Stop(place + 1, Entering::Handler(node)),
        None => Turn::To(place + 2, outcome),
    }
}

fn over_after(outcome: Outcome) -> Outcome
    ensures { result ≡ over_after outcome }
{
    match outcome {
        Outcome::Good => Outcome::Over,
        Outcome::Over | Outcome::Bad(_) => outcome,
    }
}
