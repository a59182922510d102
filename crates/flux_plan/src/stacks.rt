//! The state of a flow that has begun.

ghost use Rattle.std.specs.Prelude.{◌≡◌, ◌<◌, ◌≤◌, [], ◌∷◌, ◌++◌, length, take, reverse, Some, IsSome, IfOk, OnOk, OnErr};
ghost use Rattle.flow_model.specs.declared.journals.Outcome.TheVariants as outcomes;
ghost use Rattle.flow_model.specs.Carried.{good_values};
ghost use Rattle.flow_model.specs.Matching.{patterns_match};
ghost use Rattle.flux_plan.specs.Machine.{step, answered, entering};
ghost use Rattle.flux_plan.specs.Moves.{next_by, IsEvent, called_over};
ghost use Rattle.flux_plan.specs.Faulty.{IsVerified, IsSized};
ghost use Rattle.flux_plan.specs.steps.Placed.{ArePlaced};
ghost use Rattle.flux_plan.specs.steps.Stacks.{state_of, IsBlank};
ghost use Rattle.flux_plan.specs.steps.Turns.{landed, cursor, entered_over, with_place, IsBehind, MovesOn, IsTaken};

use crate::locals::Next;
use crate::machines::{Entering, Landing, Machine};
use crate::plans::{Instr, Plan};
use flow_model::{Carried, Outcome, SharedAnswer};
use flux_library::Library;
use flux_model::NodeNo;
use flux_values::{CallResult, Memory};
use std::alloc::Global;

/// A node that was entered, the place of the instruction that comes next in its segment, and the values with which it
/// was entered.
#[derive(Drop)]
pub struct Frame {
    pub node: NodeNo,
    pub place: u32,
    pub inputs: Carried,
}

/// The frames of the nodes that were entered and not left, the outermost first; the values at hand; and how all came
/// out so far.
#[derive(Drop)]
pub struct Stack {
    pub alloc: Global,
    pub frames: Vec<Frame>,
    pub values: Carried,
    pub outcome: Outcome,
}

impl Stack {
    /// No frames, and values at hand.
    pub fn new(alloc: Global, values: Carried) -> Stack
        ensures blank { IsBlank result }
        ensures values { result.values ≡ values }
    {
        Stack {
            alloc,
            frames: Vec::new(alloc),
            values,
            outcome: Outcome::Good,
        }
    }

    /// Enters a node over so many frames, with the values at hand and all being well.
    #[inline(always)]
    fn enter(&mut self, depth: usize, frame: Frame) -> Result<(), Memory>
        requires most { depth ≤ length self.old.frames.items }
        requires inputs { frame.inputs ≡ self.old.values }
        ensures frames { OnOk result
            (self.new.frames.items ≡ take depth self.old.frames.items ++ frame ∷ []) }
        ensures values { OnOk result (self.new.values ≡ frame.inputs) }
        ensures outcome { OnOk result (self.new.outcome ≡ outcomes.Good) }
        ensures err { OnErr result (state_of self.new ≡ state_of self.old) }
    {
        self.frames.insert(depth, frame)?;
        self.frames.truncate(depth + 1);
        self.outcome = Outcome::Good;
        Ok(())
    }

    /// Enters the target, with the values at hand.
    pub fn begin(&mut self, target: NodeNo) -> Result<(), Memory>
        requires { IsBlank self.old }
        ensures ok { OnOk result (state_of self.new ≡ entering target self.old.values []) }
        ensures err { OnErr result (state_of self.new ≡ state_of self.old) }
    {
        let inputs = self.values.share()?;
        let frame = Frame {
            node: target,
            place: 0,
            inputs,
        };
        self.enter(0, frame)
    }

    /// Enters a node with the values at hand over so many frames, the innermost of which goes to a place.
    #[inline(always)]
    fn enter_over(
        &mut self,
        depth: usize,
        place: u32,
        node: NodeNo,
        inputs: Carried,
    ) -> Result<(), Memory>
        requires some { 0 < depth }
        requires most { depth ≤ length self.old.frames.items }
        requires inputs { inputs ≡ self.old.values }
        ensures ok { OnOk result (state_of self.new ≡
            entered_over node inputs place (reverse (take depth self.old.frames.items))) }
        ensures err { OnErr result (state_of self.new ≡ state_of self.old) }
    {
        let frame = Frame {
            node,
            place: 0,
            inputs,
        };
        self.enter(depth, frame)?;
        go_to(&mut self.frames, depth - 1, place);
        Ok(())
    }

    /// Leaves all but so many frames, the innermost of which goes to a place.
    #[inline(always)]
    fn leave(&mut self, depth: usize, place: u32, outcome: Outcome)
        requires some { 0 < depth }
        requires most { depth ≤ length self.old.frames.items }
        ensures { state_of self.new ≡
            cursor (take depth self.old.frames.items) place self.old.values outcome }
    {
        self.frames.truncate(depth);
        go_to(&mut self.frames, depth - 1, place);
        self.outcome = outcome;
    }

    /// Goes where silent steps lead to.
    #[inline(always)]
    fn settle(&mut self, landing: Landing) -> Result<(), Memory>
        requires some { 0 < landing.depth }
        requires most { landing.depth ≤ length self.old.frames.items }
        ensures ok { OnOk result
            (state_of self.new ≡ landed landing self.old.frames.items self.old.values) }
        ensures err { OnErr result (state_of self.new ≡ state_of self.old) }
    {
        let Landing { depth, place, .. } = landing;
        match landing.entering {
            Entering::Nothing => {
                self.leave(depth, place, landing.outcome);
                Ok(())
            }
            Entering::Node(node) => {
                let inputs = self.values.share()?;
                self.enter_over(depth, place, node, inputs)
            }
            Entering::Handler(node) => {
                let inputs = self.frames[depth - 1].inputs.share()?;
                let values = std::mem::replace(&mut self.values, inputs.share()?);
                match self.enter_over(depth, place, node, inputs) {
                    Ok(()) => Ok(()),
                    Err(memory) => {
                        self.values = values;
                        Err(memory)
                    }
                }
            }
        }
    }

    /// The place of the innermost frame after the event that comes next; none where the flow ends.
    #[inline(always)]
    fn behind<L: Library>(&self, machine: &Machine<'_, L>) -> Option<u32>
        requires verified { IsVerified machine.now.plan.now }
        requires sized { IsSized machine.now.plan.now }
        requires placed { ArePlaced machine.now.plan.now (reverse self.now.frames.items) }
        requires event { let meaning = L.meaning machine.now.library.now in
            let matches = patterns_match meaning machine.now.program.now.predicates in
            IsEvent (next_by (step machine.now.plan.now.segments matches (state_of self.now))) }
        ensures { let meaning = L.meaning machine.now.library.now in
            let matches = patterns_match meaning machine.now.program.now.predicates in
            IsBehind self.now.frames.items self.now.values self.now.outcome
            (step machine.now.plan.now.segments matches (state_of self.now)) result }
    {
        let Some(top) = self.frames.last() else {
            unreachable!()
        };
        let (_, instr) = machine.plan.at(top.node, top.place);
        match instr {
            Instr::Take(_, _) | Instr::Enter | Instr::Exit | Instr::Drop(_) => Some(top.place + 1),
            Instr::Choose(arms) => match machine.first_arm(
                arms.as_slice(),
                self.values.as_slice(),
            ) {
                Some((_, to)) => Some(to),
                None => unreachable!(),
            },
            Instr::Return => None,
            Instr::Go(_) | Instr::Leave | Instr::Call | Instr::Handle(_) | Instr::EndHandle => {
                unreachable!()
            }
        }
    }

    /// Makes the event that comes next, and the silent steps after it.
    #[inline(always)]
    pub fn advance<L: Library>(&mut self, machine: &Machine<'_, L>) -> Result<(), Memory>
        requires verified { IsVerified machine.now.plan.now }
        requires sized { IsSized machine.now.plan.now }
        requires placed { ArePlaced machine.now.plan.now (reverse self.old.frames.items) }
        requires event { let meaning = L.meaning machine.now.library.now in
            let matches = patterns_match meaning machine.now.program.now.predicates in
            IsEvent (next_by (step machine.now.plan.now.segments matches (state_of self.old))) }
        ensures ok { let meaning = L.meaning machine.now.library.now in
            let matches = patterns_match meaning machine.now.program.now.predicates in
            OnOk result (MovesOn machine.now.plan.now matches (state_of self.old) (state_of self.new)) }
        ensures err { OnErr result (state_of self.new ≡ state_of self.old) }
    {
        match self.behind(machine) {
            Some(place) => {
                let values = self.values.as_slice();
                let landing = machine.land(&self.frames, place, values, self.outcome);
                self.settle(landing)
            }
            None => {
                self.frames = Vec::new(self.alloc);
                Ok(())
            }
        }
    }

    /// What comes next, at rest.
    #[inline(always)]
    pub fn next<L: Library>(&self, machine: &Machine<'_, L>) -> Next
        requires verified { IsVerified machine.now.plan.now }
        requires sized { IsSized machine.now.plan.now }
        requires placed { ArePlaced machine.now.plan.now (reverse self.now.frames.items) }
        requires rests { let meaning = L.meaning machine.now.library.now in
            let matches = patterns_match meaning machine.now.program.now.predicates in
            IsSome (next_by (step machine.now.plan.now.segments matches (state_of self.now))) }
        ensures { let meaning = L.meaning machine.now.library.now in
            let matches = patterns_match meaning machine.now.program.now.predicates in
            next_by (step machine.now.plan.now.segments matches (state_of self.now)) ≡ Some result }
    {
        let Some(top) = self.frames.last() else {
            return Next::Ended;
        };
        let (_, instr) = machine.plan.at(top.node, top.place);
        match instr {
            Instr::Take(class, mode) => Next::Take(*class, *mode),
            Instr::Enter => Next::Enter(top.node),
            Instr::Choose(arms) => match machine.first_arm(
                arms.as_slice(),
                self.values.as_slice(),
            ) {
                Some((number, _)) => Next::Choose(number),
                None => unreachable!(),
            },
            Instr::Call => Next::Call(top.node),
            Instr::Exit => Next::Exit(top.node, self.outcome),
            Instr::Drop(class) => Next::Drop(*class),
            Instr::Return => Next::End(self.outcome),
            Instr::Go(_) | Instr::Leave | Instr::Handle(_) | Instr::EndHandle => unreachable!(),
        }
    }

    /// Takes the values of an answer, which are at hand, or its failure.
    fn take_result(&mut self, answer: &SharedAnswer, values: Carried)
        requires { values ≡ good_values answer.now.result }
        ensures frames { self.new.frames.items ≡ self.old.frames.items }
        ensures taken { IsTaken answer.now.result self.old self.new }
    {
        match &answer.as_answer().result {
            CallResult::Good(_) => self.values = values,
            CallResult::Bad(code) => self.outcome = Outcome::Bad(*code),
        }
    }

    /// Takes the answer of the call that comes next, with its values. After it comes `Exit`.
    pub fn answer(&mut self, plan: &Plan, answer: &SharedAnswer, values: Carried)
        requires values { values ≡ good_values answer.now.result }
        requires verified { IsVerified plan.now }
        requires sized { IsSized plan.now }
        requires placed { ArePlaced plan.now (reverse self.old.frames.items) }
        requires call { IsSome (called_over plan.now.segments (reverse self.old.frames.items)) }
        ensures { state_of self.new ≡ answered (state_of self.old) answer.now }
    {
        let Some(top) = self.frames.last() else {
            unreachable!()
        };
        let (exit, _) = plan.at(top.node, top.place);
        self.take_result(answer, values);
        let innermost = self.frames.len() - 1;
        go_to(&mut self.frames, innermost, exit);
    }
}

fn go_to(frames: &mut Vec<Frame>, at: usize, place: u32)
    requires { at < length frames.old.items }
    ensures { frames.new.items ≡ with_place frames.old.items at place }
{
    frames[at].place = place;
}

impl Stack {
    /// The same stack once more.
    pub fn copy(&self) -> Result<Stack, Memory>
        ensures frames { IfOk result (λ copied. copied.frames.items ≡ self.now.frames.items) }
        ensures values { IfOk result (λ copied. copied.values ≡ self.now.values) }
        ensures outcome { IfOk result (λ copied. copied.outcome ≡ self.now.outcome) }
    {
        Ok(Stack {
            alloc: self.alloc,
            frames: copy_frames(self.alloc, &self.frames)?,
            values: self.values.share()?,
            outcome: self.outcome,
        })
    }
}

fn copy_frames(alloc: Global, frames: &[Frame]) -> Result<Vec<Frame>, Memory>
    ensures { IfOk result (λ copied. copied.items ≡ frames.now) }
{
    let mut copied = Vec::new(alloc);
    for frame in frames {
        copied.push(Frame {
            node: frame.node,
            place: frame.place,
            inputs: frame.inputs.share()?,
        })?;
    }
    Ok(copied)
}
