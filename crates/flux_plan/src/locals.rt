//! One flow's place in a plan.

ghost use Rattle.std.specs.Prelude.{◌≡◌, Some, IsSome, IfOk, OnOk, OnErr};
ghost use Rattle.flow_model.specs.Carried.{good_values};
ghost use Rattle.flow_model.specs.Matching.{patterns_match};
ghost use Rattle.flux_plan.specs.Machine.{fresh, values_at, state_in};
ghost use Rattle.flux_plan.specs.Moves.{next_in, IsEvent, called_in, Advances, answered_in};
ghost use Rattle.flux_plan.specs.Faulty.{IsVerified, IsSized};
ghost use Rattle.flux_plan.specs.steps.Placed.{AreAllPlaced};
ghost use Rattle.flux_plan.specs.steps.Turns.{IsFirst};

use crate::machines::Machine;
use crate::plans::{Instr, Plan};
use crate::stacks::Stack;
use flow_model::{Carried, Outcome, SharedAnswer};
use flux_library::Library;
use flux_model::{ClassNo, Mode, NodeNo};
use flux_values::{List, Memory, Value};
use std::alloc::Global;
use std::marker::Model;

/// One flow's place in a plan, seen as a `Position`: either the flow has just its values, or it is in a state.
pub struct Local {
    begun: bool,
    stack: Stack,
}

impl Drop for Local {
    fn drop(self) {
        let Local { begun, stack } = self;
    }
}

impl Model for Local {
    ghost use Rattle.flux_plan.specs.Machine.{Position};
    ghost use Rattle.flux_plan.specs.steps.Stacks.{position_of, IsLocal};

    ghost Value = { Position };

    ghost view = { position_of };

    ghost invariant = { IsLocal };
}

/// What a flow does next.
#[derive(Clone, Copy)]
pub enum Next {
    Take(ClassNo, Mode),
    Enter(NodeNo),
    /// The chosen case, from 1.
    Choose(u32),
    Call(NodeNo),
    Exit(NodeNo, Outcome),
    Drop(ClassNo),
    End(Outcome),
    /// Nothing: the flow has had its `End`.
    Ended,
}

impl Local {
    /// A flow that has just its values.
    pub fn new(alloc: Global, values: List<Value>) -> Result<Local, Memory>
        ensures { IfOk result (λ local. local ≡ fresh values) }
    {
        Ok(Local {
            begun: false,
            stack: Stack::new(alloc, Carried::new(alloc, values)?),
        })
    }

    /// The inputs of the node that comes next or is being called: the values at hand.
    pub fn args(&self) -> &[Value]
        ensures { result.now ≡ values_at self.now }
    {
        self.stack.values.as_slice()
    }

    /// The values at hand, to be shared with a call.
    pub fn share_args(&self) -> Result<Carried, Memory>
        ensures { IfOk result (λ args. args ≡ values_at self.now) }
    {
        self.stack.values.share()
    }

    /// The same place once more.
    pub fn copy(&self) -> Result<Local, Memory>
        ensures { IfOk result (λ copied. copied ≡ self.now) }
    {
        Ok(Local {
            begun: self.begun,
            stack: self.stack.copy()?,
        })
    }

    /// What comes next, at rest.
    #[inline(always)]
    pub fn next<L: Library>(&self, machine: &Machine<'_, L>) -> Next
        requires verified { IsVerified machine.now.plan.now }
        requires sized { IsSized machine.now.plan.now }
        requires placed { AreAllPlaced machine.now.plan.now (state_in machine.now.plan.now self.now) }
        requires rests { let meaning = L.meaning machine.now.library.now in
            let matches = patterns_match meaning machine.now.program.now.predicates in
            IsSome (next_in machine.now.plan.now matches self.now) }
        ensures { let meaning = L.meaning machine.now.library.now in
            let matches = patterns_match meaning machine.now.program.now.predicates in
            next_in machine.now.plan.now matches self.now ≡ Some result }
    {
        if self.begun {
            self.stack.next(machine)
        } else {
            first(machine.plan)
        }
    }

    /// Makes the event that comes next.
    #[inline(always)]
    pub fn advance<L: Library>(&mut self, machine: &Machine<'_, L>) -> Result<(), Memory>
        requires verified { IsVerified machine.now.plan.now }
        requires sized { IsSized machine.now.plan.now }
        requires placed { AreAllPlaced machine.now.plan.now (state_in machine.now.plan.now self.old) }
        requires event { let meaning = L.meaning machine.now.library.now in
            let matches = patterns_match meaning machine.now.program.now.predicates in
            IsEvent (next_in machine.now.plan.now matches self.old) }
        ensures ok { let meaning = L.meaning machine.now.library.now in
            let matches = patterns_match meaning machine.now.program.now.predicates in
            OnOk result (Advances machine.now.plan.now matches self.old self.new) }
        ensures err { OnErr result (self.new ≡ self.old) }
    {
        if self.begun {
            return self.stack.advance(machine);
        }
        self.stack.begin(machine.plan.target)?;
        self.begun = true;
        match self.stack.advance(machine) {
            Ok(()) => Ok(()),
            Err(memory) => {
                self.stack.frames.clear();
                self.begun = false;
                Err(memory)
            }
        }
    }

    /// The values of an answer, to be at hand after its call.
    pub fn carried(&self, answer: &SharedAnswer) -> Result<Carried, Memory>
        ensures { IfOk result (λ values. values ≡ good_values answer.now.result) }
    {
        Carried::from_answer(self.stack.alloc, answer)
    }

    /// Takes the answer of the call that comes next, with its values.
    pub fn answer(&mut self, plan: &Plan, answer: &SharedAnswer, values: Carried)
        requires values { values ≡ good_values answer.now.result }
        requires verified { IsVerified plan.now }
        requires sized { IsSized plan.now }
        requires placed { AreAllPlaced plan.now (state_in plan.now self.old) }
        requires call { IsSome (called_in plan.now self.old) }
        ensures { self.new ≡ answered_in plan.now self.old answer.now }
    {
        if self.begun {
            self.stack.answer(plan, answer, values)
        } else {
            unreachable!()
        }
    }
}

/// What comes next at the beginning.
fn first(plan: &Plan) -> Next
    requires verified { IsVerified plan.now }
    requires sized { IsSized plan.now }
    ensures { IsFirst plan.now result }
{
    let (_, instr) = plan.at(plan.target, 0);
    match instr {
        Instr::Take(class, mode) => Next::Take(*class, *mode),
        Instr::Enter => Next::Enter(plan.target),
        _ => unreachable!(),
    }
}
