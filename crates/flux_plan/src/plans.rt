//! Plans as data.

ghost use Rattle.std.specs.Prelude.{◌≡◌, IfOk, slice_get, option_copied};

use flux_model::{ClassNo, HandleArm, Mode, NodeNo};
use flux_values::{List, Memory};
use std::alloc::Global;
use std::marker::Model;
use std::sync::Arc;

/// What a flow does from a target on: one segment for each node of a program, by the nodes' numbers.
pub struct Plan {
    pub target: NodeNo,
    pub segments: Segments,
}

impl Drop for Plan {
    fn drop(self) {
        let Plan { target, segments } = self;
    }
}

/// The segments of all nodes, seen as a list. Plans of one program share them.
pub struct Segments {
    shared: Arc<List<Segment>>,
}

impl Drop for Segments {
    fn drop(self) {
        let Segments { shared } = self;
    }
}

impl Model for Segments {
    ghost use Rattle.std.specs.Prelude.{List};
    ghost use Rattle.std.specs.Arc.{arc_value};
    ghost use Rattle.flux_plan.specs.declared.plans.Segment.{Segment};

    ghost Value = { List Segment };

    ghost view = { λ s. arc_value s.shared };
}

impl Segments {
    pub fn new(alloc: Global, segments: List<Segment>) -> Result<Segments, Memory>
        ensures { IfOk result (λ all. all ≡ segments) }
    {
        Ok(Segments {
            shared: Arc::new(alloc, segments)?,
        })
    }

    /// The same segments once more.
    pub fn share(&self) -> Result<Segments, Memory>
        ensures { IfOk result (λ all. all ≡ self.now) }
    {
        Ok(Segments {
            shared: Arc::try_clone(&self.shared)?,
        })
    }

    pub fn as_slice(&self) -> &[Segment]
        ensures { result.now ≡ self.now }
    {
        self.shared.as_slice()
    }

    pub fn get(&self, node: NodeNo) -> Option<&Segment>
        ensures { option_copied result ≡ slice_get self.now node.0 }
    {
        self.shared.get(node.0 as usize)
    }
}

/// What a flow does in one node.
pub struct Segment {
    pub code: List<Instr>,
    /// The place of `Exit` in the code.
    pub exit: u32,
}

impl Drop for Segment {
    fn drop(self) {
        let Segment { code, exit } = self;
    }
}

pub enum Instr {
    Take(ClassNo, Mode),
    Enter,
    /// Goes to the first arm that matches.
    Choose(List<Arm>),
    /// Runs another node's segment, where all went well so far.
    Go(NodeNo),
    /// Ends an arm.
    Leave,
    Call,
    Exit,
    Drop(ClassNo),
    /// Runs the segment of a failure's handler.
    Handle(List<HandleArm>),
    EndHandle,
    Return,
}

impl Drop for Instr {
    fn drop(self) {
        match self {
            Instr::Take(_, _) => {}
            Instr::Enter => {}
            Instr::Choose(_) => {}
            Instr::Go(_) => {}
            Instr::Leave => {}
            Instr::Call => {}
            Instr::Exit => {}
            Instr::Drop(_) => {}
            Instr::Handle(_) => {}
            Instr::EndHandle => {}
            Instr::Return => {}
        }
    }
}

/// A case: its patterns, and the place in the code where its members begin.
pub struct Arm {
    pub patterns: List<Option<u32>>,
    pub to: u32,
}

impl Drop for Arm {
    fn drop(self) {
        let Arm { patterns, to } = self;
    }
}
