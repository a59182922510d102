//! Calls that are begun: what they are given, and what they answer.

ghost use Rattle.std.specs.Prelude.{◌≡◌, IfOk, option_map};
ghost use Rattle.std.specs.Arc.{arc_value};
ghost use Rattle.flow_state.specs.Calls.{library_name, IsReady, IsAnswerOf};

use flow_model::SharedAnswer;
use flow_state::Inputs;
use flux_library::Library;
use flux_model::{Body, FlowNo, NodeNo, Program};
use flux_values::{Answer, Cell, Memory, Value};
use std::alloc::Global;
use std::marker::Model;
use std::sync::Arc;

/// A begun call, which a core and its jobs share, seen as its inputs.
#[derive(Drop)]
pub struct Begun {
    shared: Arc<Inputs>,
}

impl Model for Begun {
    ghost use Rattle.std.specs.Arc.{arc_value};
    ghost use Rattle.flow_state.specs.declared.inputs.Inputs.{Inputs};
    ghost use Rattle.flow_state.specs.contracts.inputs.Inputs as inputs;

    ghost Value = { Inputs };

    ghost coded = { inputs.the_row.coded };

    ghost view = { λ b. arc_value b.shared };
}

impl Begun {
    pub fn new(alloc: Global, inputs: Inputs) -> Result<Begun, Memory>
        ensures { IfOk result (λ begun. begun ≡ inputs) }
    {
        Ok(Begun {
            shared: Arc::new(alloc, inputs)?,
        })
    }

    /// The same call once more.
    pub fn share(&self) -> Result<Begun, Memory>
        ensures { IfOk result (λ begun. begun ≡ self.now) }
    {
        Ok(Begun {
            shared: Arc::try_clone(&self.shared)?,
        })
    }

    pub fn as_inputs(&self) -> &Inputs
        ensures { result.now ≡ self.now }
    {
        &self.shared
    }
}

/// The library name of a concrete node.
pub fn library_name(p: &Program, node: NodeNo) -> Option<&[u8]>
    ensures { option_map (λ name. name.now) result ≡ library_name p.now node }
{
    match &p.nodes.get(node.0 as usize)?.body {
        Body::Concrete(name) => Some(name.as_bytes()),
        Body::Abstract(_) => None,
    }
}

/// The library's answer to a call.
pub fn answer_of<L: Library>(
    alloc: Global,
    program: &Program,
    library: &L,
    inputs: &Inputs,
) -> Result<SharedAnswer, Memory>
    requires { IsReady (L.meaning library.now) program.now inputs.now }
    ensures { IfOk result (IsAnswerOf (L.meaning library.now) program.now inputs.now) }
{
    let Some(name) = library_name(program, inputs.node) else {
        unreachable!()
    };
    let answer = library.call(alloc, name, inputs.args.as_slice(), inputs.cells.as_slice())?;
    SharedAnswer::new(alloc, answer)
}

/// A begun call, to be run wherever its runtime likes.
pub struct Job<L: Library> {
    flow: FlowNo,
    begun: Begun,
    program: Arc<Program>,
    library: Arc<L>,
}

impl<L: Library> Drop for Job<L> {
    fn drop(self) {
        let Job {
            flow,
            begun,
            program,
            library,
        } = self;
    }
}

impl<L: Library> Model for Job<L> {
    ghost use Rattle.std.specs.Arc.{arc_value};
    ghost use Rattle.flow_core.specs.States.{JobState, job_code};
    ghost use Rattle.flow_state.specs.Calls.{IsReady};

    ghost Value = { JobState L };

    ghost coded = { job_code L.code };

    ghost view = { λ j. record {
      flow = j.flow;
      inputs = j.begun;
      program = arc_value j.program;
      library = arc_value j.library;
    } };

    ghost invariant = { λ j. IsReady (L.meaning (arc_value j.library)) (arc_value j.program) j.begun };
}

/// A call that was run. It keeps that its answer is the library's for its own inputs. The journal's entry shares
/// its arguments and its answer.
pub struct CallDone<L: Library> {
    flow: FlowNo,
    begun: Begun,
    answer: SharedAnswer,
    program: Arc<Program>,
    library: Arc<L>,
}

impl<L: Library> Drop for CallDone<L> {
    fn drop(self) {
        let CallDone {
            flow,
            begun,
            answer,
            program,
            library,
        } = self;
    }
}

impl<L: Library> Model for CallDone<L> {
    ghost use Rattle.std.specs.Arc.{arc_value};
    ghost use Rattle.flow_core.specs.States.{DoneState, done_code};
    ghost use Rattle.flow_state.specs.Calls.{IsAnswerOf};

    ghost Value = { DoneState L };

    ghost coded = { done_code L.code };

    ghost view = { λ d. record {
      flow = d.flow;
      inputs = d.begun;
      answer = d.answer;
      program = arc_value d.program;
      library = arc_value d.library;
    } };

    ghost invariant = { λ d.
        IsAnswerOf (L.meaning (arc_value d.library)) (arc_value d.program) d.begun d.answer };
}

impl<L: Library> Job<L> {
    pub(crate) fn new(
        flow: FlowNo,
        begun: &Begun,
        program: &Arc<Program>,
        library: &Arc<L>,
    ) -> Result<Job<L>, Memory>
        requires { IsReady (L.meaning (arc_value library.now)) (arc_value program.now) begun.now }
        ensures { IfOk result (λ job. job ≡ record {
          flow = flow;
          inputs = begun.now;
          program = arc_value program.now;
          library = arc_value library.now;
        }) }
    {
        Ok(Job {
            flow,
            begun: begun.share()?,
            program: Arc::try_clone(program)?,
            library: Arc::try_clone(library)?,
        })
    }
}

impl<L: Library> Job<L> {
    pub fn flow(&self) -> FlowNo
        ensures { result ≡ self.now.flow }
    {
        self.flow
    }

    pub fn node(&self) -> NodeNo
        ensures { result ≡ self.now.inputs.node }
    {
        self.begun.shared.node
    }

    pub fn args(&self) -> &[Value]
        ensures { result.now ≡ self.now.inputs.args }
    {
        self.begun.shared.args.as_slice()
    }

    pub fn cells(&self) -> &[Cell]
        ensures { result.now ≡ self.now.inputs.cells }
    {
        self.begun.shared.cells.as_slice()
    }

    /// Makes the call.
    pub fn run(&self, alloc: Global) -> Result<CallDone<L>, Memory>
        ensures flow { IfOk result (λ done. done.flow ≡ self.now.flow) }
        ensures inputs { IfOk result (λ done. done.inputs ≡ self.now.inputs) }
        ensures program { IfOk result (λ done. done.program ≡ self.now.program) }
        ensures library { IfOk result (λ done. done.library ≡ self.now.library) }
    {
        let inputs = self.begun.as_inputs();
        Ok(CallDone {
            flow: self.flow,
            begun: self.begun.share()?,
            answer: answer_of(alloc, &self.program, &*self.library, inputs)?,
            program: Arc::try_clone(&self.program)?,
            library: Arc::try_clone(&self.library)?,
        })
    }
}

impl<L: Library> CallDone<L> {
    pub(crate) fn flow(&self) -> FlowNo
        ensures { result ≡ self.now.flow }
    {
        self.flow
    }

    pub(crate) fn inputs(&self) -> &Inputs
        ensures { result.now ≡ self.now.inputs }
    {
        self.begun.as_inputs()
    }
}

impl<L: Library> CallDone<L> {
    /// The library's answer, for the node's library name and the inputs.
    pub fn answer(&self) -> &Answer
        ensures same { result.now ≡ self.now.answer }
        ensures right { IsAnswerOf (L.meaning self.now.library) self.now.program self.now.inputs
            self.now.answer }
    {
        self.answer.as_answer()
    }

    /// The answer, which an entry may share.
    pub(crate) fn shared_answer(&self) -> &SharedAnswer
        ensures same { result.now ≡ self.now.answer }
        ensures right { IsAnswerOf (L.meaning self.now.library) self.now.program self.now.inputs
            self.now.answer }
    {
        &self.answer
    }
}
