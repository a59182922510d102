//! A call, and the library's answer.

ghost use Rattle.std.specs.Prelude.{◌≡◌, ◌<◌, IfOk, length, option_map};
ghost use Rattle.std.specs.Arc.{arc_value};
ghost use Rattle.flow_model.specs.declared.journals.Event.TheVariants as events;
ghost use Rattle.flow_state.specs.Calls.{library_name, IsReady, IsAnswerOf, IsNextCall};
ghost use Rattle.flow_state.specs.States.{setup_at};
ghost use Rattle.flux_audit.specs.steps.Checks.{IsChecked};

use crate::sameness::{same_answer, same_coming, same_values};
use crate::verdicts::Rule;
use flow_model::CallMade;
use flow_state::{Coming, Inputs, Setup, State};
use flux_library::Library;
use flux_model::{Body, FlowNo, NodeNo, Program};
use flux_values::{Answer, Memory};
use std::alloc::Global;

/// The library name of a concrete node.
fn library_name(p: &Program, node: NodeNo) -> Option<&[u8]>
    ensures { option_map (λ name. name.now) result ≡ library_name p.now node }
{
    match &p.nodes.get(node.0 as usize)?.body {
        Body::Concrete(name) => Some(name.as_bytes()),
        Body::Abstract(_) => None,
    }
}

/// What the library answers to a call.
fn answer_of<L: Library>(alloc: Global, setup: &Setup<L>, inputs: &Inputs) -> Result<Answer, Memory>
    requires { IsReady (L.meaning (arc_value setup.now.library)) (arc_value setup.now.program)
        inputs.now }
    ensures { IfOk result (IsAnswerOf (L.meaning (arc_value setup.now.library))
        (arc_value setup.now.program) inputs.now) }
{
    let Some(name) = library_name(&setup.program, inputs.node) else {
        unreachable!()
    };
    setup.library.call(alloc, name, inputs.args.as_slice(), inputs.cells.as_slice())
}

/// Makes a call with the library's answer, or names the rule that another answer breaks.
fn check_answer<L: Library>(
    state: &mut State<L>,
    flow: FlowNo,
    made: &CallMade,
    inputs: &Inputs,
    answer: &Answer,
) -> Result<Option<Rule>, Memory>
    requires flow { flow.0 < length state.old.setup.items }
    requires next { IsNextCall (setup_at L.meaning state.old) state.old.entries flow.0 inputs.now }
    requires right { IsAnswerOf (L.meaning state.old.setup.library) state.old.setup.program inputs.now
        answer.now }
    requires node { inputs.now.node ≡ made.now.node }
    requires args { inputs.now.args ≡ made.now.args }
    ensures { IfOk result (IsChecked L.meaning state.old state.new flow (events.Call made.now)) }
{
    if !same_answer(answer, made.answer.as_answer()) {
        return Ok(Some(Rule::Answer));
    }
    // With the call as the journal has it: its answer is the same, and can be shared.
    state.answer(flow, made)?;
    Ok(None)
}

/// Makes a call of the node that comes, or names the first rule that it breaks with what its flow is given.
fn check_inputs<L: Library>(
    state: &mut State<L>,
    flow: FlowNo,
    made: &CallMade,
    inputs: &Inputs,
) -> Result<Option<Rule>, Memory>
    requires flow { flow.0 < length state.old.setup.items }
    requires next { IsNextCall (setup_at L.meaning state.old) state.old.entries flow.0 inputs.now }
    requires ready { IsReady (L.meaning state.old.setup.library) state.old.setup.program inputs.now }
    requires node { inputs.now.node ≡ made.now.node }
    ensures { IfOk result (IsChecked L.meaning state.old state.new flow (events.Call made.now)) }
{
    if !same_values(inputs.args.as_slice(), made.args.as_slice()) {
        return Ok(Some(Rule::Path));
    }
    let answer = answer_of(state.alloc(), state.setup(), inputs)?;
    check_answer(state, flow, made, inputs, &answer)
}

/// Makes a call, or names the first rule that it breaks.
pub fn check_call<L: Library>(
    state: &mut State<L>,
    flow: FlowNo,
    made: &CallMade,
) -> Result<Option<Rule>, Memory>
    requires { flow.0 < length state.old.setup.items }
    ensures { IfOk result (IsChecked L.meaning state.old state.new flow (events.Call made.now)) }
{
    if !same_coming(state.next(flow), Coming::Call(made.node)) {
        return Ok(Some(Rule::Path));
    }
    let inputs = state.inputs(flow, made.node)?;
    check_inputs(state, flow, made, &inputs)
}
