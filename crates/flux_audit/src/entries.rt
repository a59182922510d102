//! One line, after the entries that a state has made.

ghost use Rattle.std.specs.Prelude.{◌≡◌, ◌<◌, Some, IfOk, length};
ghost use Rattle.flow_model.specs.declared.journals.Event.{Event};
ghost use Rattle.flow_model.specs.declared.journals.Event.TheVariants as events;
ghost use Rattle.flux_model.specs.Names.{IsNamed};
ghost use Rattle.flow_state.specs.Coming.{event_of};
ghost use Rattle.flow_state.specs.States.{setup_at};
ghost use Rattle.flux_audit.specs.steps.Checks.{IsPlain, IsChecked, IsLineChecked};

use crate::calls::check_call;
use crate::sameness::same_coming;
use crate::verdicts::Rule;
use flow_model::{Entry, Event, Key};
use flow_state::{Coming, State};
use flux_journal::{LineFault, LineReader};
use flux_library::Library;
use flux_model::{FlowNo, Mode};
use flux_values::Memory;

/// Makes an event that is neither a take nor a wait nor a call, or names the rule that it breaks.
fn check_plain<L: Library>(
    state: &mut State<L>,
    flow: FlowNo,
    coming: Coming,
) -> Result<Option<Rule>, Memory>
    requires flow { flow.0 < length state.old.setup.items }
    requires plain { IsPlain coming }
    ensures { (event : Event) → event_of coming ≡ Some event
        → IfOk result (IsChecked L.meaning state.old state.new flow event) }
{
    if !same_coming(state.next(flow), coming) {
        return Ok(Some(Rule::Path));
    }
    state.make(flow, coming)?;
    Ok(None)
}

/// Makes a take, or names the first rule that it breaks.
fn check_take<L: Library>(
    state: &mut State<L>,
    flow: FlowNo,
    key: Key,
    mode: Mode,
) -> Result<Option<Rule>, Memory>
    requires { flow.0 < length state.old.setup.items }
    ensures { IfOk result (IsChecked L.meaning state.old state.new flow (events.Take key mode)) }
{
    if !same_coming(state.next(flow), Coming::Take(key, mode)) {
        return Ok(Some(Rule::Path));
    }
    if state.holder(flow, key, mode).is_some() {
        return Ok(Some(Rule::Hold));
    }
    if state.ahead(flow, key, mode).is_some() {
        return Ok(Some(Rule::Turn));
    }
    state.make(flow, Coming::Take(key, mode))?;
    Ok(None)
}

/// Makes a wait, or names the first rule that it breaks.
fn check_wait<L: Library>(
    state: &mut State<L>,
    flow: FlowNo,
    key: Key,
    mode: Mode,
) -> Result<Option<Rule>, Memory>
    requires { flow.0 < length state.old.setup.items }
    ensures { IfOk result (IsChecked L.meaning state.old state.new flow (events.Wait key mode)) }
{
    if !same_coming(state.next(flow), Coming::Take(key, mode)) {
        return Ok(Some(Rule::Path));
    }
    if state.stands(flow) {
        return Ok(Some(Rule::Path));
    }
    if state.blocker(flow, key, mode).is_none() {
        return Ok(Some(Rule::Wait));
    }
    state.wait(flow, key, mode)?;
    Ok(None)
}

/// Makes an entry, or names the first rule that it breaks.
fn check_entry<L: Library>(state: &mut State<L>, entry: &Entry) -> Result<Option<Rule>, Memory>
    ensures { let own = entry.now in
        IfOk result (IsChecked L.meaning state.old state.new own.flow own.event) }
{
    let flow = entry.flow;
    if flow.0 >= state.flows() {
        return Ok(Some(Rule::Flow));
    }
    match &entry.event {
        Event::Take(key, mode) => check_take(state, flow, key.key(), *mode),
        Event::Wait(key, mode) => check_wait(state, flow, key.key(), *mode),
        Event::Enter(node) => check_plain(state, flow, Coming::Enter(*node)),
        Event::Choose(place) => check_plain(state, flow, Coming::Choose(*place)),
        Event::Call(made) => check_call(state, flow, made),
        Event::Exit(node, outcome) => check_plain(state, flow, Coming::Exit(*node, *outcome)),
        Event::Drop(key) => check_plain(state, flow, Coming::Drop(key.key())),
        Event::End(outcome) => check_plain(state, flow, Coming::End(*outcome)),
    }
}

/// Makes the entry that a line spells, or names the first rule that the line breaks.
pub fn check_line<L: Library>(
    reader: &LineReader<'_>,
    state: &mut State<L>,
    line: &[u8],
) -> Result<Option<Rule>, Memory>
    requires same { reader.now ≡ state.old.setup.program }
    requires named { IsNamed reader.now }
    ensures { IfOk result (IsLineChecked L.meaning state.old state.new line.now) }
{
    match reader.read_line(line) {
        Ok(entry) => check_entry(state, &entry),
        Err(LineFault::BadLine) => Ok(Some(Rule::Text)),
        Err(LineFault::Memory) => Err(Memory),
    }
}
