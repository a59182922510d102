//! Public calls that no program makes, each with its good answer: `enabled`, `drain`, and `at_call` and `cells` of a core;
//! `answered` of a plan; `print_log`, `print_item` and `print_value`; and `read_line`, with what it refuses too.

ghost use Rattle.std.specs.Prelude.{IsTrue, IfOk};
ghost use Rattle.flux_model.specs.Names.{IsNamed};
ghost use Rattle.flux_model.specs.Numbered.{IsNumbered};
ghost use Rattle.flow_model.specs.Matching.{patterns_match};
ghost use Rattle.flux_plan.specs.Moves.{IsReached};
ghost use Rattle.flux_compile.specs.Sources.{AreApart};

use flow_core::Core;
use flow_model::{Journal, Key, SharedAnswer};
use flow_waits::{drain, enabled};
use flux_compile::compile;
use flux_hoist::Checked;
use flux_journal::{LineFault, print_item, print_journal, print_log, read_line};
use flux_library::Library;
use flux_model::{ClassNo, FlowNo, Program};
use flux_plan::{Local, Next, VerifiedPlan, advance, answered, next};
use flux_spelling::print_value;
use flux_values::{Answer, Bytes, CallResult, List, Memory, Value};
use nodes_counter::Counter;
use std::alloc::Global;
use std::io::Write;
use trial_ends::Trouble;
use trial_programs::{COUNTING, checked_of, items_of, journal_of, numbers, open};

/// The most events of one flow that are made before its call.
const EVENT_LIMIT: u32 = 16;

/// The key of the class `counter`.
const COUNTER: Key = Key {
    class: ClassNo(0),
    id: None,
};

/// Whether there is such a flow, and its next event is a call.
fn is_at_call<L: Library>(core: &Core<L>, flow: u32) -> bool {
    flow < core.flows() && core.at_call(FlowNo(flow))
}

/// Lets a flow make its events up to its call, and tells how many these are.
fn go_to_call<L: Library>(core: &mut Core<L>, flow: u32) -> Result<u32, Trouble> {
    for events in 0..EVENT_LIMIT {
        if is_at_call(core, flow) {
            return Ok(events);
        }
        if flow >= core.flows() {
            return Err(Trouble::Wrong);
        }
        drop(core.step(FlowNo(flow))?);
    }
    Err(Trouble::Wrong)
}

/// The number of the flow that `enabled` names, or `none`.
fn tell_enabled(rt: &HostRuntime, core: &Core<Counter>) -> Result<(), Trouble> {
    match enabled(core) {
        Some(flow) => println!(rt; "enabled: {}", flow.0)?,
        None => println!(rt; "enabled: none")?,
    }
    Ok(())
}

/// Drains two flows, of which one was at its call, and tells who is enabled before and after, and whether the counter has a cell.
fn tell_drain(rt: &HostRuntime, core: &mut Core<Counter>) -> Result<(), Trouble> {
    tell_enabled(rt, core)?;
    let events = go_to_call(core, 0)?;
    println!(rt; "events before a call: {events}")?;
    drain(core)?;
    tell_enabled(rt, core)?;
    let has_cell = core.cells().cell(COUNTER).is_some();
    println!(rt; "the counter has a cell: {has_cell}")?;
    Ok(())
}

/// What two flows did that are drained.
fn drained(rt: &HostRuntime) -> Result<Journal, Trouble> {
    let given = numbers(rt.alloc(), 2)?;
    let mut core = open(rt.alloc(), COUNTING, given.as_slice(), Counter)?;
    let told = tell_drain(rt, &mut core);
    let journal = journal_of(core);
    told?;
    Ok(journal)
}

fn write_line(rt: &HostRuntime, text: &Bytes) -> Result<(), Trouble> {
    rt.stdout().write_all(text.as_bytes())?;
    println!(rt; "")?;
    Ok(())
}

/// Prints the journal as a log has it, an item, and a value.
fn tell_texts(rt: &HostRuntime, checked: &Checked, journal: &Journal) -> Result<(), Trouble> {
    let log = print_log(rt.alloc(), &checked.program, journal)?;
    rt.stdout().write_all(log.as_bytes())?;
    let given = numbers(rt.alloc(), 1)?;
    for item in &items_of(rt.alloc(), checked, given.as_slice())? {
        write_line(rt, &print_item(rt.alloc(), &checked.program, item)?)?;
    }
    write_line(rt, &print_value(rt.alloc(), &Value::Bool(true))?)
}

/// Lines that are read: one in another spelling than it is printed in, one that is cut off, and one of a node that isn't there.
const LINES: &[&[u8]] = &[
    b"1 call Add (-0) ok (007) put counter \"\\x74otal\" 7",
    b"1 call Add (0) ok (7",
    b"1 enter Sub",
];

/// Prints the one entry of a line again, or that the line has none.
fn tell_line(rt: &HostRuntime, program: &Program, line: &[u8]) -> Result<(), Trouble>
    requires numbered { IsNumbered program.now }
    requires named { IsNamed program.now }
{
    match read_line(rt.alloc(), program, line) {
        Ok(entry) => {
            let mut entries = List::new(rt.alloc());
            entries.add(entry)?;
            let text = print_journal(rt.alloc(), program, &Journal { entries })?;
            rt.stdout().write_all(text.as_bytes())?;
        }
        Err(LineFault::BadLine) => println!(rt; "a bad line")?,
        Err(LineFault::Memory) => return Err(Trouble::Memory),
    }
    Ok(())
}

/// An answer that gives one number.
fn one_number(alloc: Global, number: i64) -> Result<SharedAnswer, Memory> {
    let mut values = List::new(alloc);
    values.add(Value::Int(number))?;
    SharedAnswer::new(
        alloc,
        Answer {
            result: CallResult::Good(values),
            puts: List::new(alloc),
            emits: Bytes::new(alloc),
        },
    )
}

/// Makes a flow's next event, and tells whether that was no call and not its `End`. A call is answered.
fn go_on<L: Library>(
    program: &Program,
    plan: &VerifiedPlan,
    local: &mut Local,
    library: &L,
    answer: &SharedAnswer,
) -> Result<bool, Memory>
    requires { IsReached plan.now (patterns_match (L.meaning library.now) program.now.predicates) local.old }
    ensures { IfOk result (λ more. IsTrue more
        → IsReached plan.now (patterns_match (L.meaning library.now) program.now.predicates) local.new) }
{
    match next(program, plan, local, library) {
        Next::Call(_) => {
            answered(plan, local, answer)?;
            Ok(false)
        }
        Next::Ended => Ok(false),
        _ => {
            advance(program, plan, local, library)?;
            Ok(true)
        }
    }
}

/// Lets a flow of a plan go on to its first call, answers that, and tells whether one value is at hand then.
fn is_answered<L: Library>(
    alloc: Global,
    program: &Program,
    plan: &VerifiedPlan,
    library: &L,
) -> Result<bool, Trouble> {
    let answer = one_number(alloc, 7)?;
    let mut local = Local::new(alloc, List::new(alloc))?;
    for event in 0..EVENT_LIMIT {
        let _ = event;
        if !go_on(program, plan, &mut local, library, &answer)? {
            return Ok(local.args().len() == 1);
        }
    }
    Ok(false)
}

fn tell_answered(rt: &HostRuntime, checked: &Checked) -> Result<(), Trouble>
    requires { AreApart checked.now.program }
{
    let plans = compile(rt.alloc(), checked)?;
    for plan in &plans {
        let is_answered = is_answered(rt.alloc(), &checked.program, plan, &Counter)?;
        println!(rt; "a call of a plan is answered: {is_answered}")?;
    }
    Ok(())
}

/// Makes each of these calls, and tells what they give.
pub fn answer_calls(rt: &HostRuntime) -> Result<(), Trouble> {
    let journal = drained(rt)?;
    let checked = checked_of(rt.alloc(), COUNTING, &Counter)?;
    tell_texts(rt, &checked, &journal)?;
    for line in LINES {
        tell_line(rt, &checked.program, line)?;
    }
    tell_answered(rt, &checked)
}
