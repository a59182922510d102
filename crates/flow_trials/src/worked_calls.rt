//! Worked sequences of calls: flows that are stepped and finished by hand, a call that is recalled and finished twice, what calls are
//! given and answered, and values at the edges of their spelling.

ghost use Rattle.std.specs.Prelude.{◌≡◌, ◌<◌, length};
ghost use Rattle.flow_state.specs.Calls.{library_name};

use crate::turns::{Turn, take_turn};
use flow_core::{CallDone, Core, Finish, Job, Step};
use flow_model::Journal;
use flux_journal::print_journal;
use flux_library::Library;
use flux_model::FlowNo;
use flux_spelling::{print_value, read_value};
use flux_values::{Answer, CallResult, TextBytes, TextFault, Value, ValueFault};
use nodes_counter::Counter;
use plain_journals::Given;
use std::alloc::Global;
use std::io::Write;
use trial_ends::Trouble;
use trial_programs::{COUNTING, FREE, checked_of, journal_of, numbers, open};

/// The most turns of a flow.
const TURN_LIMIT: u32 = 64;

/// Two flows that take the same two keys, of which the second takes both before it begins.
const CROSSING: &[u8] =
    b"Tick () => (int a);\nTick_2 () => (int a);\nPass_b (int a) => (int b);\nPass_d (int a) => (int b);\nsource Tick => A;\nsource Tick_2 => C;\nA = Pass_b;\nC = Pass_d;\natomic A:{x};\natomic Pass_b:{y};\natomic C:{y};\natomic Pass_d:{x};\n";

/// What the two sources give.
const TWO: &[Given] = &[
    Given {
        source: 0,
        number: 1,
    },
    Given {
        source: 1,
        number: 2,
    },
];

/// The spellings that are read.
const SPELLINGS: &[&[u8]] = &[
    b"-0 x",
    b"007",
    b"\"a\\x41\"",
    b"9223372036854775808",
    b"tru",
    b"",
];

/// One turn of a flow, which is there.
fn turn<L: Library>(alloc: Global, core: &mut Core<L>, flow: u32) -> Result<Turn, Trouble> {
    if flow >= core.flows() {
        return Err(Trouble::Wrong);
    }
    Ok(take_turn(alloc, core, FlowNo(flow))?)
}

/// Turns of a flow until it has ended.
fn end<L: Library>(alloc: Global, core: &mut Core<L>, flow: u32) -> Result<(), Trouble> {
    for _ in 0..TURN_LIMIT {
        if let Turn::Ended = turn(alloc, core, flow)? {
            return Ok(());
        }
    }
    Err(Trouble::Wrong)
}

/// The first flow takes its first key, the second finds it taken twice, and then each goes on to its end.
fn cross(alloc: Global, core: &mut Core<Counter>) -> Result<(), Trouble> {
    for flow in [0, 1, 1] {
        let _ = turn(alloc, core, flow)?;
    }
    end(alloc, core, 0)?;
    end(alloc, core, 1)
}

/// What the two flows did.
fn crossed(alloc: Global) -> Result<Journal, Trouble> {
    let mut core = open(alloc, CROSSING, TWO, Counter)?;
    let went = cross(alloc, &mut core);
    let journal = journal_of(core);
    went?;
    Ok(journal)
}

/// Prints the journal of two flows that are stepped and finished by hand.
fn tell_crossed(rt: &HostRuntime) -> Result<(), Trouble> {
    let journal = crossed(rt.alloc())?;
    let checked = checked_of(rt.alloc(), CROSSING, &Counter)?;
    let text = print_journal(rt.alloc(), &checked.program, &journal)?;
    Ok(rt.stdout().write_all(text.as_bytes())?)
}

/// The word for a turn by `step`, whose job, if there is one, is left as it is.
fn word_of<L: Library>(step: &Step<L>) -> &'static str {
    match step {
        Step::Ended => "ended",
        Step::Calling => "calling",
        Step::Waits { .. } => "waits",
        Step::Job(_) => "job",
        Step::Went => "went",
    }
}

/// One step of a flow, in a word.
fn tell_step<L: Library>(rt: &HostRuntime, core: &mut Core<L>, flow: u32) -> Result<(), Trouble> {
    if flow >= core.flows() {
        return Err(Trouble::Wrong);
    }
    let step = core.step(FlowNo(flow))?;
    println!(rt; "step: {}", word_of(&step))?;
    Ok(())
}

/// The call that a flow has begun, once more, if it has begun one.
fn recalled<L: Library>(core: &Core<L>, flow: u32) -> Result<Option<Job<L>>, Trouble> {
    if flow >= core.flows() {
        return Err(Trouble::Wrong);
    }
    Ok(core.recall(FlowNo(flow))?)
}

/// Finishes a call, and tells whether that came late.
fn tell_finish<L: Library>(
    rt: &HostRuntime,
    core: &mut Core<L>,
    done: &CallDone<L>,
) -> Result<(), Trouble>
    requires library { L.meaning done.now.library ≡ L.meaning core.old.setup.library }
    requires name { library_name done.now.program done.now.inputs.node
        ≡ library_name core.old.setup.program done.now.inputs.node }
    ensures { core.new.setup ≡ core.old.setup }
{
    match core.finish(done)? {
        Finish::Went => println!(rt; "finish: went")?,
        Finish::Late => println!(rt; "finish: late")?,
    }
    Ok(())
}

/// Recalls a flow's call, and finishes it twice.
fn finish_twice(rt: &HostRuntime, core: &mut Core<Counter>) -> Result<(), Trouble> {
    if core.flows() == 0 {
        return Err(Trouble::Wrong);
    }
    let Some(job) = core.recall(FlowNo(0))? else {
        return Err(Trouble::Wrong);
    };
    let done = job.run(rt.alloc())?;
    tell_finish(rt, core, &done)?;
    tell_finish(rt, core, &done)
}

/// Prints a value after a word.
fn tell_value(rt: &HostRuntime, word: &[u8], value: &Value) -> Result<(), Trouble> {
    let text = print_value(rt.alloc(), value)?;
    rt.stdout().write_all(word)?;
    rt.stdout().write_all(text.as_bytes())?;
    println!(rt; "")?;
    Ok(())
}

/// Prints what an answer gives, or its code, and how much it puts.
fn tell_answer(rt: &HostRuntime, answer: &Answer) -> Result<(), Trouble> {
    match &answer.result {
        CallResult::Good(values) => {
            for value in values {
                tell_value(rt, b"answer: gives ", value)?;
            }
        }
        CallResult::Bad(code) => println!(rt; "answer: fails {code}")?,
    }
    println!(rt; "answer: puts {}", answer.puts.len())?;
    Ok(())
}

/// Prints what a call is given: its values, and of each cell the first name.
fn tell_job<L: Library>(rt: &HostRuntime, job: &Job<L>) -> Result<(), Trouble> {
    println!(rt; "job of flow {} and node {}", job.flow().0, job.node().0)?;
    for value in job.args() {
        tell_value(rt, b"job: is given ", value)?;
    }
    for cell in job.cells() {
        match cell.name_at(0) {
            Some(name) => tell_value(
                rt,
                b"job: a cell has ",
                &Value::Text(name.again(rt.alloc())?),
            )?,
            None => println!(rt; "job: a cell has nothing")?,
        }
    }
    Ok(())
}

/// One step of a flow. A call is told, run and finished; whether it was one.
fn tell_call<L: Library>(
    rt: &HostRuntime,
    core: &mut Core<L>,
    flow: FlowNo,
) -> Result<bool, Trouble>
    requires { flow.0 < length core.old.setup.items }
{
    match core.step(flow)? {
        Step::Job(job) => {
            tell_job(rt, &job)?;
            let done = job.run(rt.alloc())?;
            tell_answer(rt, done.answer())?;
            let _ = core.finish(&done)?;
            Ok(true)
        }
        _ => Ok(false),
    }
}

/// Lets a flow go on to its end, and tells of its first call.
fn tell_first_call<L: Library>(
    rt: &HostRuntime,
    core: &mut Core<L>,
    flow: u32,
) -> Result<(), Trouble> {
    for _ in 0..TURN_LIMIT {
        if flow >= core.flows() {
            return Err(Trouble::Wrong);
        }
        if tell_call(rt, core, FlowNo(flow))? {
            return end(rt.alloc(), core, flow);
        }
    }
    Err(Trouble::Wrong)
}

/// Two flows of one counter: what each one's call is given, and what is answered.
fn tell_jobs(rt: &HostRuntime) -> Result<(), Trouble> {
    let given = numbers(rt.alloc(), 2)?;
    let mut core = open(rt.alloc(), COUNTING, given.as_slice(), Counter)?;
    tell_first_call(rt, &mut core, 0)?;
    tell_first_call(rt, &mut core, 1)
}

/// A call that is begun, recalled and finished twice, and then the flow's end.
fn tell_recalled(rt: &HostRuntime) -> Result<(), Trouble> {
    let given = numbers(rt.alloc(), 1)?;
    let mut core = open(rt.alloc(), FREE, given.as_slice(), Counter)?;
    for _ in 0..3 {
        tell_step(rt, &mut core, 0)?;
    }
    finish_twice(rt, &mut core)?;
    println!(rt; "a call is begun: {}", recalled(&core, 0)?.is_some())?;
    for _ in 0..3 {
        tell_step(rt, &mut core, 0)?;
    }
    Ok(())
}

/// Prints a value and how many bytes its spelling took, or where no value's spelling goes on.
fn tell_spelling(rt: &HostRuntime, bytes: &[u8]) -> Result<(), Trouble> {
    match read_value(rt.alloc(), bytes) {
        Ok((value, length)) => {
            let text = print_value(rt.alloc(), &value)?;
            rt.stdout().write_all(text.as_bytes())?;
            println!(rt; " is read of {length} bytes")?;
        }
        Err(ValueFault::BadValue { at }) => println!(rt; "no value at byte {at}")?,
        Err(ValueFault::TooLong { at }) => println!(rt; "too long at byte {at}")?,
        Err(ValueFault::Memory) => return Err(Trouble::Memory),
    }
    Ok(())
}

/// Prints the text of these bytes as a value.
fn tell_text(rt: &HostRuntime, bytes: &[u8]) -> Result<(), Trouble> {
    let text = match TextBytes::copy(rt.alloc(), bytes) {
        Ok(text) => text,
        Err(TextFault::TooLong) => return Err(Trouble::Wrong),
        Err(TextFault::Memory) => return Err(Trouble::Memory),
    };
    let printed = print_value(rt.alloc(), &Value::Text(text))?;
    rt.stdout().write_all(printed.as_bytes())?;
    println!(rt; "")?;
    Ok(())
}

/// Makes these calls, and prints what they return.
pub fn answer_worked(rt: &HostRuntime) -> Result<(), Trouble> {
    tell_crossed(rt)?;
    tell_recalled(rt)?;
    tell_jobs(rt)?;
    for spelling in SPELLINGS {
        tell_spelling(rt, spelling)?;
    }
    tell_text(rt, &[0, 34])
}
