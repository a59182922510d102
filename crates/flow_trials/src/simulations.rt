//! What only calls show of flows on simulated processors: how long they take, what each call takes, and that the auditor upholds their
//! journals.

ghost use Rattle.std.specs.Prelude.{◌≤◌};
ghost use Rattle.flow_trials.specs.Ready.{CanSimulate};

use crate::readying::{Ready, ready_of};
use flow_model::Journal;
use flow_orders::Run;
use flux_library::Library;
use flux_simulate::simulate;
use flux_values::List;
use nodes_counter::Counter;
use std::alloc::Global;
use trial_ends::Trouble;
use trial_programs::{COUNTING, FREE, Flows, LEFT_OUT, NESTED, journal_of, numbers};

/// So many flows of a program's text, what its first nodes cost, and so many processors.
#[derive(Clone, Copy)]
struct Row {
    name: &'static str,
    text: &'static [u8],
    flows: u32,
    costs: &'static [u32],
    processors: u32,
}

/// Flows beside each other.
const PASS: Row = Row {
    name: "pass",
    text: FREE,
    flows: 3,
    costs: &[1, 5],
    processors: 2,
};

/// Flows that keep each other out, flows beside each other, and none.
const ROWS: &[Row] = &[
    Row {
        name: "add",
        text: COUNTING,
        flows: 2,
        costs: &[1, 5],
        processors: 2,
    },
    PASS,
    Row {
        name: "none",
        text: FREE,
        flows: 0,
        costs: &[1, 5],
        processors: 2,
    },
];

/// What came of a row: the last tick, the number of calls, and whether the auditor upholds the journal.
#[derive(Clone, Copy)]
struct Sums {
    ticks: u64,
    calls: usize,
    is_upheld: bool,
}

/// What simulated flows did, the runs of their calls, and the last tick.
#[derive(Drop)]
struct Done {
    journal: Journal,
    runs: List<Run>,
    ticks: u64,
}

/// Lets the flows of a core run on so many processors.
fn run_on<L: Library>(ready: Ready<L>, processors: u32) -> Result<Done, Trouble>
    requires ready { CanSimulate L.meaning ready.core ready.costs }
    requires some { 1 ≤ processors }
    requires most { processors ≤ 64 }
{
    let Ready { core, costs } = ready;
    match simulate(core, &costs, processors) {
        Ok(done) => Ok(Done {
            journal: journal_of(done.core),
            runs: done.runs,
            ticks: done.ticks,
        }),
        Err(stopped) => {
            drop(journal_of(stopped.core));
            Err(Trouble::Memory)
        }
    }
}

/// Simulates a row.
fn simulated(alloc: Global, row: &Row) -> Result<Done, Trouble> {
    if row.processors < 1 || row.processors > 64 {
        return Err(Trouble::Words);
    }
    let given = numbers(alloc, row.flows)?;
    let ready = ready_of(alloc, row.text, given.as_slice(), row.costs, Counter)?;
    run_on(ready, row.processors)
}

/// Whether the auditor upholds the journal of a row's flows.
fn is_upheld(alloc: Global, row: &Row, journal: &Journal) -> Result<bool, Trouble> {
    let given = numbers(alloc, row.flows)?;
    let flows = Flows {
        text: row.text,
        given: given.as_slice(),
    };
    flows.uphold(alloc, journal, LEFT_OUT)
}

/// Simulates a row, and audits its journal.
fn sums_of(alloc: Global, row: &Row) -> Result<Sums, Trouble> {
    let done = simulated(alloc, row)?;
    let is_upheld = is_upheld(alloc, row, &done.journal)?;
    Ok(Sums {
        ticks: done.ticks,
        calls: done.runs.len(),
        is_upheld,
    })
}

fn tell(rt: &HostRuntime, row: &Row) -> Result<(), Trouble> {
    let Sums {
        ticks,
        calls,
        is_upheld,
    } = sums_of(rt.alloc(), row)?;
    println!(rt;
        "{}: ticks {ticks} calls {calls}, the journal is upheld: {is_upheld}",
        row.name
    )?;
    Ok(())
}

fn tell_runs(rt: &HostRuntime, row: &Row) -> Result<(), Trouble> {
    let done = simulated(rt.alloc(), row)?;
    for run in &done.runs {
        println!(rt;
            "{}: flow {} from {} to {}",
            row.name, run.flow.0, run.start, run.stop
        )?;
    }
    Ok(())
}

/// Flows of the load on so many processors; each call costs from 1 to 9.
fn load(processors: u32) -> Row {
    Row {
        name: "load",
        text: NESTED,
        flows: 64,
        costs: &[1, 3, 5, 9],
        processors,
    }
}

/// Tells what came of small programs and of the load.
pub fn answer_rows(rt: &HostRuntime) -> Result<(), Trouble> {
    for row in ROWS {
        tell(rt, row)?;
    }
    for processors in [1u32, 2, 4, 8, 64] {
        tell(rt, &load(processors))?;
    }
    tell_runs(rt, &PASS)
}
