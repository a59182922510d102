//! The program `thread_trials`: what only calls show of the hall, the queue and the runtimes with threads.
//!
//! It prints what came of each trial, which is the same whatever the order of the threads' turns. Each journal of flows that were driven
//! to their ends is audited. With the words `heavy RUNTIME SHAPE FLOWS ROUNDS` it drives flows of heavy calls, for the benches, and
//! audits nothing. With `seeds RUNTIME N` it drives N random programs once each, and with `held RUNTIME FLOWS HOLDER` flows that wait
//! for one of them, which holds the key from the start.
#![tactic(auto)]

mod burdens;
mod entries;
mod gates;
mod halls;
mod heavy;
mod lates;
mod partial;
mod queues;
mod refusals;
mod runs;
mod stopwatches;
mod threads;
mod words;

use flow_core::OpenGate;
use halls::two_tries;
use heavy::drive_load;
use lates::late_of;
use partial::drive_held;
use queues::takes;
use refusals::{driven_once, driven_twice};
use runs::{Driver, calls_held, drive_many, kept, nested_kept};
use std::alloc::Global;
use std::env;
use std::marker::Sync;
use std::process::ExitCode;
use std::rt::Files;
use std::sync::Wait;
use std::thread::Threads;
use std::time::Clock;
use threads::{none_left, thread_count};
use trial_ends::Trouble;
use trial_programs::{COUNTING, READING, SESSIONS};
use words::{DRIVERS, Words, read_words};

/// So many random programs are driven by each runtime.
const SEEDS: u32 = 10;

/// So often each of them is driven.
const TIMES: u32 = 10;

/// The runtimes that run two calls at once.
const BESIDE: &[(Driver, &str)] = &[
    (Driver::PerFlow, "perflow"),
    (Driver::Pool(2), "pool=2"),
    (Driver::Helpers(2), "event=2"),
];

/// The runtimes that drive crowds.
const CROWDED: &[(Driver, &str)] = &[
    (Driver::PerFlow, "perflow"),
    (Driver::Pool(4), "pool=4"),
    (Driver::Helpers(1), "event=1"),
    (Driver::Helpers(2), "event=2"),
    (Driver::Helpers(16), "event=16"),
];

/// The programs of the crowds, and what their flows do.
const CROWDS: &[(&[u8], &str)] = &[
    (COUNTING, "one counter"),
    (SESSIONS, "sessions"),
    (READING, "readers"),
];

/// What a try for a turn found.
fn tell_turn<R: Print>(rt: &R, when: &str, found: Option<usize>) -> Result<(), Trouble> {
    match found {
        Some(entries) => println!(rt; "hall: a turn {when}, entries {entries}")?,
        None => println!(rt; "hall: no turn {when}")?,
    }
    Ok(())
}

fn answer_hall<R: Wait + Print>(rt: &R, alloc: Global) -> Result<(), Trouble> {
    let tries = two_tries(rt, alloc)?;
    println!(rt;
        "hall: the first seat's flow made a step: {}",
        tries.stepped
    )?;
    tell_turn(rt, "while another is out", tries.while_out)?;
    tell_turn(rt, "once the other was given", tries.once_given)
}

fn answer_queue<R: Wait + Print>(rt: &R, alloc: Global) -> Result<(), Trouble> {
    for take in takes(rt, alloc)? {
        match take {
            Some(flow) => println!(rt; "queue: {}", flow.0)?,
            None => println!(rt; "queue: none")?,
        }
    }
    Ok(())
}

/// Random programs that are driven to their ends.
fn answer_seeds<R: Threads + Wait + Sync + Print>(
    rt: &R,
    alloc: Global,
    driver: Driver,
    name: &str,
) -> Result<(), Trouble> {
    let kept = kept(rt, alloc, driver, SEEDS, TIMES)?;
    println!(rt;
        "{name}: {SEEDS} programs, {TIMES} times each: {kept} journals keep each rule and are upheld"
    )?;
    Ok(())
}

/// Flows through nested nodes.
fn answer_nested<R: Threads + Wait + Sync + Print>(
    rt: &R,
    alloc: Global,
    driver: Driver,
    name: &str,
) -> Result<(), Trouble> {
    for flows in [0, 1, 65] {
        let nested = nested_kept(rt, alloc, driver, flows)?;
        println!(rt;
            "{name}: {flows} flows through nested nodes keep each rule and are upheld: {nested}"
        )?;
    }
    Ok(())
}

/// Flows that wait for one of them, which holds the key from the start.
fn answer_held<R: Threads + Wait + Sync + Print>(
    rt: &R,
    alloc: Global,
    driver: Driver,
    name: &str,
) -> Result<(), Trouble> {
    for holder in [0, 64] {
        let held = drive_held(rt, alloc, driver, 65, holder)?;
        println!(rt;
            "{name}: flow {holder} of 65 holds the key first: {} have ended, counted {}, upheld {}",
            held.ended, held.greatest, held.is_upheld
        )?;
    }
    Ok(())
}

/// Calls that are refused, each in turn.
fn answer_refusals<R: Threads + Wait + Sync + Print>(
    rt: &R,
    alloc: Global,
    driver: Driver,
    name: &str,
) -> Result<(), Trouble> {
    for call in 1..=4 {
        let drives = driven_twice(rt, alloc, driver, call)?;
        println!(rt;
            "{name}: call {call} is refused: the first drive is right {}, ended then {}, counted {}, upheld {}",
            drives.first_is_right, drives.came.ended, drives.came.greatest, drives.came.is_upheld
        )?;
    }
    Ok(())
}

/// Calls of two flows at once.
fn answer_beside<R: Threads + Wait + Sync + Print>(
    rt: &R,
    alloc: Global,
    driver: Driver,
    name: &str,
) -> Result<(), Trouble> {
    let held = calls_held(rt, alloc, driver)?;
    println!(rt;
        "{name}: the first call waited for another flow's, and the journal is upheld: {held}"
    )?;
    Ok(())
}

/// Calls that are refused, each in turn, while the program's own runtime drives: it goes on by the thread that calls.
fn answer_drained<R: Threads + Wait + Sync + Print>(
    rt: &R,
    alloc: Global,
    driver: Driver,
    name: &str,
) -> Result<(), Trouble> {
    for call in 1..=4 {
        let came = driven_once(rt, alloc, driver, call)?;
        println!(rt;
            "{name}: call {call} is refused, and the drive goes on: ended {}, counted {}, upheld {}",
            came.ended, came.greatest, came.is_upheld
        )?;
    }
    Ok(())
}

/// A call that is run twice.
fn answer_late<R: Threads + Wait + Sync + Print>(
    rt: &R,
    alloc: Global,
    driver: Driver,
    name: &str,
) -> Result<(), Trouble> {
    let lates = late_of(rt, alloc, driver, 4)?;
    println!(rt;
        "{name}: a call was run twice: {} flows have ended, the total is {}, late answers {}, upheld {}",
        lates.came.ended, lates.came.greatest, lates.late, lates.came.is_upheld
    )?;
    Ok(())
}

/// Crowds of flows.
fn answer_crowds<R: Threads + Wait + Sync + Print>(
    rt: &R,
    alloc: Global,
    driver: Driver,
    name: &str,
) -> Result<(), Trouble> {
    for (text, kind) in CROWDS {
        let crowd = drive_many(rt, alloc, driver, text, 4_096, &OpenGate, 0)?;
        println!(rt;
            "{name}: {kind}: {} flows have ended, the greatest put is {}, upheld {}",
            crowd.ended, crowd.greatest, crowd.is_upheld
        )?;
    }
    Ok(())
}

/// The trials of each runtime.
fn answer_drivers<R: Threads + Wait + Sync + Print>(rt: &R, alloc: Global) -> Result<(), Trouble> {
    for (driver, name) in DRIVERS {
        answer_seeds(rt, alloc, *driver, name)?;
        answer_nested(rt, alloc, *driver, name)?;
        answer_held(rt, alloc, *driver, name)?;
        answer_refusals(rt, alloc, *driver, name)?;
    }
    Ok(())
}

/// What threads share, by calls.
fn answer_shared<R: Wait + Print>(rt: &R, alloc: Global) -> Result<(), Trouble> {
    answer_hall(rt, alloc)?;
    answer_queue(rt, alloc)
}

/// The trials by threads.
fn answer_threads<R: Threads + Wait + Sync + Print>(rt: &R, alloc: Global) -> Result<(), Trouble> {
    for (driver, name) in BESIDE {
        answer_beside(rt, alloc, *driver, name)?;
        answer_drained(rt, alloc, *driver, name)?;
    }
    answer_late(rt, alloc, Driver::Helpers(1), "event=1")?;
    answer_drivers(rt, alloc)?;
    for (driver, name) in CROWDED {
        answer_crowds(rt, alloc, *driver, name)?;
    }
    Ok(())
}

fn answer_all<R: Threads + Wait + Sync + Print + Files + Alloc>(
    rt: &R,
    alloc: Global,
) -> Result<(), Trouble> {
    let threads = thread_count(rt);
    answer_shared(rt, alloc)?;
    answer_threads(rt, alloc)?;
    println!(rt; "no thread is left: {}", none_left(rt, threads))?;
    Ok(())
}

fn words_of(rt: &HostRuntime) -> Result<Words, Trouble> {
    let words: Vec<String> = env::args(rt)?.collect(rt.alloc())?;
    read_words(words.as_slice())
}

fn answer<R: Threads + Wait + Sync + Print + Files + Alloc + Clock>(
    rt: &R,
    alloc: Global,
    words: Result<Words, Trouble>,
) -> Result<(), Trouble> {
    match words? {
        Words::Trials => answer_all(rt, alloc),
        Words::Heavy { driver, load } => {
            let heavy = drive_load(rt, alloc, driver, load)?;
            let [half, most] = heavy.pauses;
            println!(rt; "flows {} half {half} most {most}", heavy.ended)?;
            Ok(())
        }
        Words::Held {
            driver,
            flows,
            holder,
        } => {
            let held = drive_held(rt, alloc, driver, flows, holder)?;
            println!(rt;
                "{} flows have ended, upheld {}",
                held.ended, held.is_upheld
            )?;
            Ok(())
        }
        Words::Seeds { driver, seeds } => {
            let kept = kept(rt, alloc, driver, seeds, 1)?;
            println!(rt; "{seeds} programs: {kept} journals keep each rule and are upheld")?;
            Ok(())
        }
    }
}

fn main(rt: HostRuntime) -> ExitCode {
    match answer(&rt, rt.alloc(), words_of(&rt)) {
        Ok(()) => ExitCode::SUCCESS,
        Err(trouble) => ExitCode::from(trouble.code()),
    }
}
