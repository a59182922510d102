//! The program `flow_trials`: drives a core by its calls, without any runtime, and simulates one, for trials and benches.
//!
//! `core N` drives N flows to their ends, and prints how many flows and events there are. `journal N P R` makes their
//! journal's text P times and reads it R times, and prints how many events and bytes there are. `text N` prints that text.
//! `watch N` does what `core N` does; then it drives N flows by the loop of the runtimes, over a library that refuses one call
//! for want of memory, each call in turn, and prints how many calls there are where each was made once and seen before and
//! after, and how many of all these journals the auditor upholds. `trials` does what `watch 16` does, and simulates small programs
//! and flows of the load, whose journals are audited too; then it makes each public call once that no
//! program makes, and sequences of calls that were worked by hand.
#![tactic(auto)]

mod journals;
mod public_calls;
mod readying;
mod simulations;
mod turns;
mod watching;
mod words;
mod worked_calls;

use flow_core::Core;
use flow_model::Journal;
use flux_values::Bytes;
use journals::{print_again, read_again};
use nodes_counter::Counter;
use public_calls::answer_calls;
use simulations::answer_rows;
use std::alloc::Global;
use std::env;
use std::io::Write;
use std::process::ExitCode;
use trial_ends::Trouble;
use trial_programs::{Flows, LEFT_OUT, NESTED, Watched, checked_of, journal_of, numbers, open};
use turns::drive;
use watching::{Calls, Refusing, drain_twice};
use words::{Words, read_words};
use worked_calls::answer_worked;

/// Drives each flow of a core to its end.
fn drive_all(alloc: Global, core: &mut Core<Counter>) -> Result<(), Trouble> {
    drive(alloc, core)?;
    if core.live() == 0 {
        Ok(())
    } else {
        Err(Trouble::Wrong)
    }
}

/// What so many flows did that have ended.
fn driven(alloc: Global, flows: u32) -> Result<Journal, Trouble> {
    let numbers = numbers(alloc, flows)?;
    let mut core = open(alloc, NESTED, numbers.as_slice(), Counter)?;
    let went = drive_all(alloc, &mut core);
    let journal = journal_of(core);
    went?;
    Ok(journal)
}

fn answer_core(rt: &HostRuntime, flows: u32) -> Result<(), Trouble> {
    let events = driven(rt.alloc(), flows)?.entries.len();
    println!(rt; "flows {flows} events {events}")?;
    Ok(())
}

/// Prints and reads a journal so many times, and gives how many bytes its text has.
fn print_and_read(
    alloc: Global,
    journal: &Journal,
    prints: u32,
    reads: u32,
) -> Result<usize, Trouble> {
    let checked = checked_of(alloc, NESTED, &Counter)?;
    let text = print_again(alloc, &checked, journal, prints)?;
    read_again(alloc, &checked, text.as_bytes(), reads)?;
    Ok(text.as_bytes().len())
}

fn answer_journal(rt: &HostRuntime, flows: u32, prints: u32, reads: u32) -> Result<(), Trouble> {
    let journal = driven(rt.alloc(), flows)?;
    let bytes = print_and_read(rt.alloc(), &journal, prints, reads)?;
    println!(rt; "events {} bytes {bytes}", journal.entries.len())?;
    Ok(())
}

fn print_once(alloc: Global, journal: &Journal) -> Result<Bytes, Trouble> {
    let checked = checked_of(alloc, NESTED, &Counter)?;
    Ok(print_again(alloc, &checked, journal, 1)?)
}

fn answer_text(rt: &HostRuntime, flows: u32) -> Result<(), Trouble> {
    let journal = driven(rt.alloc(), flows)?;
    let text = print_once(rt.alloc(), &journal)?;
    Ok(rt.stdout().write_all(text.as_bytes())?)
}

/// What came of flows whose calls are watched.
#[derive(Clone, Copy)]
struct Watch {
    calls: u32,
    /// How many journals the auditor upholds.
    upheld: u32,
}

/// 1 where the auditor upholds the journal of so many flows, without one of so many lines too, and else 0.
fn upheld(alloc: Global, flows: u32, journal: &Journal, left_out: usize) -> Result<u32, Trouble> {
    let given = numbers(alloc, flows)?;
    let flows = Flows {
        text: NESTED,
        given: given.as_slice(),
    };
    Ok(u32::from(flows.uphold(alloc, journal, left_out)?))
}

/// The same of flows that are driven by turns.
fn upheld_by_turns(alloc: Global, flows: u32) -> Result<u32, Trouble> {
    let journal = driven(alloc, flows)?;
    upheld(alloc, flows, &journal, LEFT_OUT)
}

/// What so many flows did, of whose calls one is refused and made again.
fn drained(alloc: Global, flows: u32, refused: u32, calls: &Calls) -> Result<Journal, Trouble> {
    let numbers = numbers(alloc, flows)?;
    let watcher = Refusing { calls, refused };
    let mut core = open(alloc, NESTED, numbers.as_slice(), Watched { watcher })?;
    let went = drain_twice(&mut core, calls);
    let journal = journal_of(core);
    went?;
    Ok(journal)
}

/// How many calls flows make, of which one is refused and made again. After the refusal the gate saw each call, too.
fn watched(alloc: Global, flows: u32, refused: u32) -> Result<Watch, Trouble> {
    let told = Calls::new();
    let journal = drained(alloc, flows, refused, &told)?;
    let calls = told.count()?;
    let upheld = upheld(alloc, flows, &journal, 0)?;
    Ok(Watch { calls, upheld })
}

/// The same, without a refusal and with each call refused in turn.
fn watched_all(alloc: Global, flows: u32) -> Result<Watch, Trouble> {
    let mut all = watched(alloc, flows, u32::MAX)?;
    for refused in 0..all.calls {
        let more = watched(alloc, flows, refused)?;
        if more.calls != all.calls.saturating_add(1) {
            return Err(Trouble::Wrong);
        }
        all.upheld = all.upheld.saturating_add(more.upheld);
    }
    Ok(all)
}

fn answer_watch(rt: &HostRuntime, flows: u32) -> Result<(), Trouble> {
    answer_core(rt, flows)?;
    let by_turns = upheld_by_turns(rt.alloc(), flows)?;
    let Watch { calls, upheld } = watched_all(rt.alloc(), flows)?;
    println!(rt; "calls {calls}")?;
    println!(rt; "journals upheld: {by_turns} by turns, {upheld} of watched calls")?;
    Ok(())
}

fn answer_to(rt: &HostRuntime, words: Words) -> Result<(), Trouble> {
    match words {
        Words::Core { flows } => answer_core(rt, flows),
        Words::Journal {
            flows,
            prints,
            reads,
        } => answer_journal(rt, flows, prints, reads),
        Words::Text { flows } => answer_text(rt, flows),
        Words::Watch { flows } => answer_watch(rt, flows),
        Words::Trials => {
            answer_watch(rt, 16)?;
            answer_rows(rt)?;
            answer_calls(rt)?;
            answer_worked(rt)
        }
    }
}

fn words_of(rt: &HostRuntime) -> Result<Words, Trouble> {
    let words: Vec<String> = env::args(rt)?.collect(rt.alloc())?;
    read_words(words.as_slice())
}

fn main(rt: HostRuntime) -> ExitCode {
    let answered = match words_of(&rt) {
        Ok(words) => answer_to(&rt, words),
        Err(trouble) => Err(trouble),
    };
    match answered {
        Ok(()) => ExitCode::SUCCESS,
        Err(trouble) => ExitCode::from(trouble.code()),
    }
}
