//! The program `tracker_trials`: what only calls show of the tracker's nodes.
//!
//! It calls `Swarm` and `Scrape` on cells that no program would leave, at the limits of numbers and swarms, and on
//! values that `ReadAsk` never gives, and the library `Tracker` by each of its own calls. Each answer is a line. `announce N`,
//! `read N` and `print N` do one thing so often with a swarm of the greatest size, for the bench.
#![tactic(auto)]

mod announces;
mod calls;
mod library;
mod rows;

use announces::{announce, print, read};
use calls::line_of;
use library::library_lines;
use rows::{ROWS, Row};
use std::env;
use std::io::Write;
use std::process::ExitCode;
use trial_ends::Trouble;

fn number(word: &str) -> Result<u32, Trouble> {
    match word.parse::<u32>() {
        Ok(number) => Ok(number),
        Err(_) => Err(Trouble::Words),
    }
}

fn tell(rt: &HostRuntime, row: &Row) -> Result<(), Trouble> {
    let line = line_of(rt.alloc(), row)?;
    Ok(rt.stdout().write_all(line.as_bytes())?)
}

fn answer_all(rt: &HostRuntime) -> Result<(), Trouble> {
    for row in ROWS {
        tell(rt, row)?;
    }
    let lines = library_lines(rt.alloc())?;
    Ok(rt.stdout().write_all(lines.as_bytes())?)
}

fn answer_many(rt: &HostRuntime, what: &str, count: u32) -> Result<(), Trouble> {
    let alloc = rt.alloc();
    let told = match what {
        "announce" => announce(alloc, count)?,
        "read" => read(alloc, count)?,
        "print" => print(alloc, count)?,
        _ => return Err(Trouble::Words),
    };
    println!(rt; "{what} {count}: {told}")?;
    Ok(())
}

/// Does what words say.
fn answer_to(rt: &HostRuntime, words: &[String]) -> Result<(), Trouble> {
    match words {
        [_] => answer_all(rt),
        [_, what, count] => answer_many(rt, what.as_str(), number(count.as_str())?),
        _ => Err(Trouble::Words),
    }
}

fn answer(rt: &HostRuntime) -> Result<(), Trouble> {
    let words: Vec<String> = env::args(rt)?.collect(rt.alloc())?;
    answer_to(rt, words.as_slice())
}

fn main(rt: HostRuntime) -> ExitCode {
    match answer(&rt) {
        Ok(()) => ExitCode::SUCCESS,
        Err(trouble) => ExitCode::from(trouble.code()),
    }
}
