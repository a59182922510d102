//! The program `reply_trials`: what only calls show of serving whose replies are written at once.
//!
//! It prints a line for each trial. First come two links of one batch: calls are held until the other flow makes one, and until the
//! first link was written to. A body on one thread fails that, as the second line shows, and so does one that writes after the
//! batch. Then come crowds: links that fail at each byte, and links whose replies depend on each other.
//!
//! To refuse memory to it, run `rt try --fail-alloc N` in this folder, with N from 1 on: the Nth allocation is refused. The status
//! is 12 then, or 0 where there are fewer, and no line tells of another reply.
#![tactic(auto)]

mod crowds;
mod doors;
mod pairs;
mod serving;

use crowds::{Crowd, serve_crowd};
use pairs::serve_pair;
use std::alloc::Global;
use std::marker::Sync;
use std::process::ExitCode;
use std::sync::Wait;
use std::thread::Threads;
use trial_ends::Trouble;

/// Tells what came of two links of one batch.
fn tell_pair<R: Threads + Wait + Sync + Print>(
    rt: &R,
    alloc: Global,
    workers: u8,
    looks: u32,
) -> Result<(), Trouble> {
    let said = serve_pair(rt, alloc, workers, looks)?;
    Ok(println!(rt; "a reply in the middle of another flow, workers {workers}: {said}")?)
}

/// Tells what came of a crowd.
fn tell_crowd<R: Threads + Wait + Sync + Print>(
    rt: &R,
    alloc: Global,
    crowd: Crowd,
    workers: u8,
    batches: u32,
) -> Result<(), Trouble> {
    let name = crowd.name();
    let said = serve_crowd(rt, alloc, crowd, workers, batches)?;
    Ok(println!(rt; "{name}, workers {workers}, batches {batches}: {said}")?)
}

fn answer<R: Threads + Wait + Sync + Print>(rt: &R, alloc: Global) -> Result<(), Trouble> {
    // Behind each look a call sleeps a millisecond, so that it is held for ten seconds or some more at most.
    tell_pair(rt, alloc, 2, 10_000)?;
    tell_pair(rt, alloc, 1, 100)?;
    for workers in [1, 2, 16] {
        for batches in [1, 3] {
            tell_crowd(rt, alloc, Crowd::Echo, workers, batches)?;
            tell_crowd(rt, alloc, Crowd::Counter, workers, batches)?;
        }
    }
    Ok(())
}

fn main(rt: HostRuntime) -> ExitCode {
    match answer(&rt, rt.alloc()) {
        Ok(()) => ExitCode::SUCCESS,
        Err(trouble) => ExitCode::from(trouble.code()),
    }
}
