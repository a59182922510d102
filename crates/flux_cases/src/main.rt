//! The program `flux_cases`: runs the command lines of case files in memory, and says which of them are wrong.
//!
//! It reads each file of its folder whose name ends in `.cases`, in the order of their names. A case is a command line
//! with the files, folders and streams that it meets and what has to come of it; `docs/CASES.md` tells how it is
//! written. A wrong case is reported with its file, its line and what differs. The last line counts them.
#![tactic(auto)]

mod outcomes;

use case_files::{Report, Trouble, read_lines};
use case_worlds::{Entrance, Parts, judge_file};
use flux_values::Bytes;
use outcomes::outcome_of;
use std::alloc::Global;
use std::fs;
use std::io::Write;
use std::marker::Sync;
use std::process::ExitCode;
use std::sync::Wait;
use std::thread::Threads;

/// The names of the case files of the folder that the program runs in, in order.
fn file_names(rt: &HostRuntime) -> Result<Vec<String>, Trouble> {
    let alloc = rt.alloc();
    let mut names = Vec::new(alloc);
    for entry in fs::read_dir(rt, ".")? {
        let entry = entry?;
        if entry.file_name().ends_with(".cases") {
            names.push(String::from_str(alloc, entry.file_name())?)?;
        }
    }
    names.sort()?;
    Ok(names)
}

/// Runs the cases of one file.
fn report_on<Rt: Threads + Wait + Sync>(
    threads: &Rt,
    alloc: Global,
    name: &str,
    text: &str,
) -> Result<Report, Trouble> {
    let lines = read_lines(alloc, text)?;
    judge_file(
        alloc,
        name,
        lines.as_slice(),
        &|words: &[Bytes], parts: Parts<Entrance>, looks: u64| {
            outcome_of(threads, alloc, words, parts, looks)
        },
    )
}

/// Runs the cases of all files. A command line may start threads.
fn answer<Rt: Threads + Wait + Sync>(rt: &HostRuntime, threads: &Rt) -> Result<(), Trouble> {
    let mut all = Report::new(rt.alloc());
    for name in file_names(rt)?.as_slice() {
        let text = fs::read_to_string(rt, name.as_str())?;
        let report = report_on(threads, rt.alloc(), name.as_str(), text.as_str())?;
        rt.stdout().write_all(report.text())?;
        all.count(&report);
    }
    println!(rt; "{} cases, {} wrong", all.cases(), all.wrong())?;
    Ok(())
}

fn main(rt: HostRuntime) -> ExitCode {
    match answer(&rt, &rt) {
        Ok(()) => ExitCode::SUCCESS,
        Err(trouble) => ExitCode::from(trouble.code()),
    }
}
