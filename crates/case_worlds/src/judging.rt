//! Cases run one after another, and what is wrong with each.

use crate::audits::{audit_parts, audit_words};
use crate::calls::is_command;
use crate::comparing::{Outcome, compare_outcome, compare_verdict};
use crate::parts::{Entrance, Parts, parts_of};
use case_files::{Case, Differences, Entry, Line, Report, Trouble};
use flux_values::{Bytes, Memory};
use std::alloc::Global;

/// Runs the cases of a file. `run` does what words say in a world that is made of parts, and holds the first call of a node for so
/// many looks at most.
pub fn judge_file<R: Fn(&[Bytes], Parts<Entrance>, u64) -> Result<Outcome, Memory>>(
    alloc: Global,
    file: &str,
    lines: &[Line],
    run: &R,
) -> Result<Report, Trouble>
    requires { R.IsAlwaysCallable run.now }
{
    let mut report = Report::new(alloc);
    for section in lines.split(|line| line.entry.is_shared()) {
        judge_section(alloc, &mut report, file, section, run)?;
    }
    Ok(report)
}

/// Runs the cases of lines, of which those before the first case are shared.
fn judge_section<R: Fn(&[Bytes], Parts<Entrance>, u64) -> Result<Outcome, Memory>>(
    alloc: Global,
    report: &mut Report,
    file: &str,
    section: &[Line],
    run: &R,
) -> Result<(), Trouble>
    requires { R.IsAlwaysCallable run.now }
{
    let first = section.iter().position(|line| line.entry.is_case());
    let (shared, cases) = section.split_at(first.unwrap_or(section.len()));
    tell_faulty(alloc, report, file, shared)?;
    for lines in cases.chunk_by(|_, next| !next.entry.is_case()) {
        judge_lines(alloc, report, file, lines, shared, run)?;
    }
    Ok(())
}

/// Tells of the lines that are none of a case file, and answers whether there are any.
fn tell_faulty(
    alloc: Global,
    report: &mut Report,
    file: &str,
    lines: &[Line],
) -> Result<bool, Memory> {
    let mut any = false;
    for line in lines {
        if matches!(line.entry, Entry::Faulty) {
            report.add_wrong(alloc, file, line.number, "no line of a case file")?;
            any = true;
        }
    }
    Ok(any)
}

/// Runs the case of these lines, of which the first has its name.
fn judge_lines<R: Fn(&[Bytes], Parts<Entrance>, u64) -> Result<Outcome, Memory>>(
    alloc: Global,
    report: &mut Report,
    file: &str,
    lines: &[Line],
    shared: &[Line],
    run: &R,
) -> Result<(), Trouble>
    requires { R.IsAlwaysCallable run.now }
{
    let Some((head, own)) = lines.split_first() else {
        return Ok(());
    };
    let Entry::Case(name) = &head.entry else {
        return Ok(());
    };
    report.count_case();
    if tell_faulty(alloc, report, file, own)? {
        return Ok(());
    }
    let mut differences = Differences::new(alloc);
    judge(alloc, &mut differences, &Case::of(own, shared), run)?;
    let lines = differences.lines();
    Ok(tell_wrong(alloc, report, file, head.number, name.as_str(), lines)?)
}

/// Tells of a case at a line of a file where there are lines about what differs.
fn tell_wrong(
    alloc: Global,
    report: &mut Report,
    file: &str,
    number: usize,
    name: &str,
    lines: &[Bytes],
) -> Result<(), Memory> {
    if lines.is_empty() {
        return Ok(());
    }
    report.add_wrong(alloc, file, number, name)?;
    for line in lines {
        report.add_difference(line.as_bytes())?;
    }
    Ok(())
}

/// Does what a case's words say, and tells what differs from what it wants.
fn judge<R: Fn(&[Bytes], Parts<Entrance>, u64) -> Result<Outcome, Memory>>(
    alloc: Global,
    differences: &mut Differences,
    case: &Case,
    run: &R,
) -> Result<(), Memory>
    requires { R.IsAlwaysCallable run.now }
{
    let Some(words) = case.words else {
        return differences.tell(b"it has no words");
    };
    let parts = parts_of(alloc, case)?;
    let outcome = run(words, parts, case.hold.unwrap_or(0) as u64)?;
    judge_outcome(alloc, differences, case, words, &outcome, run)
}

/// Tells what differs of what a case's words came to, and audits the journal of a run.
fn judge_outcome<R: Fn(&[Bytes], Parts<Entrance>, u64) -> Result<Outcome, Memory>>(
    alloc: Global,
    differences: &mut Differences,
    case: &Case,
    words: &[Bytes],
    outcome: &Outcome,
    run: &R,
) -> Result<(), Memory>
    requires { R.IsAlwaysCallable run.now }
{
    compare_outcome(alloc, differences, case, words, outcome)?;
    if outcome.status == 0 && is_command(words, b"run") {
        let journal = outcome.parts.out.written();
        audit(alloc, differences, case, words, journal, run)?;
    }
    Ok(())
}

/// Audits the journal that a run printed, and tells where the answer isn't yes.
fn audit<R: Fn(&[Bytes], Parts<Entrance>, u64) -> Result<Outcome, Memory>>(
    alloc: Global,
    differences: &mut Differences,
    case: &Case,
    words: &[Bytes],
    journal: &[u8],
    run: &R,
) -> Result<(), Memory>
    requires { R.IsAlwaysCallable run.now }
{
    let words = audit_words(alloc, words)?;
    let parts = audit_parts(alloc, case, journal)?;
    judge_audit(alloc, differences, words.as_slice(), parts, run)
}

/// Does what the words of an audit say, in a world that is made of these parts.
fn judge_audit<R: Fn(&[Bytes], Parts<Entrance>, u64) -> Result<Outcome, Memory>>(
    alloc: Global,
    differences: &mut Differences,
    words: &[Bytes],
    parts: Parts<Entrance>,
    run: &R,
) -> Result<(), Memory>
    requires { R.IsAlwaysCallable run.now }
{
    let outcome = run(words, parts, 0)?;
    compare_verdict(alloc, differences, &outcome)
}
