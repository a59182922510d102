//! The text of a journal: one line for each event. And the text of an item.

ghost use Rattle.std.specs.Prelude.{◌≡◌, ◌++◌, [], if◌then◌else◌, IfOk, OnOk, codes, length, slice_get};
ghost use Rattle.std.specs.List.{flat_map};
ghost use Rattle.std.specs.Fmt.{decimal};
ghost use Rattle.flux_values.specs.Texts.{printed_value, printed_text};
ghost use Rattle.flux_model.specs.Texts.{node_name, source_name, printed_item, printed_values};
ghost use Rattle.flow_model.specs.Texts.{printed_result, printed_put, printed_change, printed_emission, printed_call, printed_exit, printed_end, printed_entry, printed_journal};
ghost use Rattle.flux_journal.specs.Formats.{head_line, printed_journal_2};
ghost use Rattle.flux_journal.specs.Logs.{printed_sent, logged_call, logged_entry, printed_log, item_line, printed_batch};
ghost use Rattle.flux_journal.specs.steps.Listed.{listed, line_end, answered, called};

use crate::digits::{append_number, append_number_with, append_value, append_value_with};
use crate::key_phrases::KeyPhrase;
use crate::phrases::{Phrase, Phrases, node_name};
use crate::quotes::append_quoted;
use flow_model::{CallMade, Entry, Event, Journal, Outcome};
use flux_model::{CallResult, FlowNo, Item, NodeNo, Program, Put, SourceNo};
use flux_values::{Bytes, List, Memory, Value};
use std::alloc::Global;

/// How many bytes an entry's line is reckoned to have. More are found room for when they come.
const ENTRY_LENGTH: usize = 32;

/// The one text of a journal in format 1.
pub fn print_journal(alloc: Global, program: &Program, journal: &Journal) -> Result<Bytes, Memory>
    ensures { IfOk result (λ printed. printed ≡ printed_journal program.now journal.now) }
{
    let mut out = with_room(alloc, reckoned(&journal.entries));
    let phrases = Phrases::new(alloc, program, journal.entries.len())?;
    append_entries(alloc, &mut out, &phrases, journal.entries.as_slice())?;
    Ok(out)
}

/// The one text of a journal of so many flows in format 2.
pub fn print_journal_2(
    alloc: Global,
    program: &Program,
    journal: &Journal,
    flows: u32,
) -> Result<Bytes, Memory>
    ensures { IfOk result (λ printed. printed ≡ printed_journal_2 program.now flows journal.now) }
{
    let mut out = with_room(alloc, reckoned(&journal.entries));
    append_head(&mut out, flows, journal.entries.len() as u64)?;
    let phrases = Phrases::new(alloc, program, journal.entries.len())?;
    append_entries(alloc, &mut out, &phrases, journal.entries.as_slice())?;
    Ok(out)
}

/// The text of a journal in a log: it has the number of bytes that a call emits in place of the bytes.
pub fn print_log(alloc: Global, program: &Program, journal: &Journal) -> Result<Bytes, Memory>
    ensures { IfOk result (λ printed. printed ≡ printed_log program.now journal.now) }
{
    let mut out = Bytes::new(alloc);
    append_log(alloc, &mut out, program, journal.entries.as_slice())?;
    Ok(out)
}

/// The text of a batch in a log: `batch`, its number and how many items it has, the items, and its journal.
pub fn print_batch(
    alloc: Global,
    program: &Program,
    number: u32,
    items: &[Item],
    journal: &Journal,
) -> Result<Bytes, Memory>
    ensures { IfOk result (λ printed. printed ≡ printed_batch program.now number items.now journal.now) }
{
    let mut out = Bytes::new(alloc);
    append_counted(&mut out, b"batch ", number as u64)?;
    append_counted_line(&mut out, b" ", items.len() as u64)?;
    append_items(alloc, &mut out, program, items)?;
    append_log(alloc, &mut out, program, journal.entries.as_slice())?;
    Ok(out)
}

/// The one text of an item.
pub fn print_item(alloc: Global, program: &Program, item: &Item) -> Result<Bytes, Memory>
    ensures { IfOk result (λ printed. printed ≡ printed_item program.now item.now) }
{
    let mut out = Bytes::new(alloc);
    append_item(alloc, &mut out, program, item)?;
    Ok(out)
}

/// How many bytes the text of entries is reckoned to have.
pub fn reckoned(entries: &List<Entry>) -> usize {
    entries.len().saturating_mul(ENTRY_LENGTH)
}

/// Nothing yet, with room for so many bytes where there is memory for it.
pub fn with_room(alloc: Global, length: usize) -> Bytes
    ensures { result ≡ [] }
{
    match Vec::with_capacity(alloc, length) {
        Ok(bytes) => Bytes::from_vec(bytes),
        Err(_) => Bytes::new(alloc),
    }
}

fn append_item(alloc: Global, out: &mut Bytes, program: &Program, item: &Item) -> Result<(), Memory>
    ensures { OnOk result (out.new ≡ out.old ++ printed_item program.now item.now) }
{
    append_pair(out, source_name(program, item.source), b" (")?;
    append_listed(alloc, out, item.values.as_slice(), b")")
}

fn append_item_line(
    alloc: Global,
    out: &mut Bytes,
    program: &Program,
    item: &Item,
) -> Result<(), Memory>
    ensures { OnOk result (out.new ≡ out.old ++ item_line program.now item.now) }
{
    append_item(alloc, out, program, item)?;
    out.append(b"\n")
}

fn append_items(
    alloc: Global,
    out: &mut Bytes,
    program: &Program,
    items: &[Item],
) -> Result<(), Memory>
    ensures { OnOk result (out.new ≡ out.old ++ flat_map (item_line program.now) items.now) }
{
    for item in items {
        append_item_line(alloc, out, program, item)?;
    }
    Ok(())
}

fn append_log(
    alloc: Global,
    out: &mut Bytes,
    program: &Program,
    entries: &[Entry],
) -> Result<(), Memory>
    ensures { OnOk result (out.new ≡ out.old ++ flat_map (logged_entry program.now) entries.now) }
{
    let phrases = Phrases::new(alloc, program, entries.len())?;
    for entry in entries {
        append_logged(alloc, out, &phrases, entry)?;
    }
    Ok(())
}

/// Adds the head line of format 2.
pub fn append_head(out: &mut Bytes, flows: u32, events: u64) -> Result<(), Memory>
    ensures { OnOk result (out.new ≡ out.old ++ (head_line flows events ++ codes "\n")) }
{
    append_counted(out, b"flux journal 2 flows ", flows as u64)?;
    append_counted_line(out, b" events ", events)
}

fn append_counted(out: &mut Bytes, word: &[u8], count: u64) -> Result<(), Memory>
    ensures { OnOk result (out.new ≡ out.old ++ (word.now ++ decimal count)) }
{
    out.append(word)?;
    append_number(out, count)
}

/// Adds a word, a number and LF.
fn append_counted_line(out: &mut Bytes, word: &[u8], count: u64) -> Result<(), Memory>
    ensures { OnOk result (out.new ≡ out.old ++ ((word.now ++ decimal count) ++ codes "\n")) }
{
    out.append(word)?;
    append_number_with(out, count, b"\n")
}

/// Adds the lines of entries.
pub fn append_entries(
    alloc: Global,
    out: &mut Bytes,
    phrases: &Phrases,
    entries: &[Entry],
) -> Result<(), Memory>
    ensures { OnOk result (out.new ≡ out.old ++ flat_map (printed_entry phrases.now) entries.now) }
{
    for entry in entries {
        append_entry(alloc, out, phrases, entry)?;
    }
    Ok(())
}

/// Adds an entry's line as a log has it.
fn append_logged(
    alloc: Global,
    out: &mut Bytes,
    phrases: &Phrases,
    entry: &Entry,
) -> Result<(), Memory>
    ensures { OnOk result (out.new ≡ out.old ++ logged_entry phrases.now entry.now) }
{
    match &entry.event {
        Event::Call(made) => {
            append_called(alloc, out, phrases, entry.flow, made)?;
            append_sent(out, made.answer.as_answer().emits.as_bytes())
        }
        _ => append_entry(alloc, out, phrases, entry),
    }
}

/// Adds how many bytes are emitted, where there are any, and LF.
fn append_sent(out: &mut Bytes, emission: &[u8]) -> Result<(), Memory>
    ensures { OnOk result (out.new ≡ out.old ++ (printed_sent emission.now ++ codes "\n")) }
{
    if emission.is_empty() {
        return out.append(b"\n");
    }
    append_counted_line(out, b" sent ", emission.len() as u64)
}

/// Adds an entry's line.
fn append_entry(
    alloc: Global,
    out: &mut Bytes,
    phrases: &Phrases,
    entry: &Entry,
) -> Result<(), Memory>
    ensures { OnOk result (out.new ≡ out.old ++ printed_entry phrases.now entry.now) }
{
    let flow = entry.flow;
    match &entry.event {
        Event::Enter(node) => phrases.append(out, flow, Phrase::Enter, *node),
        Event::Call(made) => append_call(alloc, out, phrases, flow, made),
        Event::Exit(node, outcome) => append_exit(out, phrases, flow, *node, *outcome),
        Event::Choose(case) => append_choice(out, flow, *case),
        Event::End(outcome) => append_end(out, flow, *outcome),
        Event::Take(key, mode) => phrases.append_key(out, flow, KeyPhrase::Take(*mode), key.key()),
        Event::Wait(key, mode) => phrases.append_key(out, flow, KeyPhrase::Wait(*mode), key.key()),
        Event::Drop(key) => phrases.append_key(out, flow, KeyPhrase::Drop, key.key()),
    }
}

/// Adds the line of the case that a flow chose.
fn append_choice(out: &mut Bytes, flow: FlowNo, case: u32) -> Result<(), Memory>
    ensures { OnOk result (out.new ≡ out.old ++ ((decimal flow.0 ++ codes " choose " ++ decimal case)
        ++ codes "\n")) }
{
    append_number_with(out, flow.0 as u64, b" choose ")?;
    append_number_with(out, case as u64, b"\n")
}

fn append_pair(out: &mut Bytes, first: &[u8], second: &[u8]) -> Result<(), Memory>
    ensures { OnOk result (out.new ≡ out.old ++ (first.now ++ second.now)) }
{
    out.append(first)?;
    out.append(second)
}

/// Adds the line of how a node is left.
fn append_exit(
    out: &mut Bytes,
    phrases: &Phrases,
    flow: FlowNo,
    node: NodeNo,
    outcome: Outcome,
) -> Result<(), Memory>
    ensures { OnOk result (out.new ≡ out.old ++ ((decimal flow.0 ++ codes " exit "
        ++ node_name phrases.now node ++ codes " " ++ printed_exit outcome) ++ codes "\n")) }
{
    match outcome {
        Outcome::Good => phrases.append(out, flow, Phrase::Done, node),
        Outcome::Over => {
            phrases.append(out, flow, Phrase::Exit, node)?;
            out.append(b"over\n")
        }
        Outcome::Bad(code) => {
            phrases.append(out, flow, Phrase::Exit, node)?;
            append_counted_line(out, b"fail ", code as u64)
        }
    }
}

/// Adds the line of how a flow ends.
fn append_end(out: &mut Bytes, flow: FlowNo, outcome: Outcome) -> Result<(), Memory>
    ensures { OnOk result (out.new ≡ out.old ++ ((decimal flow.0 ++ codes " end " ++ printed_end outcome)
        ++ codes "\n")) }
{
    let number = flow.0 as u64;
    match outcome {
        Outcome::Good => append_number_with(out, number, b" end done\n"),
        Outcome::Over => append_number_with(out, number, b" end handled\n"),
        Outcome::Bad(code) => {
            append_number_with(out, number, b" end fail ")?;
            append_number_with(out, code as u64, b"\n")
        }
    }
}

/// Adds a call's line.
#[inline(always)]
fn append_call(
    alloc: Global,
    out: &mut Bytes,
    phrases: &Phrases,
    flow: FlowNo,
    made: &CallMade,
) -> Result<(), Memory>
    ensures { OnOk result (out.new ≡ out.old ++ ((decimal flow.0 ++ codes " " ++ printed_call phrases.now made.now)
        ++ codes "\n")) }
{
    let answer = made.answer.as_answer();
    if answer.puts.is_empty() && answer.emits.as_bytes().is_empty() {
        return append_answered(alloc, out, phrases, flow, made, true);
    }
    append_called(alloc, out, phrases, flow, made)?;
    append_emission(out, answer.emits.as_bytes())
}

/// Adds a call's line without what is emitted.
#[inline(always)]
fn append_called(
    alloc: Global,
    out: &mut Bytes,
    phrases: &Phrases,
    flow: FlowNo,
    made: &CallMade,
) -> Result<(), Memory>
    ensures { OnOk result (out.new ≡ out.old ++ (decimal flow.0 ++ codes " " ++ called phrases.now made.now)) }
{
    append_answered(alloc, out, phrases, flow, made, false)?;
    append_puts(alloc, out, made.answer.as_answer().puts.as_slice())
}

/// Adds a call's line as far as its result, and LF where the line ends there.
#[inline(always)]
fn append_answered(
    alloc: Global,
    out: &mut Bytes,
    phrases: &Phrases,
    flow: FlowNo,
    made: &CallMade,
    ends: bool,
) -> Result<(), Memory>
    ensures { OnOk result (out.new ≡ out.old ++ (decimal flow.0 ++ codes " "
        ++ answered phrases.now made.now ++ line_end ends)) }
{
    phrases.append(out, flow, Phrase::Call, made.node)?;
    let args = made.args.as_slice();
    append_result(alloc, out, args, &made.answer.as_answer().result, ends)
}

/// Adds a call's arguments and its result, and LF where the line ends there.
#[inline(always)]
fn append_result(
    alloc: Global,
    out: &mut Bytes,
    args: &[Value],
    result_: &CallResult,
    ends: bool,
) -> Result<(), Memory>
    ensures { OnOk result (out.new ≡ out.old ++ (listed args.now ++ codes ") " ++ printed_result result_.now
        ++ line_end ends)) }
{
    match result_ {
        CallResult::Good(values) => {
            append_listed(alloc, out, args, b") ok (")?;
            append_listed(
                alloc,
                out,
                values.as_slice(),
                if ends { b")\n" } else { b")" },
            )
        }
        CallResult::Bad(code) => {
            append_listed(alloc, out, args, b") fail ")?;
            append_number_with(out, *code as u64, if ends { b"\n" } else { b"" })
        }
    }
}

/// Adds values with commas between them, and what follows the last.
#[inline(always)]
fn append_listed(
    alloc: Global,
    out: &mut Bytes,
    values: &[Value],
    behind: &[u8],
) -> Result<(), Memory>
    ensures { OnOk result (out.new ≡ out.old ++ (listed values.now ++ behind.now)) }
{
    match values {
        [] => out.append(behind),
        [before @ .., last] => {
            append_before(alloc, out, before)?;
            append_value_with(alloc, out, last, behind)
        }
    }
}

/// Adds values, each with a comma after it.
fn append_before(alloc: Global, out: &mut Bytes, values: &[Value]) -> Result<(), Memory>
    ensures { OnOk result (out.new ≡ out.old
        ++ flat_map (λ value. printed_value value ++ codes ", ") values.now) }
{
    for value in values {
        append_value_with(alloc, out, value, b", ")?;
    }
    Ok(())
}

fn append_puts(alloc: Global, out: &mut Bytes, puts: &[Put]) -> Result<(), Memory>
    ensures { OnOk result (out.new ≡ out.old ++ flat_map printed_put puts.now) }
{
    for put in puts {
        append_put(alloc, out, put)?;
    }
    Ok(())
}

fn append_put(alloc: Global, out: &mut Bytes, put: &Put) -> Result<(), Memory>
    ensures { OnOk result (out.new ≡ out.old ++ printed_put put.now) }
{
    match &put.value {
        None => append_change(out, b" cut ", put, b""),
        Some(value) => {
            append_change(out, b" put ", put, b" ")?;
            append_value(alloc, out, value)
        }
    }
}

/// Adds a word, a put's cell and name, and what follows them.
fn append_change(out: &mut Bytes, word: &[u8], put: &Put, behind: &[u8]) -> Result<(), Memory>
    ensures { OnOk result (out.new ≡ out.old ++ (word.now ++ put.now.cell ++ codes " "
        ++ printed_text put.now.name ++ behind.now)) }
{
    append_pair(out, word, put.cell.as_bytes())?;
    append_quoted(out, b" ", put.name.as_bytes(), behind)
}

/// Adds what a call emits, if it emits anything, and LF.
fn append_emission(out: &mut Bytes, emission: &[u8]) -> Result<(), Memory>
    ensures { OnOk result (out.new ≡ out.old ++ (printed_emission emission.now ++ codes "\n")) }
{
    if emission.is_empty() {
        return out.append(b"\n");
    }
    append_quoted(out, b" emits ", emission, b"\n")
}

fn source_name(program: &Program, source: SourceNo) -> &[u8]
    ensures { result.now ≡ source_name program.now (slice_get program.now.sources source.0) }
{
    match program.sources.as_slice().get(source.0 as usize) {
        Some(line) => node_name(program, line.node),
        None => b"",
    }
}
