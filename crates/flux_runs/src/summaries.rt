//! The summary of a run: how many items and events, and the total that was counted.

ghost use Rattle.std.specs.Prelude.{◌≡◌, ◌≤◌, Some, IfOk, position, length};
ghost use Rattle.flux_model.specs.declared.programs.TheConstants.{COUNT_LIMIT};
ghost use Rattle.flux_cells.specs.Kept.{cells_of};
ghost use Rattle.flux_runs.specs.Summaries.{is_step, step_count, is_shared, shared_key, number_at, total_in, printed_summary};

use flow_model::{Entry, Event, Journal, Key};
use flux_cells::Cells;
use flux_model::{Class, ClassNo, Program};
use flux_spelling::{append_number, append_value};
use flux_values::{Bytes, Memory, Value};
use std::alloc::Global;

fn is_step(event: &Event) -> bool
    ensures { result ≡ is_step event.now }
{
    !matches!(event, Event::Wait(_, _))
}

/// How many entries are no waits.
fn step_count(entries: &[Entry]) -> u64
    ensures { result ≡ step_count entries.now }
{
    let mut count = 0;
    for entry in entries {
        if is_step(&entry.event) {
            count += 1;
        }
    }
    count
}

/// Whether a class is one of the whole program and has a name.
fn is_shared(class: &Class, name: &[u8]) -> bool
    ensures { result ≡ is_shared name.now class.now }
{
    class.name.as_bytes() == name && !class.session
}

fn place_of(classes: &[Class], name: &[u8]) -> Option<usize>
    ensures { result ≡ position (is_shared name.now) classes.now }
{
    classes.iter().position(|class| is_shared(class, name))
}

/// The key of a class of the whole program, by its name.
fn shared_key(p: &Program, name: &[u8]) -> Option<Key>
    requires { length p.now.classes ≤ COUNT_LIMIT }
    ensures { result ≡ shared_key p.now name.now }
{
    match place_of(p.classes.as_slice(), name) {
        Some(place) => Some(Key {
            class: ClassNo(place as u32),
            id: None,
        }),
        None => None,
    }
}

/// The number under a name in a cell; 0 where there is none.
fn number_at(cells: &Cells, key: Key, name: &[u8]) -> i64
    ensures { Value.Int result ≡ number_at (cells_of cells.now) (Some key) name.now }
{
    let Some(cell) = cells.cell(key) else {
        return 0;
    };
    match cell.get(name) {
        Some(Value::Int(number)) => *number,
        _ => 0,
    }
}

fn total_in(p: &Program, cells: &Cells) -> i64
    requires { length p.now.classes ≤ COUNT_LIMIT }
    ensures { Value.Int result ≡ total_in p.now (cells_of cells.now) }
{
    match shared_key(p, b"counter") {
        Some(key) => number_at(cells, key, b"total"),
        None => 0,
    }
}

/// The three lines of a summary.
pub fn print_summary(
    alloc: Global,
    p: &Program,
    flows: u32,
    journal: &Journal,
    cells: &Cells,
) -> Result<Bytes, Memory>
    requires { length p.now.classes ≤ COUNT_LIMIT }
    ensures { IfOk result (λ text. text
        ≡ printed_summary p.now flows journal.now.entries (cells_of cells.now)) }
{
    let mut out = Bytes::new(alloc);
    out.append(b"items ")?;
    append_number(alloc, &mut out, u64::from(flows))?;
    out.append(b"\nevents ")?;
    append_number(alloc, &mut out, step_count(journal.entries.as_slice()))?;
    out.append(b"\ntotal ")?;
    append_value(alloc, &mut out, &Value::Int(total_in(p, cells)))?;
    out.append(b"\n")?;
    Ok(out)
}
