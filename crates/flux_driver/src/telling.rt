//! What is written at the end: the printed text, or the line about a refusal.

ghost use Rattle.std.specs.Prelude.{◌≡◌, ◌≤◌};
ghost use Rattle.flux_outside.specs.Streams.{WroteOrBroke};
ghost use Rattle.flux_driver.specs.Serving.{end_status, end_line};
ghost use Rattle.flux_driver.specs.steps.Telling.{IsTold, IsPut};

use crate::pages::write_pages;
use flux_commands::{Prepared, Refusal, Status};
use flux_outside::{Sink, write_all};
use flux_serve::ServeEnd;
use std::alloc::Global;

/// Writes a line. A fault of the sink changes nothing else.
fn say<E: Sink>(err: &mut E, line: &[u8])
    ensures later { (E.seen err.old).faults ≤ (E.seen err.new).faults }
    ensures said { WroteOrBroke (E.seen err.old) (E.seen err.new) line.now }
{
    let _ = write_all(err, line);
}

/// Writes the line about a refusal. That reading failed is said without taking memory, so that want of
/// memory never comes in its place.
pub fn refuse<E: Sink>(alloc: Global, err: &mut E, refusal: Refusal) -> Status
    ensures later { (E.seen err.old).faults ≤ (E.seen err.new).faults }
    ensures told { IsTold refusal.entry result (E.seen err.old) (E.seen err.new) }
{
    if let Refusal::Read = refusal {
        say(err, b"flux: read failed\n");
        return Status::Read;
    }
    match refusal.line(alloc) {
        Ok(line) => {
            say(err, line.as_bytes());
            refusal.status()
        }
        Err(_) => Status::Memory,
    }
}

/// Writes what is to be printed; where that failed, the line about it. A verdict that is no stays so.
pub fn print<O: Sink, E: Sink>(out: &mut O, err: &mut E, prepared: &Prepared) -> Status
    ensures later { ((O.seen out.old).faults ≤ (O.seen out.new).faults) × ((E.seen err.old).faults ≤ (E.seen err.new).faults) }
    ensures put { IsPut prepared.now result (O.seen out.old) (O.seen out.new) (E.seen err.old) (E.seen err.new) }
{
    match prepared {
        Prepared::Text(text) => match write_pages(out, text) {
            Ok(()) => Status::Done,
            Err(_) => {
                say(err, b"flux: write failed\n");
                Status::Write
            }
        },
        Prepared::No(text) => {
            say(out, text.as_bytes());
            Status::No
        }
    }
}

/// Writes the line about an end of serving, which takes no memory, and answers its status.
pub fn tell_end<E: Sink>(err: &mut E, end: ServeEnd) -> Status
    ensures later { (E.seen err.old).faults ≤ (E.seen err.new).faults }
    ensures status { result ≡ end_status end }
    ensures said { WroteOrBroke (E.seen err.old) (E.seen err.new) (end_line end) }
{
    match end {
        ServeEnd::Closed | ServeEnd::Counted => Status::Done,
        ServeEnd::Door => {
            say(err, b"flux: door failed\n");
            Status::Door
        }
        ServeEnd::Log => {
            say(err, b"flux: write failed\n");
            Status::Write
        }
        ServeEnd::Memory => Status::Memory,
    }
}
