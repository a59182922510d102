//! The links that a case's door gives.

ghost use Rattle.std.specs.Prelude.{◌<◌};

use crate::parts::Entrance;
use case_files::{Case, Entry, Line, Part, Stream};
use flux_doors::MemoryLink;
use flux_outside::MemorySink;
use flux_values::{Bytes, List, Memory};
use std::alloc::Global;

/// How many bytes of a reply a link has room for, and gives and takes a call, where a case says nothing of it.
const ROOM: usize = 2_097_152;

/// A link to a client.
#[derive(Clone, Copy)]
pub struct Client<'a> {
    /// The number of its batch, from 1 on.
    batch: usize,
    /// What it gives.
    input: &'a [u8],
    /// The lines about it, which tell what it has to be written.
    pub lines: &'a [Line],
}

/// The links of a case, in order.
pub fn clients_of<'a>(alloc: Global, case: &Case<'a>) -> Result<Vec<Client<'a>>, Memory> {
    let mut clients = Vec::new(alloc);
    let mut batch = 0usize;
    for lines in case
        .door_lines()
        .chunk_by(|_, next| !next.entry.begins_links())
    {
        match lines.first() {
            Some(line) => batch = add_clients(&mut clients, &line.entry, lines, batch)?,
            None => {}
        }
    }
    Ok(clients)
}

/// Adds the links of an entry, if it is one of links after a batch's line, and answers the number of its batch.
fn add_clients<'a>(
    clients: &mut Vec<Client<'a>>,
    entry: &'a Entry,
    lines: &'a [Line],
    batch: usize,
) -> Result<usize, Memory> {
    match entry {
        Entry::Batch => return Ok(batch.saturating_add(1)),
        Entry::Links(count, input) if batch > 0 => {
            let input = input.as_bytes();
            for _ in 0..*count {
                clients.push(Client {
                    batch,
                    input,
                    lines,
                })?;
            }
        }
        _ => {}
    }
    Ok(batch)
}

/// The links to the clients of one batch.
fn links_of(alloc: Global, case: &Case, batch: &[Client]) -> Result<List<MemoryLink>, Memory> {
    let mut links = List::new(alloc);
    for client in batch {
        links.add(link(alloc, case, client)?)?;
    }
    Ok(links)
}

/// The links of a case, by their batches.
fn batches_of(
    alloc: Global,
    case: &Case,
    clients: &[Client],
) -> Result<List<List<MemoryLink>>, Memory> {
    let mut batches = List::new(alloc);
    for batch in clients.chunk_by(|one, next| one.batch == next.batch) {
        batches.add(links_of(alloc, case, batch)?)?;
    }
    Ok(batches)
}

/// The links of a case, and which calls of the door fail.
pub fn entrance_of(alloc: Global, case: &Case) -> Result<Entrance, Memory> {
    let clients = clients_of(alloc, case)?;
    let fails = case.fails(alloc, Part::Door)?;
    let batches = batches_of(alloc, case, clients.as_slice())?;
    Ok(Entrance { batches, fails })
}

fn link(alloc: Global, case: &Case, client: &Client) -> Result<MemoryLink, Memory> {
    let shape = case.link_shape(client.lines);
    let piece = shape.piece.unwrap_or(ROOM).max(1);
    let written = sink(alloc, case, client.lines, shape.room.unwrap_or(ROOM), piece)?;
    let reads = case.link_fails(alloc, client.lines, Part::Reads)?;
    let input = Bytes::copy(alloc, client.input)?;
    Ok(MemoryLink::new(input, piece, written, reads))
}

/// What a link's reply is written to.
fn sink(
    alloc: Global,
    case: &Case,
    lines: &[Line],
    room: usize,
    piece: usize,
) -> Result<MemorySink, Memory>
    requires { 0 < piece }
{
    let writes = case.link_fails(alloc, lines, Part::Stream(Stream::Link))?;
    MemorySink::new(alloc, room, piece, writes)
}
