//! What is served, and to whom.

ghost use Rattle.std.specs.Prelude.{◌≡◌, IfOk};
ghost use Rattle.flux_doors.specs.Memory.{door_out};

use flow_core::Gate;
use flux_doors::{Door, MemoryDoor, MemoryLink};
use flux_outside::MemorySink;
use flux_serve::{BatchOrder, ServeEnd, Served, serve_at_once};
use flux_sources::framing_of;
use flux_values::{Bytes, List, Memory};
use nodes_counter::Counter;
use std::alloc::Global;
use std::marker::Sync;
use std::sync::Wait;
use std::thread::Threads;
use trial_ends::Trouble;
use trial_programs::set_up;

/// A link to a client that sends this. It gives and takes a byte at a time; one read and one write fail, or none for 0.
pub fn link_of(alloc: Global, sent: &[u8], read: u64, write: u64) -> Result<MemoryLink, Memory> {
    let (mut reads, mut writes) = (List::new(alloc), List::new(alloc));
    reads.add(read)?;
    writes.add(write)?;
    let reply = MemorySink::new(alloc, 16, 1, writes)?;
    Ok(MemoryLink::new(Bytes::copy(alloc, sent)?, 1, reply, reads))
}

/// A door where these links come at once.
pub fn door_of(alloc: Global, links: List<MemoryLink>) -> Result<MemoryDoor, Memory>
    ensures { IfOk result (λ door. door_out door ≡ 0) }
{
    let mut batches = List::new(alloc);
    batches.add(links)?;
    MemoryDoor::new(alloc, batches, List::new(alloc))
}

/// Serves so many batches at a door, by the program of a text.
pub fn serve_text<D: Door, G: Gate + Sync, R: Threads + Wait + Sync>(
    rt: &R,
    alloc: Global,
    text: &[u8],
    door: &mut D,
    workers: u8,
    gate: &G,
    batches: u32,
) -> Result<ServeEnd, Trouble>
    requires { D.out door.old ≡ 0 }
{
    let setup = set_up(alloc, text, &[], Counter)?;
    let Some(framing) = framing_of(alloc, &*setup.library, &setup.program)? else {
        return Err(Trouble::Wrong);
    };
    let served = Served {
        program: setup.program.clone()?,
        plans: setup.plans.clone()?,
        library: setup.library.clone()?,
        framing,
        order: BatchOrder::Any,
    };
    let mut log = MemorySink::new(alloc, 1_048_576, 65_536, List::new(alloc))?;
    let workers = workers.clamp(1, 16);
    Ok(serve_at_once(rt, alloc, &served, door, &mut log, workers, gate, batches))
}
