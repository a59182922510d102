//! What links have to read.

ghost use Rattle.std.specs.Prelude.{◌≡◌, ℕ, ◌<◌, ◌≤◌, [], length, map, slice_index_or, take, IfOk, IfErr, IfSome};
ghost use Rattle.flux_outside.specs.Causes.{HasCause};
ghost use Rattle.flux_outside.specs.Readers.{TakesAtMost};
ghost use Rattle.flux_doors.specs.Texts.{ends, least_front, trimmed, limit_of, text_of};
ghost use Rattle.std.specs.VecDeque.{deque_len};
ghost use Rattle.flux_doors.specs.Seen.{IsSame};
ghost use Rattle.flux_batches.specs.Links.{HadNotEnded, IsSent, WereRead};
ghost use Rattle.flux_batches.specs.steps.Reading.{to_read, WasRead};

use flux_doors::{Framing, Link};
use flux_outside::Failed;
use flux_values::TextBytes;
use std::alloc::Global;
use std::collections::VecDeque;
use std::marker::{Send, Sync};
use std::thread;
use std::thread::Threads;

/// The most bytes that are read of a link.
const BUFFER: usize = 16_384;

/// So many links are read, or answered, by one thread, one after another: as many as a batch has. A door gives links whose
/// texts are there, so no read of theirs waits, and starting a thread costs more than reading and answering all of them.
const LINKS_A_THREAD: usize = 64;

/// How many threads read so many links, or answer them.
pub fn threads_for(links: usize) -> usize
    ensures { 0 < result }
{
    links.div_ceil(LINKS_A_THREAD).max(1)
}

/// What a link sent.
pub enum Sent {
    Text(TextBytes),
    /// Reading failed.
    Failed,
    /// There was no memory for the text.
    Memory,
}

impl Drop for Sent {
    fn drop(self) {
        match self {
            Sent::Text(_) => {}
            Sent::Failed => {}
            Sent::Memory => {}
        }
    }
}

/// A link that was read, with what it sent.
#[derive(Drop)]
pub struct ReadLink<K> {
    pub link: K,
    pub sent: Sent,
}

/// Reads on until the text has ended, the buffer is full, or nothing more comes.
fn fill<K: Link>(link: &mut K, framing: Framing, buffer: &mut [u8]) -> Result<usize, Failed>
    requires { length buffer.old ≡ limit_of framing }
    ensures bound { IfOk result (λ count. count ≤ length buffer.new) }
    ensures text { IfSome (K.seen link.old).left (λ left. IfOk result (λ count.
        trimmed framing (least_front (ends framing) (take count buffer.new)) ≡ text_of framing left)) }
    ensures taken { TakesAtMost (limit_of framing) (K.seen link.old).left (K.seen link.new).left }
    ensures unended { HadNotEnded framing (K.seen link.old).left (K.seen link.new).left_before }
    ensures same { IsSame (K.seen link.old) (K.seen link.new) }
    ensures written { (K.seen link.new).stream.written ≡ (K.seen link.old).stream.written }
    ensures cause { HasCause (K.seen link.old).stream.faults (K.seen link.new).stream.faults result }
{
    let mut filled = 0;
    'reads: while filled < buffer.len() {
        if framing.ends_in(&buffer[..filled]) {
            return Ok(filled);
        }
        let count = link.read(&mut buffer[filled..])?;
        if count == 0 {
            return Ok(filled);
        }
        filled += count;
    }
    Ok(filled)
}

/// Reads a link.
fn read_link<K: Link>(alloc: Global, link: &mut K, framing: Framing) -> Sent
    ensures same { IsSame (K.seen link.old) (K.seen link.new) }
    ensures sent { IsSent framing (K.seen link.old) (K.seen link.new) result }
{
    let mut buffer = [0u8; BUFFER];
    let window = &mut buffer[..framing.limit()];
    match fill(link, framing, window) {
        Ok(count) => match TextBytes::copy(alloc, framing.text_in(&window[..count])) {
            Ok(text) => Sent::Text(text),
            Err(_) => Sent::Memory,
        },
        Err(_) => Sent::Failed,
    }
}

/// Puts a link's text beside it.
fn read_one<K: Link>(alloc: Global, request: &mut ReadLink<K>, framing: Framing)
    ensures { WasRead K.seen framing request.old request.new }
{
    request.sent = read_link(alloc, &mut request.link, framing);
}

/// Links in a list of what was read of them, which is nothing yet. Where there is no memory for it, they come back.
fn unread<K: Drop>(alloc: Global, links: VecDeque<K>) -> Result<VecDeque<ReadLink<K>>, VecDeque<K>>
    ensures request { IfOk result (λ request. request.items ≡ map to_read links.items) }
    ensures count { IfOk result (λ request. deque_len request ≡ deque_len links) }
    ensures back { IfErr result (λ back. (back.items ≡ links.items) × (deque_len back ≡ deque_len links)) }
{
    let mut links = links;
    let Ok(mut request) = VecDeque::with_capacity(alloc, links.len()) else {
        return Err(links);
    };
    'links: while let Some(link) = links.pop_front() {
        request.push_back_reserved(ReadLink {
            link,
            sent: Sent::Memory,
        });
    }
    Ok(request)
}

/// Reads links, each at its place.
fn read_each<R: Threads + Sync, K: Link + Send>(
    rt: &R,
    alloc: Global,
    request: &mut [ReadLink<K>],
    framing: Framing,
)
    ensures { (i : ℕ) (none : ReadLink K) → i < length request.old
        → WasRead K.seen framing (slice_index_or request.old i none) (slice_index_or request.new i none) }
{
    let threads = threads_for(request.len());
    thread::for_each_mut(
        rt,
        request,
        threads,
        &|_, one| { read_one(alloc, one, framing) },
    );
}

/// Reads all links, each at its place. Where there is no memory for them, they come back unread.
pub fn read_links<R: Threads + Sync, K: Link + Drop + Send>(
    rt: &R,
    alloc: Global,
    links: VecDeque<K>,
    framing: Framing,
) -> Result<VecDeque<ReadLink<K>>, VecDeque<K>>
    ensures request { IfOk result (λ request. WereRead K.seen framing links.items request.items []) }
    ensures count { IfOk result (λ request. deque_len request ≡ deque_len links) }
    ensures unread { IfErr result (λ back. (back.items ≡ links.items) × (deque_len back ≡ deque_len links)) }
{
    let mut request = unread(alloc, links)?;
    read_each(rt, alloc, request.make_contiguous(), framing);
    Ok(request)
}
