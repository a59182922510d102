//! Links that are taken at a door, and given back.

ghost use Rattle.std.specs.Prelude.{◌≡◌, ◌<◌, ◌≤◌, Err, None, IfOk, IfSome, OnOk, OnErr, map};
ghost use Rattle.std.specs.VecDeque.{deque_len};
ghost use Rattle.flux_outside.specs.Causes.{Rose};
ghost use Rattle.flux_doors.specs.Doors.{waiting, first_link};
ghost use Rattle.flux_doors.specs.Seen.{IsLater, TakesBack, KeepsElse};
ghost use Rattle.flux_batches.specs.Gathered.{AreGathered};

use crate::reading::ReadLink;
use flux_doors::Door;
use std::alloc::Global;
use std::collections::VecDeque;

/// A batch has at most so many links.
pub const LINK_LIMIT: usize = 64;

/// Why there is no batch.
#[derive(Clone, Copy, PartialEq, Eq)]
pub enum NoBatch {
    /// The door is closed.
    Closed,
    /// The door failed.
    Door,
    Memory,
}

/// The links of the next batch: waits for the first, and takes those that are ready with it.
pub fn gather<D: Door>(alloc: Global, door: &mut D) -> Result<VecDeque<D::Link>, NoBatch>
    requires { D.out door.old ≡ 0 }
    ensures links { IfOk result (λ links. AreGathered (D.seen door.old).to_come (D.seen door.new).to_come
        (D.seen door.old).late (D.seen door.new).late links.items) }
    ensures some { IfOk result (λ links. (0 < deque_len links) × (deque_len links ≤ LINK_LIMIT)) }
    ensures out { IfOk result (λ links. D.out door.new ≡ deque_len links) }
    ensures none_out { OnErr result (D.out door.new ≡ 0) }
    ensures back { (D.seen door.new).taken_back ≡ (D.seen door.old).taken_back }
    ensures open { (D.seen door.new).open_at ≡ (D.seen door.old).open_at }
    ensures steady { OnOk result ((D.seen door.new).faults ≡ (D.seen door.old).faults) }
    ensures unless { (result ≡ Err NoBatch.Door → ⊥) → (D.seen door.new).faults ≡ (D.seen door.old).faults }
    ensures closed { result ≡ Err NoBatch.Closed → IfSome (D.seen door.old).to_come (λ batches. first_link (waiting batches) ≡ None) }
    ensures kept { (result ≡ Err NoBatch.Closed → ⊥) → OnErr result ((D.seen door.new).to_come ≡ (D.seen door.old).to_come) }
    ensures no_later { OnErr result ((D.seen door.new).late ≡ (D.seen door.old).late) }
    ensures failed { result ≡ Err NoBatch.Door → Rose (D.seen door.old).faults (D.seen door.new).faults }
    ensures later { IsLater (D.seen door.old) (D.seen door.new) }
{
    let mut links = VecDeque::with_capacity(alloc, LINK_LIMIT).map_err(|_| NoBatch::Memory)?;
    match door.accept(true) {
        Ok(Some(link)) => links.push_back_reserved(link),
        Ok(None) => return Err(NoBatch::Closed),
        Err(_) => return Err(NoBatch::Door),
    }
    'links: while links.len() < LINK_LIMIT {
        match door.accept(false) {
            Ok(Some(link)) => links.push_back_reserved(link),
            Ok(None) => return Ok(links),
            Err(_) => return Ok(links),
        }
    }
    Ok(links)
}

/// Gives links back as they are.
pub fn give_back<D: Door>(door: &mut D, links: VecDeque<D::Link>)
    requires { D.out door.old ≡ deque_len links }
    ensures out { D.out door.new ≡ 0 }
    ensures back { TakesBack (D.seen door.old).taken_back (D.seen door.new).taken_back links.items }
    ensures kept { KeepsElse (D.seen door.old) (D.seen door.new) }
{
    let mut links = links;
    'links: while let Some(link) = links.pop_front() {
        door.done(link);
    }
}

/// The same of links that were read.
pub fn give_back_read<D: Door>(door: &mut D, links: VecDeque<ReadLink<D::Link>>)
    requires { D.out door.old ≡ deque_len links }
    ensures out { D.out door.new ≡ 0 }
    ensures back { TakesBack (D.seen door.old).taken_back (D.seen door.new).taken_back (map (λ request. request.link) links.items) }
    ensures kept { KeepsElse (D.seen door.old) (D.seen door.new) }
{
    let mut links = links;
    'links: while let Some(request) = links.pop_front() {
        door.done(request.link);
    }
}
