//! All clients of an open door, and what each is waited for.

use crate::arrivals::Arrival;
use crate::clients::{Client, Heard};
use crate::endings::{Ending, Endings};
use crate::entrances::{Entrance, Refused};
use crate::flushing::{Flushing, Flushings};
use crate::framing::Framing;
use crate::real_links::{Left, RealLink};
use crate::unsent::{Sending, Tally, Unsent};
use crate::waiting::Waiting;
use crate::watching::{OWN, Watching};
use std::alloc::{AllocError, Global};
use std::collections::VecDeque;
use std::net::Net;
use std::time::{Clock, Duration};

/// So many sockets at most are open: past that the oldest client that has sent nothing is closed.
const SOCKET_LIMIT: usize = 4_096;

/// So many clients at most are accepted in one round.
const ACCEPTED_AT_ONCE: usize = 256;

/// So many bytes at most are read at once.
const BLOCK: usize = 16_384;

/// The clients of an open door.
#[derive(Drop)]
pub struct Connections<R: Net + Clock + Copy> {
    runtime: R,
    alloc: Global,
    framing: Framing,
    /// The number of the client that came last.
    last: u64,
    /// Those whose text isn't there yet, and those whose text is.
    waiting: Waiting<R>,
    ready: VecDeque<RealLink<R>>,
    /// Those that were given back: their replies aren't sent yet, or they haven't ended.
    flushing: Flushings<R>,
    endings: Endings<R>,
    unsent: Tally,
    block: Vec<u8>,
}

impl<R: Net + Clock + Copy> Connections<R> {
    pub fn new(alloc: Global, runtime: R, framing: Framing) -> Result<Connections<R>, AllocError> {
        Ok(Connections {
            runtime,
            alloc,
            framing,
            last: OWN,
            waiting: Waiting::new(alloc),
            ready: VecDeque::new(alloc),
            flushing: Flushings::new(alloc),
            endings: Endings::new(alloc),
            unsent: Tally::new(alloc)?,
            block: Vec::from_elem(alloc, 0u8, BLOCK)?,
        })
    }

    /// The next client whose text is there.
    pub fn next_ready(&mut self) -> Option<RealLink<R>> {
        self.ready.pop_front()
    }

    pub fn has_ready(&self) -> bool {
        !self.ready.is_empty()
    }

    /// Puts a client whose text is there last. Where there is no memory for it, it is closed.
    fn make_ready(&mut self, client: Client<R>, number: u64, is_watched: bool) {
        let Client { stream, text, .. } = client;
        let Ok(tally) = self.unsent.share() else {
            return;
        };
        let unsent = Unsent::new(self.alloc, tally);
        let link = RealLink::new(self.runtime, stream, number, is_watched, text, unsent);
        let _ = self.ready.push_back(link);
    }

    /// Takes in a client that was accepted now. It is watched only where its text isn't there yet.
    fn take_in(&mut self, watching: &Watching, stream: R::Stream, now: Duration) {
        self.last = self.last.wrapping_add(1);
        let number = self.last;
        let mut client = Client::new(self.alloc, stream, now);
        match client.hear(self.framing, self.block.as_mut_slice()) {
            Heard::Text => self.make_ready(client, number, false),
            Heard::Part if watching.watch_reads(&client.stream, number).is_ok() => {
                self.waiting.keep(number, client);
            }
            _ => {}
        }
    }

    /// Reads on at a client that may have sent something.
    fn hear(&mut self, client: Client<R>, number: u64) {
        let mut client = client;
        match client.hear(self.framing, self.block.as_mut_slice()) {
            Heard::Text => self.make_ready(client, number, true),
            Heard::Part => self.waiting.keep(number, client),
            Heard::Nothing => {}
        }
    }

    /// Sends on to a client that may take something.
    fn flush(&mut self, link: Flushing<R>, number: u64, now: Duration) {
        let mut link = link;
        match link.go_on(now) {
            Sending::All => {
                if let Some(ending) = Ending::new(link.stream, now) {
                    self.endings.add(ending);
                }
            }
            Sending::Part | Sending::Nothing => self.flushing.keep(number, link),
            Sending::Failed => {}
        }
    }

    /// Does what there is to do at the client of a number that became ready. One that is out, or ends, has nothing.
    pub fn meet(&mut self, number: u64, now: Duration) {
        if let Some(client) = self.waiting.take(number) {
            self.hear(client, number);
        } else if let Some(link) = self.flushing.take(number) {
            self.flush(link, number, now);
        }
    }

    /// How many sockets are open, with so many links out.
    fn open_sockets(&self, out: usize) -> usize {
        out.saturating_add(self.waiting.len())
            .saturating_add(self.ready.len())
            .saturating_add(self.flushing.len())
            .saturating_add(self.endings.len())
    }

    /// Makes room for one client more; false where there is none, and no client can be closed for it.
    fn make_room(&mut self, out: usize) -> bool {
        self.open_sockets(out) < SOCKET_LIMIT
            || self.waiting.close_oldest()
            || self.flushing.close_oldest()
            || self.endings.close_oldest()
    }

    /// Takes in the clients that have come, with so many links out. Where the system lacks descriptors or memory, the oldest
    /// client that is waited for is closed, and the system is asked again, once now and then after a pause.
    pub fn take_in_all(
        &mut self,
        entrance: &mut Entrance<R>,
        watching: &Watching,
        out: usize,
        now: Duration,
    ) -> Result<(), Refused> {
        let mut was_short = false;
        for _ in 0..ACCEPTED_AT_ONCE {
            if !entrance.may_have(now) || !self.make_room(out) {
                return Ok(());
            }
            match entrance.accept() {
                Arrival::Link(stream) => {
                    was_short = false;
                    self.take_in(watching, stream, now);
                }
                Arrival::Gone | Arrival::NoneReady => {}
                Arrival::Short => {
                    if !self.waiting.close_oldest() || was_short {
                        entrance.pause(now);
                    }
                    was_short = true;
                }
                Arrival::Failed => return Err(Refused),
            }
        }
        Ok(())
    }

    /// Takes a link back. What is left of its reply is sent when its client takes it.
    pub fn take_back(&mut self, watching: &Watching, link: RealLink<R>) {
        let number = link.number();
        let is_watched = link.is_watched();
        match link.leave() {
            Left::Nothing => {}
            Left::Reply(link) => {
                if watching
                    .watch_writes(&link.stream, number, is_watched)
                    .is_ok()
                {
                    self.flushing.keep(number, link);
                }
            }
            Left::End(ending) => self.endings.add(ending),
        }
    }

    /// Looks at those that end, and closes those whose time is over.
    pub fn close_late(&mut self, now: Duration) {
        self.endings.look(now, self.block.as_mut_slice());
        self.flushing.close_late(now, self.unsent.is_pressed());
        self.waiting.close_late(now);
    }

    /// Closes the clients that get no reply.
    pub fn close_unanswered(&mut self) {
        self.waiting.close_all();
        self.ready.clear();
    }

    /// Whether some were given back and are still open.
    pub fn are_leaving(&self) -> bool {
        self.flushing.len() > 0 || self.endings.len() > 0
    }

    /// When the first of them is due.
    pub fn next_due(&self) -> Option<Duration> {
        let leaving = earlier(self.flushing.next_look(), self.endings.next_due());
        earlier(self.waiting.deadline(), leaving)
    }
}

/// The earlier of two times, where there are any.
pub fn earlier(a: Option<Duration>, b: Option<Duration>) -> Option<Duration> {
    match (a, b) {
        (Some(a), Some(b)) => Some(a.min(b)),
        (Some(time), None) | (None, Some(time)) => Some(time),
        (None, None) => None,
    }
}
