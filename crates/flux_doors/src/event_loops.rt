//! The loop of an open door: rounds in which what became ready is done.

use crate::connections::{Connections, earlier};
use crate::entrances::{Entrance, Refused};
use crate::flushing::REPLY_SECONDS;
use crate::framing::Framing;
use crate::real_links::RealLink;
use crate::watching::{OWN, Watching};
use std::alloc::Global;
use std::net::Net;
use std::time::{Clock, Duration};

/// An open door. Where it is let go, what was written to its links is sent.
pub struct EventLoop<R: Net + Clock + Copy> {
    runtime: R,
    watching: Watching,
    entrance: Entrance<R>,
    connections: Connections<R>,
    /// Whether a round was made in this batch, and no later accept has answered since that none is ready.
    made: bool,
}

impl<R: Net + Clock + Copy> EventLoop<R> {
    /// Opens a port, at which texts end in a way.
    pub fn open(
        alloc: Global,
        runtime: R,
        framing: Framing,
        port: u16,
    ) -> Result<EventLoop<R>, Refused> {
        let entrance = Entrance::open(&runtime, port)?;
        let watching = Watching::new(alloc, &runtime).map_err(|_| Refused)?;
        watching
            .watch_reads(&entrance.listener, OWN)
            .map_err(|_| Refused)?;
        let connections = Connections::new(alloc, runtime, framing).map_err(|_| Refused)?;
        Ok(EventLoop {
            runtime,
            watching,
            entrance,
            connections,
            made: false,
        })
    }

    fn now(&self) -> Result<Duration, Refused> {
        self.runtime.monotonic().map_err(|_| Refused)
    }

    /// How long the system may wait for something to become ready; None where nothing else is due.
    fn pause(&self) -> Result<Option<Duration>, Refused> {
        let Some(due) = earlier(self.entrance.next, self.connections.next_due()) else {
            return Ok(None);
        };
        Ok(Some(due.saturating_sub(self.now()?)))
    }

    /// Waits so long for something to become ready, and does what there is to do at the clients. Returns the time.
    fn meet_all(&mut self, pause: Option<Duration>) -> Result<Duration, Refused> {
        self.watching.wait(pause).map_err(|_| Refused)?;
        let now = self.now()?;
        for event in self.watching.events.iter() {
            let number = event.token().0 as u64;
            if number == OWN {
                self.entrance.note();
            } else {
                self.connections.meet(number, now);
            }
        }
        Ok(now)
    }

    /// One round, with so many links out. It waits only where it is to.
    fn make(&mut self, waits: bool, out: usize) -> Result<(), Refused> {
        self.made = true;
        let pause = if waits {
            self.pause()?
        } else {
            Some(Duration::ZERO)
        };
        let now = self.meet_all(pause)?;
        let taken = self
            .connections
            .take_in_all(&mut self.entrance, &self.watching, out, now);
        self.connections.close_late(now);
        taken
    }

    /// Waits for the first link of a batch, with so many links out.
    pub fn first_link(&mut self, out: usize) -> Result<RealLink<R>, Refused> {
        self.made = false;
        for _ in 0..u64::MAX {
            if let Some(link) = self.connections.next_ready() {
                return Ok(link);
            }
            let made = self.make(true, out);
            if !self.connections.has_ready() {
                made?;
            }
        }
        Err(Refused)
    }

    /// A later link of a batch, if one is ready, with so many links out. A batch has one round that doesn't wait, at most.
    pub fn later_link(&mut self, out: usize) -> Result<Option<RealLink<R>>, Refused> {
        if !self.connections.has_ready() && !self.made {
            let made = self.make(false, out);
            if !self.connections.has_ready() {
                made?;
            }
        }
        let link = self.connections.next_ready();
        if link.is_none() {
            self.made = false;
        }
        Ok(link)
    }

    /// Takes a link back.
    pub fn take_back(&mut self, link: RealLink<R>) {
        self.connections.take_back(&self.watching, link);
    }

    /// Sends what was written to the links that were given back, for `REPLY_SECONDS` at most.
    fn finish(&mut self) -> Result<(), Refused> {
        self.connections.close_unanswered();
        let end = self
            .now()?
            .saturating_add(Duration::from_secs(REPLY_SECONDS));
        let mut now = Duration::ZERO;
        for _ in 0..u64::MAX {
            if !self.connections.are_leaving() || now >= end {
                return Ok(());
            }
            self.entrance.next = Some(end);
            let pause = self.pause()?;
            now = self.meet_all(pause)?;
            self.connections.close_late(now);
        }
        Ok(())
    }
}

impl<R: Net + Clock + Copy> Drop for EventLoop<R> {
    fn drop(mut self) {
        let _ = self.finish();
        let EventLoop {
            runtime: _,
            watching: _,
            entrance: _,
            connections: _,
            made: _,
        } = self;
    }
}
