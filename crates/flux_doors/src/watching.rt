//! The sockets that are watched, until they are ready.

use mio::unix::SourceFd;
use mio::{Events, Interest, Poll, Token};
use std::alloc::Global;
use std::io;
use std::net::Net;
use std::os::fd::AsRawFd;
use std::time::Duration;

/// The number of the door's own socket. Those of clients are greater.
pub const OWN: u64 = 0;

/// So many sockets at most are reported at once.
const EVENTS: usize = 1_024;

/// The system's set of watched sockets, and those that became ready.
#[derive(Drop)]
pub struct Watching {
    poll: Poll,
    pub events: Events,
}

impl Watching {
    pub fn new<R: Net>(alloc: Global, net: &R) -> io::Result<Watching> {
        Ok(Watching {
            poll: Poll::new(net)?,
            events: Events::with_capacity(alloc, EVENTS)?,
        })
    }

    /// Waits until some are ready, or a time is over.
    pub fn wait(&mut self, pause: Option<Duration>) -> io::Result<()> {
        self.poll.poll(&mut self.events, pause)
    }

    /// Watches a socket until it can be read: the door's own, or that of the client of a number.
    pub fn watch_reads<S: AsRawFd>(&self, socket: &S, number: u64) -> io::Result<()> {
        let descriptor = socket.as_raw_fd();
        self.poll.registry().register(
            &mut SourceFd(&descriptor),
            Token(number as usize),
            Interest::READABLE,
        )
    }

    /// Watches a client's socket until it can be written to. It may be watched already.
    pub fn watch_writes<S: AsRawFd>(
        &self,
        socket: &S,
        number: u64,
        is_watched: bool,
    ) -> io::Result<()> {
        let descriptor = socket.as_raw_fd();
        let mut source = SourceFd(&descriptor);
        let token = Token(number as usize);
        let registry = self.poll.registry();
        if is_watched {
            registry.reregister(&mut source, token, Interest::WRITABLE)
        } else {
            registry.register(&mut source, token, Interest::WRITABLE)
        }
    }
}
