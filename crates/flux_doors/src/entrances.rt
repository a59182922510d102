//! The socket that clients come in by.

ghost use Rattle.flux_doors.specs.Entrances.{IsOfThisMachine};

use crate::arrivals::{Arrival, arrival_of};
use std::net::{Ipv4Addr, Net, OpenListener, OpenStream, SocketAddr, SocketAddrV4};
use std::time::Duration;

/// So many milliseconds after the system had no descriptor or no memory for a client, it is asked again.
const PAUSE_MILLIS: u64 = 20;

/// The socket of a port of this machine alone, 127.0.0.1. It never waits.
#[derive(Drop)]
pub struct Entrance<R: Net> {
    pub listener: R::Listener,
    /// From when on a client may be there; None where there is none until the system tells of one.
    pub next: Option<Duration>,
}

/// Why the system gave no answer.
#[derive(Clone, Copy)]
pub struct Refused;

/// The address of a port that clients of this machine alone reach.
fn address_of(port: u16) -> SocketAddr
    ensures { IsOfThisMachine result port }
{
    SocketAddr::V4(SocketAddrV4::new(Ipv4Addr::new(127, 0, 0, 1), port))
}

impl<R: Net> Entrance<R> {
    pub fn open(net: &R, port: u16) -> Result<Entrance<R>, Refused> {
        let listener = net.bind(address_of(port)).map_err(|_| Refused)?;
        match listener.set_nonblocking(true) {
            Ok(()) => Ok(Entrance {
                listener,
                next: Some(Duration::ZERO),
            }),
            Err(_) => Err(Refused),
        }
    }

    /// Whether a client may be there.
    pub fn may_have(&self, now: Duration) -> bool {
        match self.next {
            Some(next) => next <= now,
            None => false,
        }
    }

    /// Notes that the system reported of a client.
    pub fn note(&mut self) {
        if self.next.is_none() {
            self.next = Some(Duration::ZERO);
        }
    }

    /// Lets the system be, which had no descriptor or no memory at this time.
    pub fn pause(&mut self, now: Duration) {
        self.next = Some(now.saturating_add(Duration::from_millis(PAUSE_MILLIS)));
    }

    /// What came.
    pub fn accept(&mut self) -> Arrival<R::Stream> {
        match arrival_of(self.listener.accept()) {
            Arrival::Link((stream, _)) => match stream.set_nonblocking(true) {
                Ok(()) => Arrival::Link(stream),
                Err(_) => Arrival::Gone,
            },
            Arrival::Gone => Arrival::Gone,
            Arrival::NoneReady => {
                self.next = None;
                Arrival::NoneReady
            }
            Arrival::Short => Arrival::Short,
            Arrival::Failed => Arrival::Failed,
        }
    }
}
