//! A door over a real socket, which tells nothing of the links to come.

ghost use Rattle.std.specs.Prelude.{◌≡◌, None, true, IfOk, IsSome};

use crate::doors::{Door, OUT_LIMIT};
use crate::entrances::Refused;
use crate::event_loops::EventLoop;
use crate::framing::Framing;
use crate::real_links::RealLink;
use flux_outside::{Failed, count_failure};
use std::alloc::Global;
use std::net::Net;
use std::time::Clock;

/// A port of this machine alone, 127.0.0.1. It gives only links whose text is there, and no call waits for a client but a
/// first accept, which waits for any. Where the door is let go, what was written to its links is sent.
#[derive(Drop)]
pub struct RealDoor<R: Net + Clock + Copy> {
    runtime: R,
    alloc: Global,
    framing: Framing,
    event_loop: Option<EventLoop<R>>,
    port: Option<u16>,
    out: usize,
    faults: u64,
    late: u64,
}

impl<R: Net + Clock + Copy> RealDoor<R> {
    /// A door that isn't open yet.
    pub fn new(alloc: Global, runtime: R) -> RealDoor<R>
        ensures { (result.port ≡ None) × (result.out ≡ 0) × (result.faults ≡ 0) × (result.late ≡ 0) }
    {
        RealDoor {
            runtime,
            alloc,
            framing: Framing::Head,
            event_loop: None,
            port: None,
            out: 0,
            faults: 0,
            late: 0,
        }
    }

    /// The next link. A first accept waits for one; a later one doesn't.
    fn next_link(&mut self, first: bool) -> Result<Option<RealLink<R>>, Refused>
        ensures some { first ≡ true → IfOk result IsSome }
        ensures port { self.new.port ≡ self.old.port }
        ensures counts { (self.new.out ≡ self.old.out) × (self.new.faults ≡ self.old.faults) × (self.new.late ≡ self.old.late) }
    {
        let Some(event_loop) = &mut self.event_loop else {
            return Err(Refused);
        };
        if first {
            Ok(Some(event_loop.first_link(self.out)?))
        } else {
            event_loop.later_link(self.out)
        }
    }
}

impl<R: Net + Clock + Copy + Send> Door for RealDoor<R>
where
    R::Stream: Send,
{
    ghost use Rattle.std.specs.Prelude.{◌≡◌, ◌<◌, true, IfOk, IsSome, MatchBool};
    ghost use Rattle.flux_outside.specs.Causes.{HasCause};
    ghost use Rattle.flux_doors.specs.Doors.{out_after};

    type Link = RealLink<R>;

    ghost seen = { λ door. record {
      to_come = None;
      taken_back = None;
      open_at = door.port;
      faults = door.faults;
      late = door.late;
    } };

    ghost out = { λ door. door.out };

    fn expect(&mut self, framing: Framing) {
        self.framing = framing;
    }

    fn open(&mut self, port: u16) -> Result<(), Failed> {
        match EventLoop::open(self.alloc, self.runtime, self.framing, port) {
            Ok(event_loop) => {
                self.event_loop = Some(event_loop);
                self.port = Some(port);
                Ok(())
            }
            Err(Refused) => Err(count_failure(&mut self.faults)),
        }
    }

    fn accept(&mut self, first: bool) -> Result<Option<RealLink<R>>, Failed>
        requires { self.old.out < OUT_LIMIT }
        ensures stays { self.new.port ≡ self.old.port }
        ensures out { self.new.out ≡ out_after self.old.out result }
        ensures cause { MatchBool first
            (HasCause self.old.faults self.new.faults result × (self.new.late ≡ self.old.late))
            (HasCause self.old.late self.new.late result × (self.new.faults ≡ self.old.faults)) }
        // This door is never closed: a first accept that answers gives a link.
        ensures first { first ≡ true → IfOk result IsSome }
    {
        match self.next_link(first) {
            Ok(Some(link)) => {
                self.out += 1;
                Ok(Some(link))
            }
            Ok(None) => Ok(None),
            Err(Refused) => Err(if first {
                count_failure(&mut self.faults)
            } else {
                count_failure(&mut self.late)
            }),
        }
    }

    fn done(&mut self, link: RealLink<R>) {
        if let Some(event_loop) = &mut self.event_loop {
            event_loop.take_back(link);
        }
        self.out -= 1;
    }
}
