//! Crowds of links.

use crate::serving::{door_of, link_of, serve_text};
use flow_core::OpenGate;
use flux_doors::MemoryLink;
use flux_serve::ServeEnd;
use flux_values::List;
use std::alloc::Global;
use std::marker::Sync;
use std::sync::Wait;
use std::thread::Threads;
use trial_ends::Trouble;

const ECHO: &[u8] =
    b"Listen () => (int a, text b);\nEcho (int a, text b) => ();\nsource Listen => Echo;\n";

pub const COUNTER: &[u8] =
    b"Listen () => (int a, text b);\nCommand (int a, text b) => (text a, int b);\nAmount (text a, int b) => (int a);\nAdd (int a) => (int a);\nRead (int a) => (int a);\nShow (int a) => ();\nRefuse (int a, text b) => ();\ntypedef adding IsAdd;\nsource Listen => Count;\nCount = Command -> Act -> Show;\nAct:[adding, _] = Amount -> Add;\nAct:[_, _] = Amount -> Read;\nhandle error Command => Refuse;\natomic Add:{counter};\natomic Read:{counter?};\n";

/// How many links come at once: one more than a batch has.
const LINKS: u64 = 65;

/// What the links of a crowd send.
#[derive(Clone, Copy)]
pub enum Crowd {
    /// A line of their own, which comes back. The reads of some fail, and of others the first to the eighth write.
    Echo,
    /// That 1 is added, which is answered by the sum.
    Counter,
}

impl Crowd {
    pub fn name(self) -> &'static str {
        match self {
            Crowd::Echo => "echo",
            Crowd::Counter => "counter",
        }
    }

    /// The program that serves it.
    fn program(self) -> &'static [u8] {
        match self {
            Crowd::Echo => ECHO,
            Crowd::Counter => COUNTER,
        }
    }
}

/// Which read and which write of a link fail; 0 for none.
fn fails_of(number: u64) -> (u64, u64) {
    if number % 8 == 7 {
        (1, 0)
    } else {
        (0, number % 9)
    }
}

fn crowd_of(alloc: Global, crowd: Crowd) -> Result<List<MemoryLink>, Trouble> {
    let mut links = List::new(alloc);
    for number in 0..LINKS {
        let (read, write) = fails_of(number);
        let line = format!(in alloc; "link {number}\n")?;
        links.add(match crowd {
            Crowd::Echo => link_of(alloc, line.as_bytes(), read, write)?,
            Crowd::Counter => link_of(alloc, b"add 1\n", 0, 0)?,
        })?;
    }
    Ok(links)
}

/// How many of a link's bytes come back before a call fails.
fn taken_of(number: u64) -> usize {
    match fails_of(number) {
        (0, 0) => usize::MAX,
        (0, write) => write as usize - 1,
        _ => 0,
    }
}

/// Whether each link was written its line up to the call that fails; or nothing, where memory ran out.
fn are_echoed(alloc: Global, back: &[MemoryLink], cut: bool) -> Result<bool, Trouble> {
    for (number, link) in back.iter().enumerate() {
        let line = format!(in alloc; "link {number}")?;
        let taken = taken_of(number as u64).min(line.len());
        let written = link.written();
        if written != &line.as_bytes()[..taken] && !(cut && written.is_empty()) {
            return Ok(false);
        }
    }
    Ok(true)
}

/// Whether just one link got each sum from 1 on, in whatever order they came to add.
fn are_counted(alloc: Global, back: &[MemoryLink]) -> Result<bool, Trouble> {
    for sum in 1..=back.len() {
        let reply = format!(in alloc; "{sum}\n")?;
        let reply = reply.as_bytes();
        if back.iter().filter(|link| link.written() == reply).count() != 1 {
            return Ok(false);
        }
    }
    Ok(true)
}

/// Whether the links that were taken back got what they had to get.
fn are_told(alloc: Global, crowd: Crowd, back: &[MemoryLink], cut: bool) -> Result<bool, Trouble> {
    match crowd {
        Crowd::Echo => are_echoed(alloc, back, cut),
        Crowd::Counter if cut => Ok(true),
        Crowd::Counter => are_counted(alloc, back),
    }
}

/// What is said of a crowd that was served.
fn judge(
    alloc: Global,
    crowd: Crowd,
    back: &[MemoryLink],
    end: ServeEnd,
    batches: u32,
) -> Result<&'static str, Trouble> {
    if !are_told(alloc, crowd, back, end == ServeEnd::Memory)? {
        return Ok("another reply");
    }
    match (end, back.len(), batches) {
        (ServeEnd::Memory, _, _) => Err(Trouble::Memory),
        (ServeEnd::Counted, 64, 1) | (ServeEnd::Closed, 65, 3) => Ok("right"),
        _ => Ok("another end"),
    }
}

/// Serves a crowd, whose links fill one batch and begin a second one.
pub fn serve_crowd<R: Threads + Wait + Sync>(
    rt: &R,
    alloc: Global,
    crowd: Crowd,
    workers: u8,
    batches: u32,
) -> Result<&'static str, Trouble> {
    let mut door = door_of(alloc, crowd_of(alloc, crowd)?)?;
    let end = serve_text(
        rt,
        alloc,
        crowd.program(),
        &mut door,
        workers,
        &OpenGate,
        batches,
    )?;
    judge(alloc, crowd, door.taken_back(), end, batches)
}
