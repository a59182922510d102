//! Doors: one in memory, and one over a real socket of this machine.

ghost use Rattle.std.specs.Prelude.{◌≡◌, ◌<◌};

use flux_doors::{Door, Framing, Link, MemoryDoor, MemoryLink, OUT_LIMIT, RealDoor};
use flux_outside::MemorySink;
use flux_values::{Bytes, List, Memory};
use std::alloc::Global;
use std::io::{Read, Write};
use std::net::{Ipv4Addr, Net, OpenStream, Shutdown, SocketAddr};
use std::test::Fail;

fn link(alloc: Global, input: &[u8]) -> Result<MemoryLink, Memory> {
    let sink = MemorySink::new(alloc, 100, 2, List::new(alloc))?;
    Ok(MemoryLink::new(Bytes::copy(alloc, input)?, 3, sink, List::new(alloc)))
}

/// A batch of two links, one without links, and one of one link.
fn batches(alloc: Global) -> Result<List<List<MemoryLink>>, Memory> {
    let mut first = List::new(alloc);
    first.add(link(alloc, b"ab")?)?;
    first.add(link(alloc, b"cdefg")?)?;
    let mut last = List::new(alloc);
    last.add(link(alloc, b"h")?)?;
    let mut all = List::new(alloc);
    all.add(first)?;
    all.add(List::new(alloc))?;
    all.add(last)?;
    Ok(all)
}

/// How many bytes the next link gives at once, 0 where there is none. It is answered and given back.
fn visit<D: Door>(door: &mut D, first: bool) -> usize
    requires { D.out door.old < OUT_LIMIT }
    ensures { D.out door.new ≡ D.out door.old }
{
    match door.accept(first) {
        Ok(Some(mut link)) => {
            let mut buffer = [0u8; 8];
            let count = link.read(&mut buffer);
            let _ = link.write(b"yes");
            door.done(link);
            count.unwrap_or(8)
        }
        Ok(None) => 0,
        Err(_) => 9,
    }
}

#[test]
fn in_memory(rt: HostRuntime) -> Result<(), Fail> {
    let alloc = rt.alloc();
    let mut fails = List::new(alloc);
    fails.add(6)?;
    let mut door = MemoryDoor::new(alloc, batches(alloc)?, fails)?;
    assert!(rt; door.open(80).is_ok());
    let first = [visit(&mut door, true), visit(&mut door, false)];
    let behind = [visit(&mut door, false), visit(&mut door, true)];
    let last = [visit(&mut door, true), visit(&mut door, true)];
    assert_eq!(rt; first, [2, 3]);
    assert_eq!(rt; behind, [0, 1]);
    assert_eq!(rt; last, [9, 0]);
    let back = door.taken_back();
    assert_eq!(rt; back.len(), 3);
    assert_eq!(rt; back[1].written(), b"ye".as_slice());
    Ok(())
}

/// Opens a door at the first port of some that is free.
fn open_somewhere<D: Door>(door: &mut D) -> Option<u16>
    ensures { D.out door.new ≡ D.out door.old }
{
    for port in 47_811..47_861 {
        if door.open(port).is_ok() {
            return Some(port);
        }
    }
    None
}

/// Asks at a port, and gives what came back.
#[test]
fn over_a_socket(rt: HostRuntime) -> Result<(), Fail> {
    let alloc = rt.alloc();
    let mut door = RealDoor::new(alloc, &rt);
    let port = open_somewhere(&mut door).ok_or("no port")?;
    let there = SocketAddr::from((Ipv4Addr::LOCALHOST, port));
    let mut client = rt.connect(there)?;
    client.write_all(b"hello and more")?;
    client.shutdown(Shutdown::Write)?;
    let mut link = match door.accept(true) {
        Ok(Some(link)) => link,
        _ => return Err(Fail::from("no link")),
    };
    assert!(rt; matches!(door.accept(false), Ok(None)));
    let mut buffer = [0u8; 5];
    assert_eq!(rt; link.read(&mut buffer), Ok(5));
    assert_eq!(rt; link.write(b"answer"), Ok(6));
    door.done(link);
    let mut back = [0u8; 16];
    assert_eq!(rt; client.read(&mut back)?, 6);
    assert_eq!(rt; client.read(&mut back)?, 0);
    Ok(())
}

/// A client that says nothing is passed over, one that has sent a part is given when the rest is there, and one that goes away
/// with its text.
#[test]
fn only_whole_texts(rt: HostRuntime) -> Result<(), Fail> {
    let alloc = rt.alloc();
    let mut door = RealDoor::new(alloc, &rt);
    door.expect(Framing::Line);
    let port = open_somewhere(&mut door).ok_or("no port")?;
    let there = SocketAddr::from((Ipv4Addr::LOCALHOST, port));
    let silent = rt.connect(there)?;
    let mut parts = rt.connect(there)?;
    parts.write_all(b"ab")?;
    let mut whole = rt.connect(there)?;
    whole.write_all(b"abc\n")?;
    assert_eq!(rt; visit(&mut door, true), 4);
    assert_eq!(rt; visit(&mut door, false), 0);
    parts.write_all(b"cde\n")?;
    assert_eq!(rt; visit(&mut door, true), 6);
    silent.shutdown(Shutdown::Write)?;
    assert_eq!(rt; visit(&mut door, true), 0);
    let mut back = [0u8; 4];
    assert_eq!(rt; parts.read(&mut back)?, 3);
    assert_eq!(rt; whole.read(&mut back)?, 3);
    Ok(())
}

/// How many bytes a client gets, and none of them is waited for: the door sends on between its reads.
fn get_all<D: Door, S: Read>(door: &mut D, client: &mut S, block: &mut [u8], wanted: usize) -> usize
    requires { D.out door.old < OUT_LIMIT }
    ensures { D.out door.new ≡ D.out door.old }
{
    let mut got = 0usize;
    'reads: for _ in 0..1_000_000 {
        if got >= wanted {
            return got;
        }
        match client.read(block) {
            Ok(count) => got = got.saturating_add(count),
            Err(_) => {
                let _ = visit(door, false);
            }
        }
    }
    got
}

/// More bytes than a socket takes are kept, and sent when the client takes them.
#[test]
fn a_long_reply(rt: HostRuntime) -> Result<(), Fail> {
    let alloc = rt.alloc();
    let mut door = RealDoor::new(alloc, &rt);
    let port = open_somewhere(&mut door).ok_or("no port")?;
    let mut client = rt.connect(SocketAddr::from((Ipv4Addr::LOCALHOST, port)))?;
    client.write_all(b"\n\n")?;
    let mut link = match door.accept(true) {
        Ok(Some(link)) => link,
        _ => return Err(Fail::from("no link")),
    };
    let reply = Vec::from_elem(alloc, 7u8, 33_554_432)?;
    assert_eq!(rt; link.write(reply.as_slice()), Ok(33_554_432));
    assert_eq!(rt; link.write(b"more"), Ok(4));
    door.done(link);
    client.set_nonblocking(true)?;
    let mut block = Vec::from_elem(alloc, 0u8, 65_536)?;
    let got = get_all(&mut door, &mut client, block.as_mut_slice(), 33_554_436);
    assert_eq!(rt; got, 33_554_436);
    Ok(())
}
