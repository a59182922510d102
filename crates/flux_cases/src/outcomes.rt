//! What comes of a command line in a world in memory.

ghost use Rattle.std.specs.Prelude.{◌≡◌};

use case_worlds::{CountingGate, Entrance, Outcome, Parts};
use flux_doors::Door;
use flux_driver::{World, needs_threads, top};
use flux_outside::{Folder, Sink, Store};
use flux_values::{Bytes, Memory};
use std::alloc::Global;
use std::marker::Sync;
use std::sync::Wait;
use std::thread::Threads;

/// The status that a command line ends with. Cases look at what else came of it.
fn answer<S: Store, F: Folder, O: Sink, E: Sink, D: Door, Rt: Threads + Wait + Sync>(
    rt: &Rt,
    alloc: Global,
    words: &[Bytes],
    world: &mut World<S, F, O, E, D>,
    gate: &CountingGate<'_, Rt>,
) -> u8
    requires { D.out world.old.door ≡ 0 }
{
    top(rt, alloc, words, world, gate).code()
}

/// Does what words say in the world that is made of these parts. The gate holds the first call of a node for so many looks at most.
pub fn outcome_of<Rt: Threads + Wait + Sync>(
    rt: &Rt,
    alloc: Global,
    words: &[Bytes],
    parts: Parts<Entrance>,
    looks: u64,
) -> Result<Outcome, Memory> {
    let Parts {
        store,
        folder,
        out,
        err,
        door,
    } = parts;
    let door = door.open(alloc)?;
    let mut world = World {
        store,
        folder,
        out,
        err,
        door,
    };
    let gate = CountingGate::new(rt, looks);
    let status = answer(rt, alloc, words, &mut world, &gate);
    let World {
        store,
        folder,
        out,
        err,
        door,
    } = world;
    Ok(Outcome {
        status,
        told: gate.calls(needs_threads(words)),
        was_met: gate.was_met(),
        parts: Parts {
            store,
            folder,
            out,
            err,
            door,
        },
    })
}
