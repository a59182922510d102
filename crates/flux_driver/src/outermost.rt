//! All that the program does, as one call.

ghost use Rattle.std.specs.Prelude.{◌≡◌, [], IfOk, IsErr};
ghost use Rattle.flux_cli.specs.Commands.{Command, Spells, IsServe, NeedsThreads};
ghost use Rattle.flux_commands.specs.BuiltIn.{built_in, meaning_in};
ghost use Rattle.flux_driver.specs.Seen.{seen_by};
ghost use Rattle.flux_driver.specs.Top.{HasDone};
ghost use Rattle.flux_commands.specs.Driving.{CanDrive, DrivesTo};

use crate::drivers::{TickByTick, drive_alone, drive_by_threads};
use crate::serving::serve_ready;
use crate::telling::{print, refuse, tell_end};
use flow_core::{Core, Gate};
use flux_cli::{Runtime, needs_threads, spells_serve};
use flux_commands::{BuiltIn, Status, prepare_words, ready_words};
use flux_doors::{Door, Link};
use flux_outside::{Folder, Sink, Store};
use flux_values::{Bytes, List, Memory};
use std::alloc::Global;
use std::marker::Sync;
use std::sync::Wait;
use std::thread::Threads;

/// The outside world: the files that are named, the folders of documents, the stream that is printed on,
/// the stream for lines about what went wrong, and the door that clients come in by.
#[derive(Drop)]
pub struct World<S: Store, F: Folder, O: Sink, E: Sink, D> {
    pub store: S,
    pub folder: F,
    pub out: O,
    pub err: E,
    pub door: D,
}

/// Does what the words say, and answers how it ended. A run's flows are driven as the caller likes.
fn act<
    S: Store,
    F: Folder,
    O: Sink,
    E: Sink,
    D: Door,
    R: Fn(Core<BuiltIn>, Runtime) -> Result<Core<BuiltIn>, Memory>,
>(alloc: Global, words: &[Bytes], world: &mut World<S, F, O, E, D>, driver: &R) -> Status
    requires driver { CanDrive (R.pre driver.now) (R.post driver.now) }
    requires printed { (command : Command) → Spells words.now command → IsServe command → ⊥ }
    ensures door { world.new.door ≡ world.old.door }
    ensures done { let seen = seen_by S.files S.asked S.faults F.folders F.asked F.faults O.seen E.seen D.Link.seen D.seen in
        HasDone built_in words.now (seen world.old) result (seen world.new) }
{
    match prepare_words(
        alloc,
        &mut world.store,
        &mut world.folder,
        driver,
        &TickByTick,
        words,
    ) {
        Ok(prepared) => print(&mut world.out, &mut world.err, &prepared),
        Err(refusal) => refuse(alloc, &mut world.err, refusal),
    }
}

/// Does what the words say without starting a thread, and answers how it ended.
///
/// It has the whole clause of `top`. `needs_threads` tells whether words may come here.
pub fn top_alone<S: Store, F: Folder, O: Sink, E: Sink, D: Door, G: Gate>(
    alloc: Global,
    words: &[Bytes],
    world: &mut World<S, F, O, E, D>,
    gate: &G,
) -> Status
    requires { (command : Command) → Spells words.now command → NeedsThreads command → ⊥ }
    ensures door { world.new.door ≡ world.old.door }
    ensures done { let seen = seen_by S.files S.asked S.faults F.folders F.asked F.faults O.seen E.seen D.Link.seen D.seen in
        HasDone built_in words.now (seen world.old) result (seen world.new) }
{
    act(
        alloc,
        words,
        world,
        &|core: Core<BuiltIn>, runtime: Runtime|
            requires { core.entries ≡ [] }
            ensures { IfOk result (DrivesTo meaning_in runtime core) }
        { drive_alone(core, runtime, gate) },
    )
}

/// Serves the program that the words name, and answers how it ended. It has the whole clause of `top`.
fn serve_words<
    S: Store,
    F: Folder,
    O: Sink,
    E: Sink,
    D: Door,
    G: Gate + Sync,
    Rt: Threads + Wait + Sync,
>(rt: &Rt, alloc: Global, words: &[Bytes], world: &mut World<S, F, O, E, D>, gate: &G) -> Status
    requires spelled { (command : Command) × Spells words.now command × IsServe command }
    requires out { D.out world.old.door ≡ 0 }
    // Each accepted link has gone back to the door.
    ensures out { D.out world.new.door ≡ 0 }
    ensures done { let seen = seen_by S.files S.asked S.faults F.folders F.asked F.faults O.seen E.seen D.Link.seen D.seen in
        HasDone built_in words.now (seen world.old) result (seen world.new) }
{
    match ready_words(alloc, &mut world.store, &mut world.folder, words) {
        Ok((service, ready)) => {
            let end = serve_ready(
                rt,
                alloc,
                ready,
                service,
                &mut world.door,
                &mut world.out,
                gate,
            );
            tell_end(&mut world.err, end)
        }
        Err(refusal) => refuse(alloc, &mut world.err, refusal),
    }
}

/// Does what the words say, and answers how it ended.
///
/// The words are those after the program's own name. `check FILE` says whether a program is sound
/// and reports on its locks, `plan FILE` prints what its nodes take, give, hold and count,
/// `format FILE` prints its formatted text, `run FILE ITEMS` runs the items of one file through the program
/// of another and prints the journal of their flows, `audit FILE ITEMS JOURNAL` prints whether a file is the
/// journal of such a run, `load N K` runs a large load of its own and prints what it counted, `serve FILE` answers
/// the links of a door, batch by batch, and logs them, `help` prints the commands, `simulate FILE ITEMS` lets the items
/// run on simulated processors and prints how long that takes, and `swarm FILE ITEMS JOURNAL HASH` prints the peers of a
/// tracker's hash after a journal of such a run. The clause speaks of what is seen of the world before and after the
/// call. The gate is notified before and after each call of a node, but for those of `simulate`.
pub fn top<
    S: Store,
    F: Folder,
    O: Sink,
    E: Sink,
    D: Door,
    G: Gate + Sync,
    Rt: Threads + Wait + Sync,
>(rt: &Rt, alloc: Global, words: &[Bytes], world: &mut World<S, F, O, E, D>, gate: &G) -> Status
    requires out { D.out world.old.door ≡ 0 }
    // Each accepted link has gone back to the door.
    ensures out { D.out world.new.door ≡ 0 }
    ensures done { let seen = seen_by S.files S.asked S.faults F.folders F.asked F.faults O.seen E.seen D.Link.seen D.seen in
        HasDone built_in words.now (seen world.old) result (seen world.new) }
{
    if !needs_threads(words) {
        return top_alone(alloc, words, world, gate);
    }
    if spells_serve(words) {
        return serve_words(rt, alloc, words, world, gate);
    }
    act(
        alloc,
        words,
        world,
        &|core: Core<BuiltIn>, runtime: Runtime|
            requires { core.entries ≡ [] }
            ensures { IfOk result (DrivesTo meaning_in runtime core) }
        { drive_by_threads(rt, core, runtime, gate) },
    )
}

/// Does what the words say in the world, and answers how it ended: that there was no memory where there was none for the
/// words or for the world. Without words the world stays as it was.
pub fn answer<
    S: Store,
    F: Folder,
    O: Sink,
    E: Sink,
    D: Door,
    G: Gate + Sync,
    Rt: Threads + Wait + Sync,
>(
    rt: &Rt,
    alloc: Global,
    words: Result<List<Bytes>, Memory>,
    world: &mut Result<World<S, F, O, E, D>, Memory>,
    gate: &G,
) -> Status
    requires out { IfOk world.old (λ before. D.out before.door ≡ 0) }
    // Each accepted link has gone back to the door.
    ensures out { IfOk world.new (λ after. D.out after.door ≡ 0) }
    ensures there { IsErr world.new → IsErr world.old }
    ensures words { IsErr words → (result ≡ Status.Memory) × (world.new ≡ world.old) }
    ensures world { IsErr world.old → result ≡ Status.Memory }
    ensures done { let seen = seen_by S.files S.asked S.faults F.folders F.asked F.faults O.seen E.seen D.Link.seen D.seen in
        IfOk words (λ given. IfOk world.old (λ before. IfOk world.new (λ after.
        HasDone built_in given (seen before) result (seen after)))) }
{
    let Ok(words) = words else {
        return Status::Memory;
    };
    match world {
        Ok(world) => top(rt, alloc, words.as_slice(), world, gate),
        Err(_) => Status::Memory,
    }
}
