//! The program `flux`: the real files, folders, streams and sockets, the words of the command line, and one call of `top`.
#![tactic(auto)]

ghost use Rattle.std.specs.Prelude.{◌≡◌, ◌≢◌, [], drop, map, string_bytes, IfOk, IfErr, IsErr, Ok};
ghost use Rattle.std.specs.IoError.{error_kind};
ghost use Rattle.std.specs.Process.{exit_status};
ghost use Rattle.flux_commands.specs.Statuses.{code_of};
ghost use Rattle.flux_commands.specs.BuiltIn.{built_in};
ghost use Rattle.flux_driver.specs.Seen.{seen_by};
ghost use Rattle.flux_driver.specs.Top.{HasDone};

use flux_doors::{Door, RealDoor};
use flux_driver::{OpenGate, Status, World, answer};
use flux_outside::{Folder, RealFolder, RealSink, RealStore, Sink, Store};
use flux_values::{Bytes, List, Memory};
use std::alloc::Global;
use std::io::{ErrorKind, Stderr, Stdout};
use std::marker::Sync;
use std::process::ExitCode;
use std::sync::Wait;
use std::thread::Threads;
use std::{env, io};

/// The files, the folders, the two streams of the system, which differ in type, and its sockets.
type Outside<'a> = World<
    RealStore<&'a HostRuntime>,
    RealFolder<&'a HostRuntime>,
    RealSink<Stdout>,
    RealSink<Stderr>,
    RealDoor<&'a HostRuntime>,
>;

fn outside(rt: &HostRuntime) -> Result<Outside, Memory>
    ensures { IfOk result (λ world. world.door.out ≡ 0) }
{
    Ok(World {
        store: RealStore::new(rt),
        folder: RealFolder::new(rt.alloc(), rt)?,
        out: RealSink::new(rt.stdout()),
        err: RealSink::new(rt.stderr()),
        door: RealDoor::new(rt.alloc(), rt),
    })
}

/// What the system gives, the program's own name first.
fn arguments(rt: &HostRuntime) -> io::Result<Vec<String>> {
    Ok(env::args(rt)?.collect(rt.alloc())?)
}

/// The words after the program's own name.
fn words_of(alloc: Global, arguments: &[String]) -> Result<List<Bytes>, Memory>
    ensures { IfOk result (λ words. words ≡ map string_bytes (drop 1 arguments.now)) }
{
    let mut words = List::new(alloc);
    if let [_, rest @ ..] = arguments {
        for word in rest {
            if words.push(Bytes::copy(alloc, word.as_bytes())?).is_err() {
                return Err(Memory);
            }
        }
    }
    Ok(words)
}

/// The words; none where one isn't UTF-8, and that is no command.
fn read_words(alloc: Global, arguments: &io::Result<Vec<String>>) -> Result<List<Bytes>, Memory>
    ensures words { IfOk arguments.now (λ all. IfOk result (λ words. words ≡ map string_bytes (drop 1 all.items))) }
    ensures memory { IfErr arguments.now (λ e. error_kind e ≡ ErrorKind.OutOfMemory → IsErr result) }
    ensures unreadable { IfErr arguments.now (λ e. error_kind e ≢ ErrorKind.OutOfMemory → result ≡ Ok []) }
{
    match arguments {
        Ok(arguments) => words_of(alloc, arguments.as_slice()),
        Err(e) if e.kind() == ErrorKind::OutOfMemory => Err(Memory),
        Err(_) => Ok(List::new(alloc)),
    }
}

fn exit_code(status: Status) -> ExitCode
    ensures { exit_status result ≡ code_of status }
{
    ExitCode::from(status.code())
}

/// Does what the words say in a world, whatever it is made of, and gives the exit code of the status that this ended with.
fn answer_in<S: Store, F: Folder, O: Sink, E: Sink, D: Door, Rt: Threads + Wait + Sync>(
    rt: &Rt,
    alloc: Global,
    words: Result<List<Bytes>, Memory>,
    world: &mut Result<World<S, F, O, E, D>, Memory>,
) -> ExitCode
    requires { IfOk world.old (λ before. D.out before.door ≡ 0) }
    // Each accepted link has gone back to the door.
    ensures out { IfOk world.new (λ after. D.out after.door ≡ 0) }
    ensures there { IsErr world.new → IsErr world.old }
    ensures words { IsErr words → (exit_status result ≡ code_of Status.Memory) × (world.new ≡ world.old) }
    ensures world { IsErr world.old → exit_status result ≡ code_of Status.Memory }
    ensures done { let seen = seen_by S.files S.asked S.faults F.folders F.asked F.faults O.seen E.seen D.Link.seen D.seen in
        IfOk words (λ given. IfOk world.old (λ before. IfOk world.new (λ after.
        (status : Status) × (exit_status result ≡ code_of status)
        × HasDone built_in given (seen before) status (seen after)))) }
{
    exit_code(answer(rt, alloc, words, world, &OpenGate))
}

fn main(rt: HostRuntime) -> ExitCode {
    let words = read_words(rt.alloc(), &arguments(&rt));
    let mut world = outside(&rt);
    answer_in(&rt, rt.alloc(), words, &mut world)
}
