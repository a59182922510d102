//! Batch after batch, each driven by a call.

ghost use Rattle.std.specs.Prelude.{◌≡◌, ℕ, ◌+◌, ◌^◌, ◌<◌, ◌≤◌, IfOk, IfErr};
ghost use Rattle.flux_cells.specs.Kept.{cells_of};
ghost use Rattle.flux_outside.specs.Streams.{Stream};
ghost use Rattle.flux_doors.specs.Seen.{IsLater};
ghost use Rattle.flux_serve.specs.Ends.{sight_of, HasStopped, HasServed};
ghost use Rattle.flux_serve.specs.AtOnce.{HasServedAtOnce};
ghost use Rattle.flux_serve.specs.steps.Batches.{service_in, HasRun, HasPassed, IsNone, IsNoneAtOnce, StopsAtOnce};
ghost use Rattle.flux_serve.specs.steps.Driving.{tells_by, ends_before, ends_at_once, MayDrive, Drives};

use crate::batches::{Run, ServeEnd, log_batch};
use crate::runs::Served;
use flux_cells::Cells;
use flux_doors::Door;
use flux_library::Library;
use flux_outside::Sink;
use std::alloc::Global;

/// Drives the next batch by a call.
fn drive_next<L: Library, D: Door, S, F: Fn(&mut S, &mut D, Cells, u64) -> Result<Run, ServeEnd>>(
    served: &Served<L>,
    door: &mut D,
    state: &mut S,
    drive: &F,
    opening: Cells,
    number: u64,
) -> Result<Run, ServeEnd>
    requires may { MayDrive F.Fn drive.now (tells_by D.Link.seen D.seen D.out) state.old }
    requires drives { Drives F.Fn drive.now (tells_by D.Link.seen D.seen D.out) (ends_at_once D.Link.seen (service_in L.meaning served.now))
        (service_in L.meaning served.now) }
    requires out { D.out door.old ≡ 0 }
    requires numbers { number + 64 < 2 ^ 63 }
    ensures again { MayDrive F.Fn drive.now (tells_by D.Link.seen D.seen D.out) state.new }
    ensures out { D.out door.new ≡ 0 }
    ensures open { (D.seen door.new).open_at ≡ (D.seen door.old).open_at }
    ensures later { IsLater (D.seen door.old) (D.seen door.new) }
    ensures bound { IfOk result (λ run. run.next ≤ number + 64) }
    ensures ran { (log : Stream) → IfOk result (HasRun D.Link.seen (service_in L.meaning served.now) (cells_of opening) number
        (sight_of (D.seen door.old) log) (sight_of (D.seen door.new) log)) }
    ensures none { (log : Stream) → IfErr result (IsNoneAtOnce D.Link.seen (service_in L.meaning served.now) (cells_of opening) number
        (sight_of (D.seen door.old) log) (sight_of (D.seen door.new) log)) }
    ensures before { Drives F.Fn drive.now (tells_by D.Link.seen D.seen D.out) (ends_before D.Link.seen served.now.framing)
        (service_in L.meaning served.now)
        → (log : Stream) → IfErr result (IsNone D.Link.seen served.now.framing
        (sight_of (D.seen door.old) log) (sight_of (D.seen door.new) log)) }
{
    drive(state, door, opening, number)
}

/// Serves the next batch: gives the cells at its end, and the number of the next link.
fn serve_batch<
    L: Library,
    D: Door,
    O: Sink,
    S,
    F: Fn(&mut S, &mut D, Cells, u64) -> Result<Run, ServeEnd>,
>(
    alloc: Global,
    served: &Served<L>,
    door: &mut D,
    log: &mut O,
    state: &mut S,
    drive: &F,
    opening: Cells,
    count: u32,
    number: u64,
) -> Result<(Cells, u64), ServeEnd>
    requires may { MayDrive F.Fn drive.now (tells_by D.Link.seen D.seen D.out) state.old }
    requires drives { Drives F.Fn drive.now (tells_by D.Link.seen D.seen D.out) (ends_at_once D.Link.seen (service_in L.meaning served.now))
        (service_in L.meaning served.now) }
    requires out { D.out door.old ≡ 0 }
    requires numbers { number + 64 < 2 ^ 63 }
    ensures again { MayDrive F.Fn drive.now (tells_by D.Link.seen D.seen D.out) state.new }
    ensures out { D.out door.new ≡ 0 }
    ensures open { (D.seen door.new).open_at ≡ (D.seen door.old).open_at }
    ensures later { IsLater (D.seen door.old) (D.seen door.new) }
    ensures later_log { (O.seen log.old).faults ≤ (O.seen log.new).faults }
    ensures bound { IfOk result (λ next. next.1 ≤ number + 64) }
    ensures passed { IfOk result (λ next. HasPassed D.Link.seen (service_in L.meaning served.now) (cells_of opening) count number
        (sight_of (D.seen door.old) (O.seen log.old)) (sight_of (D.seen door.new) (O.seen log.new))
        (cells_of next.0) next.1) }
    ensures stopped { IfErr result (StopsAtOnce D.Link.seen (service_in L.meaning served.now) (cells_of opening) count number
        (sight_of (D.seen door.old) (O.seen log.old)) (sight_of (D.seen door.new) (O.seen log.new))) }
    ensures before { Drives F.Fn drive.now (tells_by D.Link.seen D.seen D.out) (ends_before D.Link.seen served.now.framing)
        (service_in L.meaning served.now)
        → IfErr result (HasStopped D.Link.seen (service_in L.meaning served.now) (cells_of opening) count number
        (sight_of (D.seen door.old) (O.seen log.old)) (sight_of (D.seen door.new) (O.seen log.new))) }
{
    match drive_next(served, door, state, drive, opening, number) {
        Ok(run) => log_batch(alloc, &served.program, log, count, run),
        Err(end) => Err(end),
    }
}

/// Serves so many batches of a door's links, each driven by a call, until the door is closed or something fails. Each batch is
/// driven from the cells that the one before left, and its text is written on the log.
pub fn serve_batches<
    L: Library,
    D: Door,
    O: Sink,
    S,
    F: Fn(&mut S, &mut D, Cells, u64) -> Result<Run, ServeEnd>,
>(
    alloc: Global,
    served: &Served<L>,
    door: &mut D,
    log: &mut O,
    state: &mut S,
    drive: &F,
    batches: u32,
) -> ServeEnd
    requires may { MayDrive F.Fn drive.now (tells_by D.Link.seen D.seen D.out) state.old }
    requires drives { Drives F.Fn drive.now (tells_by D.Link.seen D.seen D.out) (ends_at_once D.Link.seen (service_in L.meaning served.now))
        (service_in L.meaning served.now) }
    requires out { D.out door.old ≡ 0 }
    ensures again { MayDrive F.Fn drive.now (tells_by D.Link.seen D.seen D.out) state.new }
    ensures out { D.out door.new ≡ 0 }
    ensures open { (D.seen door.new).open_at ≡ (D.seen door.old).open_at }
    ensures later { IsLater (D.seen door.old) (D.seen door.new) }
    ensures later_log { (O.seen log.old).faults ≤ (O.seen log.new).faults }
    ensures served { HasServedAtOnce D.Link.seen (service_in L.meaning served.now) batches
        (sight_of (D.seen door.old) (O.seen log.old)) (sight_of (D.seen door.new) (O.seen log.new))
        result }
    // Where no call breaks a batch off, none was.
    ensures before { Drives F.Fn drive.now (tells_by D.Link.seen D.seen D.out) (ends_before D.Link.seen served.now.framing)
        (service_in L.meaning served.now)
        → HasServed D.Link.seen (service_in L.meaning served.now) batches
        (sight_of (D.seen door.old) (O.seen log.old)) (sight_of (D.seen door.new) (O.seen log.new))
        result }
{
    let mut opening = Cells::new(alloc);
    let mut number = 0u64;
    'batches: for count in 0..batches {
        match serve_batch(
            alloc, served, door, log, state, drive, opening, count, number,
        ) {
            Ok((cells, next)) => {
                opening = cells;
                number = next;
            }
            Err(end) => return end,
        }
    }
    ServeEnd::Counted
}
