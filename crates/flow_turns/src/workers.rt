//! Workers, each in a thread of its own.

ghost use Rattle.std.specs.Prelude.{◌≡◌, All, IfOk, IfErr};
ghost use Rattle.flow_core.specs.Runs.{GoesOn};
ghost use Rattle.flow_turns.specs.Turns.{IsCallIn};
ghost use Rattle.flow_turns.specs.Workers.{RunsIn, HasSeat, WasRun};

use crate::calls::run;
use crate::settling::give_up;
use crate::turns::take_answer;
use flow_core::{Core, Gate, Job};
use flow_hall::{Hall, HallSeat};
use flux_library::Library;
use std::alloc::Global;
use std::marker::{Send, Sync};
use std::snapshot::Snapshot;
use std::sync::Wait;
use std::thread;
use std::thread::Threads;

/// What a worker does after its turn.
#[derive(Drop)]
pub enum Next<L: Library> {
    /// It goes on at once.
    Goes,
    /// It has nothing to do.
    Rests,
    /// It runs a call, and hands the answer in.
    Runs(Job<L>),
    /// It ends.
    Ends,
}

/// A worker of a runtime, which shares something with the others beside the core.
pub trait Worker<S> {
    /// What it does with the core in its turn.
    fn turn<L: Library, R: Wait>(&mut self, rt: &R, shared: &S, core: &mut Core<L>) -> Next<L>
        ensures on { GoesOn core.old core.new }
        ensures runs { RunsIn core.new.setup result };

    /// Sleeps, outside the turn, until there may be something to do.
    fn rest<R: Wait>(&self, rt: &R, shared: &S);
}

/// A worker, and its seat at the hall.
#[derive(Drop)]
pub struct Post<L: Library, W: Drop> {
    pub seat: HallSeat<L>,
    pub worker: W,
}

/// Halts the core, where there was no memory.
fn stop<L: Library, R: Wait>(rt: &R, hall: &Hall<L>, seat: HallSeat<L>) -> HallSeat<L>
    requires { seat.hall ≡ hall.now }
    ensures { result.hall ≡ hall.now }
{
    let mut turn = hall.turn(rt, seat);
    turn.core.halt();
    hall.give(turn)
}

/// A worker's turn.
fn turn<L: Library, S, W: Worker<S>, R: Wait>(
    rt: &R,
    hall: &Hall<L>,
    seat: HallSeat<L>,
    shared: &S,
    worker: &mut W,
) -> (HallSeat<L>, Next<L>)
    requires { seat.hall ≡ hall.now }
    ensures seat { result.0.hall ≡ hall.now }
    ensures runs { RunsIn hall.now.base.setup result.1 }
{
    let mut turn = hall.turn(rt, seat);
    let next = worker.turn(rt, shared, &mut turn.core);
    (hall.give(turn), next)
}

/// Runs a call outside the turn, and hands its answer in at the worker's next turn, in which it goes on. Beside that, the core
/// as it was when the answer was in.
fn call<L: Library, S, W: Worker<S>, G: Gate, R: Wait>(
    rt: &R,
    alloc: Global,
    hall: &Hall<L>,
    seat: HallSeat<L>,
    shared: &S,
    worker: &mut W,
    job: &Job<L>,
    gate: &G,
) -> (HallSeat<L>, Next<L>, Snapshot<Core<L>>)
    requires hall { seat.hall ≡ hall.now }
    requires call { IsCallIn hall.now.base.setup job.now }
    ensures seat { result.0.hall ≡ hall.now }
    ensures runs { RunsIn hall.now.base.setup result.1 }
    ensures ran { WasRun L.meaning hall.now.base job.now result.2.value }
{
    let made = run(alloc, job, gate);
    let mut turn = hall.turn(rt, seat);
    let _goes = take_answer(&mut turn.core, job.flow(), made);
    let answered = Snapshot::of(&turn.core);
    let next = worker.turn(rt, shared, &mut turn.core);
    (hall.give(turn), next, answered)
}

/// The work of one worker, turn after turn.
fn work<L: Library, S, W: Worker<S> + Drop, G: Gate, R: Wait>(
    rt: &R,
    alloc: Global,
    hall: &Hall<L>,
    shared: &S,
    post: Post<L, W>,
    gate: &G,
)
    requires { post.seat.hall ≡ hall.now }
{
    let Post { seat, worker } = post;
    let mut worker = worker;
    let (mut seat, mut next) = turn(rt, hall, seat, shared, &mut worker);
    for _ in rt.forever() {
        (seat, next) = match next {
            Next::Ends => return,
            Next::Goes => turn(rt, hall, seat, shared, &mut worker),
            Next::Rests => {
                worker.rest(rt, shared);
                turn(rt, hall, seat, shared, &mut worker)
            }
            Next::Runs(job) => {
                let (seat, next, _answered) = call(
                    rt,
                    alloc,
                    hall,
                    seat,
                    shared,
                    &mut worker,
                    &job,
                    gate,
                );
                (seat, next)
            }
        };
    }
}

/// A seat for each worker, beside the seat that is left. Without memory the seat alone comes back.
fn posts<L: Library, W: Drop>(
    alloc: Global,
    hall: &Hall<L>,
    seat: HallSeat<L>,
    workers: Vec<W>,
) -> Result<(HallSeat<L>, Vec<Post<L, W>>), HallSeat<L>>
    requires { seat.hall ≡ hall.now }
    ensures seat { IfOk result (λ made. made.0.hall ≡ hall.now) }
    ensures posts { IfOk result (λ made. All (HasSeat hall.now) made.1.items) }
    ensures err { IfErr result (λ seat. seat.hall ≡ hall.now) }
{
    let mut posts = Vec::new(alloc);
    let mut seat = seat;
    for worker in workers {
        let (kept, given) = hall.split(seat);
        seat = kept;
        if posts
            .push(Post {
                seat: given,
                worker,
            })
            .is_err()
        {
            return Err(seat);
        }
    }
    Ok((seat, posts))
}

/// The work of all workers, each in a thread of its own and with a seat of its own. Without memory for that the core is halted.
fn work_all<
    L: Library + Send + Sync,
    S: Sync,
    W: Worker<S> + Send + Drop,
    G: Gate + Sync,
    R: Threads + Wait + Sync,
>(
    rt: &R,
    alloc: Global,
    hall: &Hall<L>,
    seat: HallSeat<L>,
    shared: &S,
    workers: Vec<W>,
    gate: &G,
) -> HallSeat<L>
    requires { seat.hall ≡ hall.now }
    ensures { result.hall ≡ hall.now }
{
    let (seat, posts) = match posts(alloc, hall, seat, workers) {
        Ok(made) => made,
        Err(seat) => return stop(rt, hall, seat),
    };
    let ended = thread::map_vec(
        rt,
        posts,
        &|post: Post<L, W>|
            requires { HasSeat hall.now post }
        { work(rt, alloc, hall, shared, post, gate) },
    );
    match ended {
        Ok(_) => seat,
        Err(_) => stop(rt, hall, seat),
    }
}

/// Lets workers have a core in turn, each in a thread of its own, until all have ended. Without memory for that the core is
/// halted.
pub fn share<
    L: Library + Send + Sync,
    S: Sync,
    W: Worker<S> + Send + Drop,
    G: Gate + Sync,
    R: Threads + Wait + Sync,
>(rt: &R, core: Core<L>, shared: &S, workers: Vec<W>, gate: &G) -> Core<L>
    ensures { GoesOn core result }
{
    let alloc = core.alloc();
    match Hall::new(alloc, core) {
        Ok((hall, seat)) => {
            let seat = work_all(rt, alloc, &hall, seat, shared, workers, gate);
            hall.close(rt, seat)
        }
        Err(stopped) => give_up(stopped.core),
    }
}
