//! Turns of workers: what a worker of any runtime does with a core that threads share.
//!
//! `go_on` lets a flow go on within a turn, up to its call, a wait or its end; `run` runs that call outside the turn; and
//! `take_answer` takes its answer in a later one. None of the three knows how threads have the core in turn.
//!
//! A `Worker` says what it does in its turn and how it waits. `share` puts a core into a hall, gives each worker a seat and a
//! thread, runs the calls that they hand out, and hands the answers in. `settle` ends a drive that `is_over`: a core without live flows
//! is driven, and one that was halted is stopped.
//!
//! Nobody polls for a flow that waits. Whoever makes an entry wakes the flows that it may free (`freed_since`), and a worker with
//! nothing to do sleeps until its `Bell` is rung.
#![tactic(auto)]

mod bells;
mod calls;
mod freed;
mod settling;
mod turns;
mod workers;

pub use bells::Bell;
pub use calls::run;
pub use freed::freed_since;
pub use settling::{give_up, is_over, settle};
pub use turns::{TurnEnd, go_on, take_answer};
pub use workers::{Next, Worker, share};
