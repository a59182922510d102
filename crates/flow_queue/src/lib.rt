//! A queue of flows' numbers, which threads share.
//!
//! A pass takes the number at the front and holds it, and puts it at the back. `specs/Rule` is the rule that every call
//! of every thread keeps: first in, first out, and no number in two places. So a put always finds room. Where `take` answers
//! None, the rule lets the queue hold nothing; that it did hold nothing at some moment no clause says.
#![tactic(auto)]

mod passes;
mod queues;
mod rules;
mod views;

pub use passes::QueuePass;
pub use queues::FlowQueue;
